//! Small games.
ghost use Rattle.goofspiel.specs.Rules.{goofspiel_game};
ghost use Rattle.oshi_zumo.specs.Rules.{oshi_zumo_game};
ghost use Rattle.worked_rows.specs.Weights.{HasFewMoves};

use certificate::Pay;
use goofspiel::Goofspiel;
use oshi_zumo::OshiZumo;
use sim_game::Limits;
use std::process::Abort;

// Goofspiel with two cards a side and two prizes of one point.
#[tactic(auto, using(crate::proofs::WidthLemmas::cards_few))]
pub(crate) fn two_cards(rt: &impl Abort) -> Goofspiel
    ensures { HasFewMoves (goofspiel_game result.setting) }
{
    match Goofspiel::new(&[1, 3], &[2, 3], &[1, 1], 0, Pay::Margin) {
        Ok(g) => g,
        Err(_) => panic!(rt; "the position is valid"),
    }
}

// Goofspiel with four cards a side, in which each card of One beats each of Two. Of its 70 states 69 are no ends.
#[tactic(auto, using(crate::proofs::WidthLemmas::cards_few))]
pub(crate) fn four_cards(rt: &impl Abort) -> Goofspiel
    ensures { HasFewMoves (goofspiel_game result.setting) }
{
    match Goofspiel::new(&[5, 6, 7, 8], &[1, 2, 3, 4], &[1, 1, 1, 1], 0, Pay::Margin) {
        Ok(g) => g,
        Err(_) => panic!(rt; "the position is valid"),
    }
}

// Goofspiel with the cards and prizes 1 to 4.
#[tactic(auto, using(crate::proofs::WidthLemmas::cards_few))]
pub(crate) fn cards_to_four(rt: &impl Abort) -> Goofspiel
    ensures { HasFewMoves (goofspiel_game result.setting) }
{
    match Goofspiel::new(&[1, 2, 3, 4], &[1, 2, 3, 4], &[1, 2, 3, 4], 0, Pay::Margin) {
        Ok(g) => g,
        Err(_) => panic!(rt; "the position is valid"),
    }
}

// Oshi-Zumo that ends after one push, by One's only coin. The key of its root is 16416.
#[tactic(auto, using(crate::proofs::WidthLemmas::push_few))]
pub(crate) fn one_push(rt: &impl Abort) -> OshiZumo
    ensures { HasFewMoves (oshi_zumo_game result.setting) }
{
    match OshiZumo::new(Limits::Narrow, 0, 1, 0, 1, 0) {
        Ok(g) => g,
        Err(_) => panic!(rt; "the position is valid"),
    }
}
