//! The serial bounds of a position.

ghost use Rattle.std.specs.Prelude.{◌≡◌, ◌*◌, ◌≤◌, OnOk, IfOk};
ghost use Rattle.fields.specs.Ranges.{IsAskInRange};
ghost use Rattle.text.specs.Texts.{Adds};
ghost use Rattle.commands.specs.Bounded.{bounds_status, bounds_text, IsSearchedRoot, IsBounded};

use crate::run::{Answer, refused, written};
use certificate::Ask;
use position::{GameVisitor, position};
use serial_ab::{RootEnd, Visits, root_bounds};
use sim_game::{Game, NoMemory};
use std::alloc::Global;
use text::Text;

/// Searches the root of a game with the visits and rows that are asked for.
#[derive(Drop)]
struct RootSearcher {
    alloc: Global,
    ask: Ask,
}

impl GameVisitor for RootSearcher {
    type Answer = Result<RootEnd, NoMemory>;

    ghost can_visit = { λ v width. IsAskInRange v.ask × (8 * (width * width) ≤ v.ask.weight) };

    ghost says = { λ v _ m answer. IfOk answer (IsSearchedRoot m v.ask) };

    #[tactic(auto, using(crate::proofs::RootLemmas::searched_root))]
    fn visit<G: Game + Send + Sync>(self, game: G) -> Result<RootEnd, NoMemory>
    where
        G::State: Send + Sync,
    {
        let mut visits = Visits::new(self.ask.visits);
        let end = root_bounds(
            self.alloc,
            game,
            self.ask.rows,
            self.ask.weight,
            &mut visits,
        );
        visits.keep_limit();
        end
    }
}

/// The answer to the bytes of a position: both bounds of its root by pure plans, or what stopped a search.
pub(crate) fn bounded(alloc: Global, bytes: &[u8]) -> Result<Answer, NoMemory>
    ensures { IfOk result (λ a. IsBounded bytes.now a.status a.text) }
{
    match position(alloc, bytes) {
        Ok(task) => match task.game().accept(RootSearcher {
            alloc,
            ask: task.ask,
        }) {
            Ok(end) => told(alloc, &end),
            Err(_) => Err(NoMemory),
        },
        Err(error) => refused(alloc, error),
    }
}

/// The answer that tells how the searches ended.
fn told(alloc: Global, end: &RootEnd) -> Result<Answer, NoMemory>
    ensures { IfOk result (λ a. (a.status ≡ bounds_status end.now) × (a.text ≡ bounds_text end.now)) }
{
    let mut text = Text::new(alloc);
    add_end(&mut text, end)?;
    Ok(written(bounds_status(end), text))
}

fn bounds_status(end: &RootEnd) -> u8
    ensures { result ≡ bounds_status end.now }
{
    match end {
        RootEnd::Found { .. } => 0,
        RootEnd::Cut { .. } => 4,
        RootEnd::Full => 5,
    }
}

fn add_end(text: &mut Text, end: &RootEnd) -> Result<(), NoMemory>
    ensures { OnOk result (Adds text.old text.new (bounds_text end.now)) }
{
    match end {
        RootEnd::Found { lower, upper } => {
            text.word(b"lower ")?;
            text.number(lower)?;
            text.word(b"\nupper ")?;
            text.number(upper)?;
            text.word(b"\n")
        }
        RootEnd::Cut { side } => {
            text.word_side(b"visits spent ", *side)?;
            text.word(b"\n")
        }
        RootEnd::Full => text.word(b"board full\n"),
    }
}
