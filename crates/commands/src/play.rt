//! The answer to the bytes of a report whose plans play against each other.

ghost use Rattle.std.specs.Prelude.{◌≡◌, ◌<◌, ◌≤◌, length, IfOk, OnOk};
ghost use Rattle.sim_game.specs.Model.{Reachable};
ghost use Rattle.referee.specs.Transcripts.{IsPlayed};
ghost use Rattle.text.specs.Texts.{Adds};
ghost use Rattle.certificate.specs.Ranges.{IsInRange};
ghost use Rattle.commands.specs.Checks.{most_report};
ghost use Rattle.commands.specs.Matches.{IsMatch, IsPlayedMatch, match_text, totals_text, turn_text, turns_text};

use crate::check::{faulty, report_in};
use crate::run::{Answer, written};
use certificate::Report;
use position::GameVisitor;
use referee::{PlayedTurn, Record, Totals, tally};
use sim_game::{Game, NoMemory, Side};
use std::alloc::Global;
use text::Text;

/// Plays games between the plans of a report, and tells of them.
#[derive(Drop)]
struct Referee<'a> {
    alloc: Global,
    report: &'a Report,
    games: u32,
    seed: u64,
}

impl<'a> GameVisitor for Referee<'a> {
    type Answer = Result<Text, NoMemory>;

    ghost can_visit = { λ v _. IsInRange v.report.now × (1 ≤ v.games) × (v.games ≤ 100000) };

    ghost says = { λ v _ m answer. IfOk answer (λ text. IsMatch m v.report.now v.games v.seed text) };

    fn visit<G: Game + Send + Sync>(self, game: G) -> Result<Text, NoMemory>
    where
        G::State: Send + Sync,
    {
        let report = self.report;
        let (first, totals) = tally(
            self.alloc,
            game,
            &report.one,
            &report.two,
            self.seed,
            self.games,
        )?;
        match_text(self.alloc, game, &first, totals)
    }
}

/// The answer to the bytes of a report, which are not too many: 1 to 100000 games.
pub(crate) fn played(alloc: Global, games: u32, seed: u64, bytes: &[u8]) -> Result<Answer, NoMemory>
    requires short { length bytes.now ≤ most_report bytes.now }
    requires some { 1 ≤ games }
    requires few { games ≤ 100000 }
    ensures { IfOk result (λ a. IsPlayedMatch games seed bytes.now a.status a.text) }
{
    match report_in(alloc, bytes) {
        Ok(found) => match found.game().accept(Referee {
            alloc,
            report: &found.report,
            games,
            seed,
        }) {
            Ok(text) => Ok(written(0, text)),
            Err(_) => Err(NoMemory),
        },
        Err(fault) => faulty(alloc, fault),
    }
}

/// The lines of the first game, and that of all.
fn match_text<G: Game>(
    alloc: Global,
    g: G,
    first: &Record,
    totals: Totals,
) -> Result<Text, NoMemory>
    requires { IsPlayed (G.model g) (G.model g).root first.now.turns }
    ensures { IfOk result (λ text. text ≡ match_text (G.model g) first.now totals) }
{
    let mut text = Text::new(alloc);
    add_turns(&mut text, g, g.root(), first.turns.as_slice())?;
    text.word_number(b"payoff ", &first.payoff)?;
    text.word(b"\n")?;
    add_totals(&mut text, totals)?;
    Ok(text)
}

fn add_turns<G: Game>(
    text: &mut Text,
    g: G,
    s: G::State,
    turns: &[PlayedTurn],
) -> Result<(), NoMemory>
    requires reachable { Reachable (G.model g) s }
    requires played { IsPlayed (G.model g) s turns.now }
    ensures { OnOk result (Adds text.old text.new (turns_text (G.model g) s turns.now)) }
{
    match turns {
        [] => Ok(()),
        [turn, rest @ ..] => {
            add_turn(text, g, s, *turn)?;
            add_turns(text, g, g.drawn(s, turn.one, turn.two, turn.draw), rest)
        }
    }
}

fn add_turn<G: Game>(text: &mut Text, g: G, s: G::State, turn: PlayedTurn) -> Result<(), NoMemory>
    requires reachable { Reachable (G.model g) s }
    requires one { turn.one < (G.model g).moves Side.One s }
    requires two { turn.two < (G.model g).moves Side.Two s }
    ensures { OnOk result (Adds text.old text.new (turn_text (G.model g) s turn)) }
{
    text.word_number(b"turn ", &g.label(Side::One, s, turn.one))?;
    text.next(&g.label(Side::Two, s, turn.two))?;
    text.next(&turn.draw)?;
    text.word(b"\n")
}

fn add_totals(text: &mut Text, totals: Totals) -> Result<(), NoMemory>
    ensures { OnOk result (Adds text.old text.new (totals_text totals)) }
{
    text.word_number(b"games ", &totals.games)?;
    text.word_number(b" sum ", &totals.sum)?;
    text.word_number(b" least ", &totals.least)?;
    text.word_number(b" most ", &totals.most)?;
    text.word(b"\n")
}
