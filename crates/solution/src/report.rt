//! The report of what was found.

ghost use Rattle.std.specs.Prelude.{◌≡◌, Bool, true, false, All, MatchBool, IfOk};
ghost use Rattle.fields.specs.Ranges.{IsAskInRange, IsPositionInRange};
ghost use Rattle.fields.specs.declared.positions.PositionText.{PositionText};
ghost use Rattle.fields.specs.declared.ask.Ask.{Ask};
ghost use Rattle.lazy_workers.specs.Findings.{IsFoundGame, IsFoundFor};
ghost use Rattle.lazy_workers.specs.Keeping.{begun_whole};
ghost use Rattle.lazy_workers.specs.declared.summary.Found.{Found};
ghost use Rattle.solution.specs.declared.report.Solved.{Solved};
ghost use Rattle.solution.specs.Outcomes.{HasGap, IsOutcomeFor};
ghost use Rattle.solution.specs.Solutions.{spent_of, HasWidthOf, IsReportOf, IsSolution, IsSolvedGame};

use certificate::{Ask, Outcome, PositionText, Report};
use lazy_workers::Found;
use matrix_game::Turns;
use seq::Seq;
use shared_board::Kept;
use sim_game::{Game, NoMemory};
use std::alloc::Global;

/// A report, the turns of each worker, and the bounds of the states that the board had rows for, by row.
#[derive(Drop)]
pub struct Solved {
    pub report: Report,
    pub turns: Seq<Turns>,
    pub kept: Seq<Kept>,
}

/// The report of what was found of the position's game.
pub fn report_of(
    alloc: Global,
    found: Found,
    position: PositionText,
    ask: &Ask,
) -> Result<Solved, NoMemory>
    requires { HasGap found }
    ensures { IfOk result (IsReportOf position ask.now found) }
{
    let spent = spent_of(alloc, found.turns.as_slice())?;
    let gap = found.upper - found.lower;
    let all_spent = are_all_spent(found.turns.as_slice(), ask.turns);
    let outcome = outcome_for(gap, ask.gap, found.resolution, found.was_full, all_spent);
    Ok(Solved {
        report: Report {
            position,
            weight: ask.weight,
            turns: ask.turns,
            asked: ask.gap,
            resolution: found.resolution,
            outcome,
            lower: found.lower,
            upper: found.upper,
            spent: Seq::from_vec(spent),
            one: found.one,
            two: found.two,
        },
        turns: found.turns,
        kept: found.kept,
    })
}

/// The report of what was found of a game is a solution of the game; and where a board is left, its rows account for it.
pub fn reports_are_solutions<G: Game>(g: &G)
    ensures solutions { (text : PositionText) (ask : Ask) (may_stop : Bool) (x : Found) → IsAskInRange ask
        → IsPositionInRange text → HasWidthOf (G.model g.now) text → IsFoundGame (G.model g.now) ask may_stop x
        → (s : Solved) → IsReportOf text ask x s → IsSolution (G.model g.now) text ask may_stop s.report }
    ensures rows { (text : PositionText) (ask : Ask) (x : Found) → IsAskInRange ask → IsPositionInRange text
        → HasWidthOf (G.model g.now) text → IsFoundFor (G.model g.now) ask (begun_whole false) x
        → (s : Solved) → IsReportOf text ask x s → IsSolvedGame (G.model g.now) text ask s }
{}

/// How many turns each worker has spent.
fn spent_of(alloc: Global, turns: &[Turns]) -> Result<Vec<u64>, NoMemory>
    ensures { IfOk result (λ spent. spent.items ≡ spent_of turns.now) }
{
    let mut spent = Vec::with_capacity(alloc, turns.len())?;
    for own in turns {
        spent.push(own.spent())?;
    }
    Ok(spent)
}

/// Whether each worker has spent so many turns.
fn are_all_spent(turns: &[Turns], number: u64) -> bool
    ensures { MatchBool result (All (λ t. t.spent ≡ number) turns.now) (All (λ t. t.spent ≡ number) turns.now → ⊥) }
{
    turns.iter().all(|own| own.spent() == number)
}

fn outcome_for(gap: i64, asked: i64, resolution: i64, was_full: bool, all_spent: bool) -> Outcome
    ensures { IsOutcomeFor gap asked resolution was_full (all_spent ≡ true) result }
{
    if gap <= asked {
        Outcome::Closed
    } else if gap <= resolution {
        Outcome::Settled
    } else if was_full {
        Outcome::Full
    } else if all_spent {
        Outcome::Spent
    } else {
        Outcome::Stopped
    }
}
