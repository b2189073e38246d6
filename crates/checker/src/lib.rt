//! A check of a report that trusts no solver.
#![tactic(auto)]

ghost use Rattle.std.specs.Prelude.{◌≡◌, IfOk, MatchOption};
ghost use Rattle.certificate.specs.Ranges.{IsInRange};
ghost use Rattle.plan_book.specs.Expected.{Guarantees};
ghost use Rattle.plan_book.specs.Sheets.{plan_of};
ghost use Rattle.checker.specs.declared.verdict.Verdict.{Verdict};
ghost use Rattle.checker.specs.Verdicts.{HasRightNumbers, IsNumberFault, IsRight, IsVerdict};

mod places;
mod reach;
mod rows;
mod verdict;
mod worth;

use crate::rows::first_fault;
pub use crate::verdict::{Verdict, Why};
use certificate::Report;
use plan_book::{bound_of, sheet_guarantees};
use sim_game::{Game, NoMemory, Side, resolution};
use std::alloc::Global;

/// Accepts a report exactly where both sheets are lawful, its bounds are theirs at the root, its resolution is the
/// game's and its outcome is one that its numbers allow. Else it names what is wrong first: in the rows of One by
/// rising key, in those of Two, at the root of One, at that of Two, in the resolution, in the outcome; of a row
/// `Idle`, `Weights`, `Outside`, `Bound`. `NoMemory` comes for want of memory alone.
pub fn check<G: Game>(alloc: Global, g: G, r: &Report) -> Result<Verdict, NoMemory>
    requires { IsInRange r.now }
    ensures { IfOk result (IsVerdict (G.model g) r.now) }
{
    if let Some(why) = first_fault(alloc, g, &r.one)? {
        return Ok(Verdict::Refused(why));
    }
    if let Some(why) = first_fault(alloc, g, &r.two)? {
        return Ok(Verdict::Refused(why));
    }
    match number_fault(g, r) {
        Some(why) => Ok(Verdict::Refused(why)),
        None => Ok(Verdict::Accepted),
    }
}

/// What is wrong with the report beside the rows of its sheets.
fn number_fault<G: Game>(g: G, r: &Report) -> Option<Why>
    requires { IsInRange r.now }
    ensures { MatchOption result (HasRightNumbers (G.model g) r.now) (IsNumberFault (G.model g) r.now) }
{
    let root = g.root();
    let lower = bound_of(g, &r.one, root);
    if r.lower != lower {
        return Some(Why::Root { side: Side::One });
    }
    let upper = bound_of(g, &r.two, root);
    if r.upper != upper {
        return Some(Why::Root { side: Side::Two });
    }
    let want = resolution(g, r.weight);
    if r.resolution != want {
        return Some(Why::ResolutionWrong { want });
    }
    if !r.is_allowed() {
        return Some(Why::OutcomeWrong);
    }
    None
}

/// A report has at most one verdict: it is accepted where it is right, and else refused for what is wrong first.
pub fn one_verdict<G: Game>(_g: &G, _r: &Report)
    ensures { (v w : Verdict) → IsVerdict (G.model _g.now) _r.now v → IsVerdict (G.model _g.now) _r.now w → v ≡ w }
{}

/// The sheets of a report that is accepted guarantee its two bounds, each against every plan of the other side.
pub fn accepted_guarantees<G: Game>(g: &G, r: &Report)
    requires in_range { IsInRange r.now }
    requires right { IsRight (G.model g.now) r.now }
    ensures lower { Guarantees (G.model g.now) Side.One (plan_of r.now.one) r.now.lower }
    ensures upper { Guarantees (G.model g.now) Side.Two (plan_of r.now.two) r.now.upper }
{
    sheet_guarantees(g, &r.one);
    sheet_guarantees(g, &r.two);
}
