//! What the answers of the commands say of each other.

ghost use Rattle.std.specs.Prelude.{◌≡◌, ◌≢◌, ◌⊎◌, ◌≤◌, ℕ, Bool, List, length, Ok};
ghost use Rattle.sim_game.specs.Model.{HasAtMost};
ghost use Rattle.sim_game.specs.declared.Side.{Side};
ghost use Rattle.plan_book.specs.Serial.{tree_size};
ghost use Rattle.fields.specs.declared.ask.Ask.{Ask};
ghost use Rattle.fields.specs.declared.positions.PositionText.{PositionText};
ghost use Rattle.checker.specs.declared.verdict.Verdict.{Verdict};
ghost use Rattle.checker.specs.declared.verdict.Verdict.TheVariants.{Accepted};
ghost use Rattle.checker.specs.Verdicts.{IsVerdict};
ghost use Rattle.solution.specs.Solutions.{IsSolution};
ghost use Rattle.certificate.specs.Texts.{report_text};
ghost use Rattle.certificate.specs.declared.report.Report.{Report};
ghost use Rattle.position.specs.Position.{TaskText, position_of};
ghost use Rattle.commands.specs.Checks.{most_report, IsChecked};
ghost use Rattle.commands.specs.Measured.{IsExploited};
ghost use Rattle.commands.specs.Matches.{IsPlayedMatch};
ghost use Rattle.commands.specs.Reports.{accepted_text};
ghost use Rattle.position.specs.Games.{OfGame};
ghost use Rattle.commands.specs.Runs.{IsSolved, IsSampled};
ghost use Rattle.commands.specs.Samples.{sample_position};

use crate::sample::sample_game;
use certificate::Report;
use checker::one_verdict;
use sim_game::Game;

/// `check` has at most one answer to the bytes of a report.
#[tactic(auto, using(crate::proofs::LawLemmas::one_answer))]
pub fn check_has_one_answer()
    ensures { (bytes text other : List ℕ) (status state : ℕ) → IsChecked bytes status text → IsChecked bytes state other
        → (status ≡ state) × (text ≡ other) }
{}

/// `exploit` has at most one answer to the bytes of a report.
#[tactic(auto, using(crate::proofs::AnswerLemmas::one_exploited))]
pub fn exploit_has_one_answer()
    ensures { (side : Side) (bytes text other : List ℕ) (status state : ℕ) → IsExploited side bytes status text
        → IsExploited side bytes state other → (status ≡ state) × (text ≡ other) }
{}

/// `play` has at most one answer to the bytes of a report.
#[tactic(auto, using(crate::proofs::AnswerLemmas::one_match))]
pub fn play_has_one_answer()
    ensures { (games seed : ℕ) (bytes text other : List ℕ) (status state : ℕ)
        → IsPlayedMatch games seed bytes status text → IsPlayedMatch games seed bytes state other
        → (status ≡ state) × (text ≡ other) }
{}

/// The checker accepts each report that is a solution of its game, and has no other verdict on it.
#[tactic(auto, using(crate::proofs::LawLemmas::solution_is_right))]
pub fn solutions_are_accepted<G: Game>(g: &G, r: &Report)
    ensures accepted { (text : PositionText) (ask : Ask) (may_stop : Bool)
        → IsSolution (G.model g.now) text ask may_stop r.now → IsVerdict (G.model g.now) r.now Accepted }
    ensures only { (text : PositionText) (ask : Ask) (may_stop : Bool)
        → IsSolution (G.model g.now) text ask may_stop r.now
        → (v : Verdict) → IsVerdict (G.model g.now) r.now v → v ≡ Accepted }
{
    one_verdict(g, r);
}

/// `check` accepts each report that `solve` prints and that is not too long, and has no other answer to it. None is too
/// long where at most 1048576 rows were asked for. Of `solve`'s statuses 2 alone is that of a refusal.
#[tactic(auto, using(crate::proofs::LawLemmas::reported_accepted, crate::proofs::LawLemmas::accepted_alone))]
pub fn printed_reports_are_accepted()
    ensures accepted { (may_stop : Bool) (bytes text : List ℕ) (status : ℕ)
        → IsSolved may_stop bytes status text → status ≢ 2
        → length text ≤ most_report text
        → (r : Report) × (text ≡ report_text r) × IsChecked text 0 (accepted_text r) }
    ensures only { (may_stop : Bool) (bytes text answer : List ℕ) (status state : ℕ)
        → IsSolved may_stop bytes status text → status ≢ 2
        → length text ≤ most_report text → IsChecked text state answer → state ≡ 0 }
    ensures short { (may_stop : Bool) (bytes text : List ℕ) (status : ℕ) (task : TaskText)
        → position_of bytes ≡ Ok task → task.ask.rows ≤ 1048576 → IsSolved may_stop bytes status text → status ≢ 2
        → length text ≤ most_report text }
{}

/// The game of each sample has at most 3682 states, and 32826 nodes in its tree.
pub fn samples_are_small(number: u32)
    ensures states { OfGame (sample_position number) (λ S m. HasAtMost m 3682) }
    ensures nodes { OfGame (sample_position number) (λ S m. tree_size m m.root ≡ 32826) }
{
    sample_game(number);
}

/// `sample` has the statuses 0 and 3 alone: neither turns nor rows run out.
#[tactic(auto, using(crate::proofs::SampleLemmas::solved_status))]
pub fn samples_are_solved()
    ensures { (number status : ℕ) (text : List ℕ) → IsSampled number status text → (status ≡ 0) ⊎ (status ≡ 3) }
{}
