//! What a side makes of its weights on the held moves.
ghost use Rattle.std.specs.Prelude.{◌≡◌, ◌↔◌, ◌≤◌, ◌<◌, ◌⊎◌, All, length, IfOk, OnOk, OnErr};
ghost use Rattle.sums.specs.declared.TheConstants.{MOST_WEIGHT};
ghost use Rattle.sim_game.specs.Model.{Reachable};
ghost use Rattle.sim_game.specs.Sides.{move_of_one, move_of_two};
ghost use Rattle.matrix_game.specs.Budget.{left_of, after_one_turn};
ghost use Rattle.matrix_game.specs.Solvers.{UsesRegret};
ghost use Rattle.matrix_game.specs.Rounds.{IsWeighted};
ghost use Rattle.best_reply.specs.Replies.{IsBestReply, worth_in};
ghost use Rattle.restricted_game.specs.Held.{AreMoves};
ghost use Rattle.restricted_game.specs.Runs.{IsSpreadOver};
ghost use Rattle.restricted_game.specs.Stages.{HasCells};
ghost use Rattle.restricted_game.specs.Tables.{ArePlans, IsCellPlan};

use crate::held::Restricted;
use crate::stage::solve_held;
use crate::table::{StageCells, StageNumbers};
use best_reply::{BestReply, reply_one, reply_two};
use matrix_game::{StageSolver, Turns};
use sim_game::{Game, NoMemory, Side};
use std::alloc::Global;

/// The weights of held moves at the indices of their moves among all, and 0 elsewhere.
fn spread(alloc: Global, held: &[u32], weights: &[u32], moves: u32) -> Result<Vec<u32>, NoMemory>
    requires held { AreMoves moves held.now }
    requires weights { length weights.now ≡ length held.now }
    ensures { IfOk result (λ full. IsSpreadOver moves held.now weights.now full.items) }
{
    let mut full = vec![in alloc; 0u32; moves as usize]?;
    for i in 0..held.len() {
        full[held[i] as usize] = weights[i];
    }
    Ok(full)
}

/// The best reply of the other side to the weights of all own moves.
fn reply_to(side: Side, cells: &StageCells, weights: &[u32], held: &[u32]) -> BestReply
    requires weights { length weights.now ≡ move_of_one side cells.now.height cells.now.width }
    requires light { All (λ weight. weight ≤ MOST_WEIGHT) weights.now }
    requires held { All (λ move. move < move_of_two side cells.now.height cells.now.width) held.now }
    ensures { IsBestReply side (worth_in side cells.now.items.items cells.now.width weights.now)
        (move_of_two side cells.now.height cells.now.width) held.now result.place result.sum result.fresh }
{
    let items = cells.items.as_slice();
    match side {
        Side::One => reply_two(items, cells.width, weights, held),
        Side::Two => reply_one(items, cells.width, weights, held),
    }
}

/// A side's plan over all its moves.
#[derive(Drop)]
pub(crate) struct SidePlan {
    /// What the weights prove against every reply, in millionths.
    pub(crate) bound: i64,
    /// The best reply to the weights, where it is not held.
    pub(crate) fresh: Option<u32>,
    /// One weight for each own move.
    pub(crate) weights: Vec<u32>,
}

/// Plans by the weights of the held moves, over the cells of the side.
pub(crate) fn plan_side(
    alloc: Global,
    side: Side,
    total: u32,
    cells: &StageCells,
    own: &[u32],
    others: &[u32],
    weights: &[u32],
) -> Result<SidePlan, NoMemory>
    requires own { AreMoves (move_of_one side cells.now.height cells.now.width) own.now }
    requires others { AreMoves (move_of_two side cells.now.height cells.now.width) others.now }
    requires weights { IsWeighted (length own.now) total weights.now }
    requires some { 1 ≤ total }
    requires light { total ≤ MOST_WEIGHT }
    ensures { IfOk result (IsCellPlan side total cells.now own.now others.now weights.now) }
{
    let moves = side.move_of_one(cells.height, cells.width);
    let plan = spread(alloc, own, weights, moves)?;
    let reply = reply_to(side, cells, &plan, others);
    Ok(SidePlan {
        bound: side.quotient(reply.sum, total),
        fresh: reply.fresh.then_some(reply.place),
        weights: plan,
    })
}

/// The plans of both sides.
#[derive(Drop)]
pub(crate) struct Plans {
    pub(crate) one: SidePlan,
    pub(crate) two: SidePlan,
}

impl Restricted {
    /// Plans for both sides over these numbers, by the weights that solve the game on the held moves: for one turn,
    /// which out of memory may take as well.
    pub(crate) fn plan<G: Game>(
        &self,
        g: G,
        s: G::State,
        total: u32,
        numbers: &StageNumbers,
        turns: &mut Turns,
        solver: &mut StageSolver,
    ) -> Result<Plans, NoMemory>
        requires cells { HasCells (G.model g) s numbers.now }
        requires rows { self.now.most_rows ≡ (G.model g).moves Side.One s }
        requires cols { self.now.most_cols ≡ (G.model g).moves Side.Two s }
        requires some { 1 ≤ total }
        requires light { total ≤ MOST_WEIGHT }
        requires left { 0 < left_of turns.old }
        ensures plans { IfOk result
            (ArePlans (G.model g) solver.old s total self.now.rows self.now.cols numbers.now.table) }
        ensures ok { OnOk result (turns.new ≡ after_one_turn turns.old) }
        ensures err { OnErr result ((turns.new ≡ turns.old) ⊎ (turns.new ≡ after_one_turn turns.old)) }
        ensures kind { UsesRegret solver.new ↔ UsesRegret solver.old }
    {
        let alloc = *numbers.table.enclosures.allocator();
        let rows = self.rows();
        let cols = self.cols();
        let StageNumbers { lows, highs, .. } = numbers;
        let stage = solve_held(alloc, lows, rows, cols, total, turns, solver)?;
        let p = stage.p.as_slice();
        let v = stage.v.as_slice();
        let one = plan_side(alloc, Side::One, total, lows, rows, cols, p)?;
        let two = plan_side(alloc, Side::Two, total, highs, cols, rows, v)?;
        Ok(Plans { one, two })
    }
}
