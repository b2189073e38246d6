//! The game on the held moves.
ghost use Rattle.std.specs.Prelude.{◌≡◌, ◌↔◌, ◌≤◌, ◌<◌, IfOk, OnOk, OnErr};
ghost use Rattle.sums.specs.declared.TheConstants.{MOST_WEIGHT};
ghost use Rattle.matrix_game.specs.Budget.{left_of, after_one_turn};
ghost use Rattle.matrix_game.specs.Solvers.{UsesRegret};
ghost use Rattle.restricted_game.specs.Held.{AreMoves};
ghost use Rattle.restricted_game.specs.Runs.{IsHeldStage};
ghost use Rattle.restricted_game.specs.Tables.{held_grid};

use crate::cells::held_cells;
use crate::table::StageCells;
use matrix_game::{Matrix, StageError, StagePlans, StageSolver, Turns};
use sim_game::NoMemory;
use std::alloc::Global;

/// Solves the game on the held moves, for one turn; out of memory takes none.
pub(crate) fn solve_held(
    alloc: Global,
    cells: &StageCells,
    rows: &[u32],
    cols: &[u32],
    total: u32,
    turns: &mut Turns,
    solver: &mut StageSolver,
) -> Result<StagePlans, NoMemory>
    requires rows { AreMoves cells.now.height rows.now }
    requires cols { AreMoves cells.now.width cols.now }
    requires some { 1 ≤ total }
    requires light { total ≤ MOST_WEIGHT }
    requires left { 0 < left_of turns.old }
    ensures stage { IfOk result (λ plans. IsHeldStage solver.old total
        (held_grid cells.now.items.items cells.now.width rows.now cols.now) plans.p plans.v) }
    ensures ok { OnOk result (turns.new ≡ after_one_turn turns.old) }
    ensures err { OnErr result (turns.new ≡ turns.old) }
    ensures kind { UsesRegret solver.new ↔ UsesRegret solver.old }
{
    let held = held_cells(alloc, cells, rows, cols)?;
    match Matrix::new(rows.len() as u32, cols.len() as u32, held) {
        Ok(matrix) => match solver.solve(alloc, &matrix, total, turns) {
            Ok(plans) => Ok(plans),
            Err(StageError::NoMemory) => Err(NoMemory),
            Err(StageError::Spent) => unreachable!(),
        },
        Err(_) => unreachable!(),
    }
}
