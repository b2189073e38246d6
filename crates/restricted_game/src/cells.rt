//! The cells of pairs of moves.
ghost use Rattle.std.specs.Prelude.{◌≡◌, ◌*◌, ◌≤◌, ◌<◌, All, length, IfOk};
ghost use Rattle.matrix_game.specs.Grid.{IsSmallCell};
ghost use Rattle.restricted_game.specs.Held.{AreMoves};
ghost use Rattle.restricted_game.specs.Stages.{HasCells};
ghost use Rattle.restricted_game.specs.Tables.{AreCells, IsAtTable, pair_cell, held_cells};

use crate::buffers::{StageBuffers, emptied};
use crate::table::{StageCells, StageNumbers, StageTable};
use sim_game::{CHANCE, Game, NoMemory, Side};
use std::alloc::Global;
use sums::weighted;

/// The cell of a side at a pair of moves, in millionths: the mean of its numbers at the draws, rounded so that it says
/// no more for the side.
fn pair_cell<G: Game>(g: G, s: G::State, side: Side, one: u32, two: u32, table: &StageTable) -> i64
    requires here { IsAtTable (G.model g) s table.now }
    requires one { one < (G.model g).moves Side.One s }
    requires two { two < (G.model g).moves Side.Two s }
    ensures value { result ≡ pair_cell (G.model g) side s table.now one two }
    ensures small { IsSmallCell result }
{
    let mut sum = 0;
    for draw in 0..g.draws(s, one, two) {
        let chance = g.chance(s, one, two, draw);
        sum += weighted(chance, table.number(side, one, two, draw));
    }
    side.quotient(sum, CHANCE)
}

/// The cells of all pairs of moves, in this list, which it takes.
fn cells_of<G: Game>(
    g: G,
    s: G::State,
    side: Side,
    table: &StageTable,
    list: &mut Vec<i64>,
) -> Result<StageCells, NoMemory>
    requires here { IsAtTable (G.model g) s table.now }
    ensures { IfOk result (AreCells (G.model g) side s table.now) }
{
    let pairs = table.height * table.width;
    let mut items = emptied(list);
    items.reserve(pairs as usize)?;
    for pair in 0..pairs {
        let one = pair / table.width;
        let two = pair % table.width;
        items.push(pair_cell(g, s, side, one, two, table))?;
    }
    Ok(StageCells {
        height: table.height,
        width: table.width,
        items,
    })
}

/// The cells of held moves, row by row in order of addition.
pub(crate) fn held_cells(
    alloc: Global,
    cells: &StageCells,
    rows: &[u32],
    cols: &[u32],
) -> Result<Vec<i64>, NoMemory>
    requires rows { AreMoves cells.now.height rows.now }
    requires cols { AreMoves cells.now.width cols.now }
    ensures cells { IfOk result (λ held. held.items
        ≡ held_cells cells.now.items.items cells.now.width rows.now cols.now) }
    ensures small { IfOk result (λ held. All IsSmallCell held.items) }
{
    let items = cells.items.as_slice();
    let count = cols.len();
    let mut held = Vec::with_capacity(alloc, rows.len() * count)?;
    for place in 0..rows.len() * count {
        let row = rows[place / count] as usize;
        let col = cols[place % count] as usize;
        held.push(items[row * cells.width as usize + col])?;
    }
    Ok(held)
}

/// What was read, with the cells of both sides, in the lists of the buffers, which it takes.
pub(crate) fn numbers_of<G: Game>(
    g: G,
    s: G::State,
    table: StageTable,
    buffers: &mut StageBuffers,
) -> Result<StageNumbers, NoMemory>
    requires here { IsAtTable (G.model g) s table }
    ensures table { IfOk result (λ numbers. numbers.table ≡ table) }
    ensures cells { IfOk result (HasCells (G.model g) s) }
{
    let lows = cells_of(g, s, Side::One, &table, &mut buffers.lows)?;
    let highs = cells_of(g, s, Side::Two, &table, &mut buffers.highs)?;
    Ok(StageNumbers { table, lows, highs })
}
