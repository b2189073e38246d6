//! What single moves prove.
ghost use Rattle.std.specs.Prelude.{◌<◌};
ghost use Rattle.std.specs.List.{Contains};
ghost use Rattle.sim_game.specs.Sides.{move_of_one, move_of_two};
ghost use Rattle.restricted_game.specs.Held.{AreMoves};

use crate::table::StageCells;
use sim_game::Side;

/// The cell of an own move against a reply.
fn cell_of(side: Side, cells: &StageCells, own: u32, reply: u32) -> i64
    requires own { own < move_of_one side cells.now.height cells.now.width }
    requires reply { reply < move_of_two side cells.now.height cells.now.width }
{
    let items = cells.items.as_slice();
    match side {
        Side::One => items[own as usize * cells.width as usize + reply as usize],
        Side::Two => items[reply as usize * cells.width as usize + own as usize],
    }
}

/// What an own move proves: the least of its cells for the side.
fn floor_of(side: Side, cells: &StageCells, own: u32) -> i64
    requires own { own < move_of_one side cells.now.height cells.now.width }
{
    let mut floor = cell_of(side, cells, own, 0);
    for reply in 1..side.move_of_two(cells.height, cells.width) {
        let cell = cell_of(side, cells, own, reply);
        if side.is_tighter(floor, cell) {
            floor = cell;
        }
    }
    floor
}

/// A move, and what it proves alone, in millionths.
#[derive(Clone, Copy)]
pub(crate) struct Alone {
    pub(crate) place: u32,
    pub(crate) floor: i64,
}

/// The first of the held moves that prove most.
pub(crate) fn best_alone(side: Side, cells: &StageCells, held: &[u32]) -> Alone
    requires held { AreMoves (move_of_one side cells.now.height cells.now.width) held.now }
    ensures { Contains held.now result.place }
{
    let mut place = held[0];
    let mut floor = floor_of(side, cells, place);
    for i in 1..held.len() {
        let other = floor_of(side, cells, held[i]);
        if side.is_tighter(other, floor) {
            place = held[i];
            floor = other;
        }
    }
    Alone { place, floor }
}
