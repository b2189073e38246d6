//! Tables of what a step reads, and of its cells.

ghost use Rattle.std.specs.Prelude.{◌≡◌, ◌*◌, ◌≤◌, All, length, vec_len};
ghost use Rattle.sums.specs.declared.TheConstants.{MOST_BOUND, MOST_MOVES};
ghost use Rattle.matrix_game.specs.Grid.{IsSmallCell};
ghost use Rattle.restricted_game.specs.Sizes.{IsSmallEnclosure};

use bounds_board::Enclosure;
use sim_game::Side;

/// The bounds at the states after pairs of moves, one place a draw, pair by pair, row by row; places that were not read
/// have zeros.
#[derive(Drop)]
pub(crate) struct StageTable {
    /// How many moves One has.
    pub(crate) height: u32,
    /// How many moves Two has.
    pub(crate) width: u32,
    /// How many draws a pair has room for.
    pub(crate) stride: u32,
    pub(crate) enclosures: Vec<Enclosure>,
    ghost room: { vec_len enclosures ≡ height * width * stride },
    ghost small: { All IsSmallEnclosure enclosures.items },
}

/// The cells of all pairs of moves, row by row, in millionths of a payoff to One.
#[derive(Drop)]
pub(crate) struct StageCells {
    /// How many moves One has.
    pub(crate) height: u32,
    /// How many moves Two has.
    pub(crate) width: u32,
    pub(crate) items: Vec<i64>,
    ghost some_row: { 1 ≤ height },
    ghost few_rows: { height ≤ MOST_MOVES },
    ghost some_col: { 1 ≤ width },
    ghost few_cols: { width ≤ MOST_MOVES },
    ghost all: { length items.items ≡ height * width },
    ghost small: { All IsSmallCell items.items },
}

/// The numbers that a stage is made of: what was read of the states after held moves, and the cells of each side.
#[derive(Drop)]
pub struct StageNumbers {
    pub(crate) table: StageTable,
    /// One's cells.
    pub(crate) lows: StageCells,
    /// Two's cells.
    pub(crate) highs: StageCells,
}

impl StageTable {
    ghost use Rattle.std.specs.Prelude.{◌≡◌, ◌<◌, ◌≤◌, unsigned_abs};
    ghost use Rattle.bounds_board.specs.Views.{bound_in};
    ghost use Rattle.restricted_game.specs.Tables.{enclosure_in};

    /// The bound of a side at a draw after a pair of moves, in millionths.
    pub(crate) fn number(&self, side: Side, one: u32, two: u32, draw: u32) -> i64
        requires few_rows { self.now.height ≤ MOST_MOVES }
        requires few_cols { self.now.width ≤ MOST_MOVES }
        requires few_draws { self.now.stride ≤ 13 }
        requires one { one < self.now.height }
        requires two { two < self.now.width }
        requires draw { draw < self.now.stride }
        ensures value { result ≡ bound_in side (enclosure_in self.now one two draw) }
        ensures small { unsigned_abs result ≤ MOST_BOUND }
    {
        let pair = one as usize * self.width as usize + two as usize;
        self.enclosures[pair * self.stride as usize + draw as usize].of(side)
    }
}
