//! The six lists of a table, and a cell.

ghost use Rattle.std.specs.Prelude.{◌<◌, ◌^◌, length};

/// What a position holds, in six lists; everything is numbered from 0. No number of `ranks`, `moves` and `draws` of a
/// position is below 0: they are read without their sign.
#[derive(Clone, Copy, PartialEq, Eq, Debug)]
pub struct Setting<'a> {
    /// Of each state: 0 for an end, else the turns of the longest way to one.
    pub ranks: &'a [i32],
    /// Of each state One's moves, then Two's; 0 and 0 for an end.
    pub moves: &'a [i32],
    /// Of each state the payoff, where it is an end, else the place of its first cell.
    pub values: &'a [i32],
    /// The cells of all states, state by state and row by row: the state that follows, or -1 - d where d is the number
    /// of the cell's first draw.
    pub cells: &'a [i32],
    /// Of each draw the state and the weight.
    pub draws: &'a [i32],
    /// Of each draw what One gets by it; empty where no turn pays.
    pub rewards: &'a [i32],
    ghost few_states: { length ranks.now < 2 ^ 31 },
    ghost few_cells: { length cells.now < 2 ^ 31 },
    ghost few_draws: { length draws.now < 2 ^ 31 },
}

/// A cell: the state that follows, or the number of its first draw.
#[derive(Clone, Copy, PartialEq, Eq, Debug)]
pub(crate) enum Cell {
    State(u32),
    Draws(u32),
}
