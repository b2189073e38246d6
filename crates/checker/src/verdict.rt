//! What a check says of a report.

use sim_game::Side;

/// What is wrong with a report. A row is named by its sheet's side and its key. Numbers are in millionths of a payoff;
/// `sum` and `need` are these times the report's weight.
#[derive(Clone, Copy, PartialEq, Eq, Debug)]
pub enum Why {
    /// The weights of a row are not one a move, or do not sum to the report's weight.
    Weights {
        side: Side,
        key: u64,
    },
    /// The weights of a row are worth less than its bound, for Two more, against a reply; the first such.
    Bound {
        side: Side,
        key: u64,
        /// The other side's move, numbered from 0.
        reply: u32,
        /// What the weights are worth.
        sum: i64,
        /// The weight times the bound.
        need: i64,
    },
    /// The rows reach no state that has the key of a row and is no end.
    Idle {
        side: Side,
        key: u64,
    },
    /// The report's bound of a side is not that of its sheet at the root.
    Root {
        side: Side,
    },
    /// The bound of a row is beyond the range of payoffs.
    Outside {
        side: Side,
        key: u64,
    },
    /// The outcome is not one that the numbers allow.
    OutcomeWrong,
    /// The resolution is not that of the game.
    ResolutionWrong {
        /// The game's, at the report's weight.
        want: i64,
    },
}

/// What a check says.
#[derive(Clone, Copy, PartialEq, Eq, Debug)]
pub enum Verdict {
    Accepted,
    Refused(Why),
}
