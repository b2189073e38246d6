//! The best reply to weights of a side.
#![tactic(auto)]

ghost use Rattle.std.specs.Prelude.{◌≡◌, ◌*◌, ◌/◌, ◌<◌, ◌≤◌, All, length, slice_index, pos, ◌*ℤ◌, unsigned_abs, IsTrue, IsFalse, MatchBool};
ghost use Rattle.std.specs.List.{Contains};
ghost use Rattle.sums.specs.declared.TheConstants.{MOST_MOVES, MOST_WEIGHT, MOST_BOUND};
ghost use Rattle.best_reply.specs.Replies.{IsPayoffTable, IsBestReply, IsBefore, IsBehind, cell_index, cell_in, worth_in};

use sim_game::Side;
use sums::weighted;

/// A reply, what the weights are worth there, and whether the reply is not held yet.
#[derive(Clone, Copy, PartialEq, Eq, Debug)]
pub struct BestReply {
    /// The number of the move, from 0.
    pub place: u32,
    /// The sum of weight times cell, in millionths, over the moves of the other side.
    pub sum: i64,
    pub fresh: bool,
}

/// The column in which the weights `p` of the rows pay least: the least held one of that sum, else the first.
/// The cells stand row by row, in millionths of a payoff to One.
pub fn reply_two(cells: &[i64], cols: u32, p: &[u32], held: &[u32]) -> BestReply
    requires some_row { 1 ≤ length p.now }
    requires few_rows { length p.now ≤ MOST_MOVES }
    requires some_col { 1 ≤ cols }
    requires few_cols { cols ≤ MOST_MOVES }
    requires cells { length cells.now ≡ length p.now * cols }
    requires small { All (λ x. unsigned_abs x ≤ MOST_BOUND) cells.now }
    requires light { All (λ x. x ≤ MOST_WEIGHT) p.now }
    requires held { All (λ x. x < cols) held.now }
    ensures { IsBestReply Side.One (worth_in Side.One cells.now cols p.now) cols
        held.now result.place result.sum result.fresh }
{
    find_reply(Side::One, cells, cols, cols, p, held)
}

/// The row in which the weights `v` of the columns pay most: the least held one of that sum, else the first.
/// The cells stand row by row, in millionths of a payoff to One.
pub fn reply_one(cells: &[i64], cols: u32, v: &[u32], held: &[u32]) -> BestReply
    requires some_col { 1 ≤ cols }
    requires few_cols { cols ≤ MOST_MOVES }
    requires weights { length v.now ≡ cols }
    requires some_row { cols ≤ length cells.now }
    requires few_rows { length cells.now ≤ MOST_MOVES * cols }
    requires cells { length cells.now / cols * cols ≡ length cells.now }
    requires small { All (λ x. unsigned_abs x ≤ MOST_BOUND) cells.now }
    requires light { All (λ x. x ≤ MOST_WEIGHT) v.now }
    requires held { All (λ x. x < length cells.now / cols) held.now }
    ensures { IsBestReply Side.Two (worth_in Side.Two cells.now cols v.now) (length cells.now / cols)
        held.now result.place result.sum result.fresh }
{
    let rows = (cells.len() / cols as usize) as u32;
    find_reply(Side::Two, cells, cols, rows, v, held)
}

// Whether the reply is not in the list.
fn is_fresh(held: &[u32], reply: u32) -> bool
    ensures old { IsFalse result → Contains held.now reply }
    ensures new { IsTrue result → Contains held.now reply → ⊥ }
{
    !held.contains(&reply)
}

// Whether a reply of this worth comes before the best one so far.
fn comes_before(side: Side, best: BestReply, sum: i64, fresh: bool) -> bool
    ensures { MatchBool result
        (IsBefore side best.sum best.fresh sum fresh)
        (IsBehind side best.sum best.fresh sum fresh) }
{
    if side.is_tighter(best.sum, sum) {
        return true;
    }
    if sum != best.sum {
        return false;
    }
    best.fresh && !fresh
}

// Where the cell of an own move and a reply stands.
fn cell_index(side: Side, cols: u32, own: u32, reply: u32) -> usize
    requires cols { cols ≤ MOST_MOVES }
    ensures { result ≡ cell_index side cols own reply }
{
    match side {
        Side::One => own as usize * cols as usize + reply as usize,
        Side::Two => reply as usize * cols as usize + own as usize,
    }
}

// What one own move adds to the worth against a reply.
fn part(
    side: Side,
    cells: &[i64],
    cols: u32,
    weights: &[u32],
    replies: u32,
    own: u32,
    reply: u32,
) -> i64
    requires table { IsPayoffTable side cells.now cols (length weights.now) replies }
    requires cols { cols ≤ MOST_MOVES }
    requires own { own < length weights.now }
    requires reply { reply < replies }
    requires light { All (λ x. x ≤ MOST_WEIGHT) weights.now }
    ensures value { result ≡ pos (slice_index weights.now own) *ℤ cell_in side cells.now cols own reply }
    ensures small { unsigned_abs result ≤ 4194304000000000 }
{
    let index = cell_index(side, cols, own, reply);
    weighted(weights[own as usize], cells[index])
}

// What the weights are worth against a reply.
fn worth(side: Side, cells: &[i64], cols: u32, replies: u32, weights: &[u32], reply: u32) -> i64
    requires table { IsPayoffTable side cells.now cols (length weights.now) replies }
    requires cols { cols ≤ MOST_MOVES }
    requires reply { reply < replies }
    requires light { All (λ x. x ≤ MOST_WEIGHT) weights.now }
    ensures { result ≡ worth_in side cells.now cols weights.now reply }
{
    let mut sum = 0;
    for own in 0..weights.len() as u32 {
        sum += part(side, cells, cols, weights, replies, own, reply);
    }
    sum
}

// The reply of least worth to the side of the weights.
fn find_reply(
    side: Side,
    cells: &[i64],
    cols: u32,
    replies: u32,
    weights: &[u32],
    held: &[u32],
) -> BestReply
    requires table { IsPayoffTable side cells.now cols (length weights.now) replies }
    requires cols { cols ≤ MOST_MOVES }
    requires some { 1 ≤ replies }
    requires light { All (λ x. x ≤ MOST_WEIGHT) weights.now }
    ensures { IsBestReply side (worth_in side cells.now cols weights.now) replies
        held.now result.place result.sum result.fresh }
{
    let mut best = BestReply {
        place: 0,
        sum: worth(side, cells, cols, replies, weights, 0),
        fresh: is_fresh(held, 0),
    };
    for reply in 1..replies {
        let sum = worth(side, cells, cols, replies, weights, reply);
        let fresh = is_fresh(held, reply);
        if comes_before(side, best, sum, fresh) {
            best = BestReply {
                place: reply,
                sum,
                fresh,
            };
        }
    }
    best
}
