//! Reads of the states after held moves.
ghost use Rattle.std.specs.Prelude.{◌≡◌, ◌≤◌, ◌<◌, ◌+ℤ◌, IfOk, OnErr, MatchBool, Err, unsigned_abs};
ghost use Rattle.std.specs.List.{Contains};
ghost use Rattle.sums.specs.declared.TheConstants.{MOST_REWARD};
ghost use Rattle.bounds_board.specs.Views.{IsLater, WasFull, bound_in};
ghost use Rattle.sim_game.specs.declared.Side.{Side};
ghost use Rattle.restricted_game.specs.Nodes.{IsAtChildRows, IsAtStateRow, HasOnlyRead};
ghost use Rattle.restricted_game.specs.Numbers.{AreRead, AreTurnRead, IsWanted, IsReadChild};
ghost use Rattle.restricted_game.specs.Sizes.{IsSmallEnclosure};
ghost use Rattle.restricted_game.specs.Tables.{HasShape, IsFilled};

use crate::buffers::{StageBuffers, filled};
use crate::children::ChildRows;
use crate::table::StageTable;
use bounds_board::{BoardFault, Bounds, Enclosure, Full, Row, known_bounds};
use sim_game::{Game, Side, end_bound, turn_reward};

/// Whether a move is held. If all moves are, each is in the place of its number, so that place is looked at first.
fn is_held(held: &[u32], own: u32) -> bool
    ensures { MatchBool result (Contains held.now own) (Contains held.now own → ⊥) }
{
    if (own as usize) < held.len() && held[own as usize] == own {
        return true;
    }
    held.contains(&own)
}

/// Whether a step reads what follows a pair of moves.
fn is_wanted(rows: &[u32], cols: &[u32], one: u32, two: u32) -> bool
    ensures { MatchBool result (IsWanted rows.now cols.now one two) (IsWanted rows.now cols.now one two → ⊥) }
{
    is_held(rows, one) || is_held(cols, two)
}

/// A draw after a pair of moves.
#[derive(Clone, Copy)]
struct Draw {
    one: u32,
    two: u32,
    draw: u32,
}

/// The bounds known of a state: the payoff of an end, which has no row, else those of its row or of its range.
fn read_state<G: Game, B: Bounds<G>>(
    g: G,
    t: G::State,
    row: Option<Row>,
    board: &mut B,
) -> Enclosure
    requires here { IsAtStateRow (G.model g) g (B.view board.old) t row }
    ensures later { IsLater (B.view board.old) (B.view board.new) }
    ensures entries { (B.view board.new).entries ≡ (B.view board.old).entries }
    ensures read { AreRead (G.model g) (B.view board.old) (B.view board.new) t result }
    ensures small { IsSmallEnclosure result }
{
    match row {
        Some(row) => known_bounds(g, t, row, board),
        None => {
            let payoff = end_bound(g, t);
            Enclosure {
                lower: payoff,
                upper: payoff,
            }
        }
    }
}

/// Both bounds, with the reward of the turn that leads to them.
fn with_reward(read: Enclosure, reward: i64) -> Enclosure
    requires small { IsSmallEnclosure read }
    requires reward { unsigned_abs reward ≤ MOST_REWARD }
    ensures { (side : Side) → bound_in side result ≡ reward +ℤ bound_in side read }
{
    Enclosure {
        lower: reward + read.lower,
        upper: reward + read.upper,
    }
}

/// The numbers of a turn, read anew where one of the moves is held and there is such a draw: its reward, with the bounds
/// at the state that follows. Elsewhere zeros.
fn read_child<G: Game, B: Bounds<G>>(
    g: G,
    s: G::State,
    rows: &[u32],
    cols: &[u32],
    at: Draw,
    children: &mut ChildRows,
    board: &mut B,
) -> Result<Enclosure, Full>
    requires here { IsAtChildRows (G.model g) g (B.view board.old) s children.old }
    requires one { at.one < (G.model g).moves Side.One s }
    requires two { at.two < (G.model g).moves Side.Two s }
    ensures board { HasOnlyRead (G.model g) (B.view board.old) (B.view board.new) s children.new }
    ensures read { IfOk result (λ e. IsWanted rows.now cols.now at.one at.two
        → at.draw < (G.model g).draws s at.one at.two
        → AreTurnRead (G.model g) (B.view board.old) (B.view board.new) s at.one at.two at.draw e) }
    ensures small { IfOk result IsSmallEnclosure }
    ensures full { OnErr result (WasFull (G.model g) (B.view board.new) (IsReadChild (G.model g) s rows.now cols.now)) }
{
    let zeros = Enclosure { lower: 0, upper: 0 };
    let Draw { one, two, draw } = at;
    if !is_wanted(rows, cols, one, two) {
        return Ok(zeros);
    }
    if draw >= g.draws(s, one, two) {
        return Ok(zeros);
    }
    match children.claim(g, s, one, two, draw, board) {
        Ok(row) => {
            let read = read_state(g, g.drawn(s, one, two, draw), row, board);
            Ok(with_reward(read, turn_reward(g, s, one, two, draw)))
        }
        Err(full) => Err(full),
    }
}

/// Reads what follows each pair of moves of which at least one is held, into the list of the buffers, which it takes.
/// Full comes where a claim was full.
pub(crate) fn read_table<G: Game, B: Bounds<G>>(
    g: G,
    s: G::State,
    rows: &[u32],
    cols: &[u32],
    children: &mut ChildRows,
    board: &mut B,
    buffers: &mut StageBuffers,
) -> Result<StageTable, BoardFault>
    requires here { IsAtChildRows (G.model g) g (B.view board.old) s children.old }
    ensures board { HasOnlyRead (G.model g) (B.view board.old) (B.view board.new) s children.new }
    ensures shape { IfOk result (HasShape (G.model g) s) }
    ensures filled { IfOk result (IsFilled (G.model g) (B.view board.old) (B.view board.new) s rows.now cols.now) }
    ensures full { result ≡ Err BoardFault.Full
        → WasFull (G.model g) (B.view board.new) (IsReadChild (G.model g) s rows.now cols.now) }
{
    let height = g.moves(Side::One, s);
    let width = g.moves(Side::Two, s);
    let stride = children.stride();
    let zeros = Enclosure { lower: 0, upper: 0 };
    let places = (height * width * stride) as usize;
    let Ok(mut enclosures) = filled(&mut buffers.enclosures, places, zeros) else {
        return Err(BoardFault::NoMemory);
    };
    for place in 0..height * width * stride {
        let one = place / stride / width;
        let two = place / stride % width;
        let draw = place % stride;
        match read_child(g, s, rows, cols, Draw { one, two, draw }, children, board) {
            Ok(found) => enclosures[place as usize] = found,
            Err(_) => {
                buffers.enclosures = enclosures;
                return Err(BoardFault::Full);
            }
        }
    }
    Ok(StageTable {
        height,
        width,
        stride,
        enclosures,
    })
}
