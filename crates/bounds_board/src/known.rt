//! What is known of a state.
ghost use Rattle.std.specs.Prelude.{◌≡◌, Some};
ghost use Rattle.sim_game.specs.declared.Side.{Side};
ghost use Rattle.sim_game.specs.Model.{Reachable};
ghost use Rattle.sim_game.specs.Sides.{better, state_bound};
ghost use Rattle.bounds_board.specs.Views.{IsLater, IsEnclosure, bound_in, known_bound};

use crate::bounds::{Bounds, Enclosure};
use crate::row::Row;
use sim_game::{Game, Side, state_bound};

/// The better of two bounds for each side: those given, and those of every value of the state.
fn with_range<G: Game>(g: G, s: G::State, read: Enclosure) -> Enclosure
    requires { Reachable (G.model g) s }
    ensures { (side : Side) → bound_in side result ≡ better side (bound_in side read) (state_bound (G.model g) side s) }
{
    Enclosure {
        lower: Side::One.better(read.lower, state_bound(g, Side::One, s)),
        upper: Side::Two.better(read.upper, state_bound(g, Side::Two, s)),
    }
}

/// The bounds known of a state: those of its row, read anew, or those of every value of the state where they are better.
pub fn known_bounds<G: Game, B: Bounds<G>>(g: G, s: G::State, row: Row, board: &mut B) -> Enclosure
    requires game { (B.view board.old).game ≡ g }
    requires reachable { Reachable (G.model g) s }
    requires row { (B.view board.old).key_at row ≡ Some ((G.model g).key s) }
    ensures later { IsLater (B.view board.old) (B.view board.new) }
    ensures entries { (B.view board.new).entries ≡ (B.view board.old).entries }
    ensures known { (side : Side) → bound_in side result ≡ known_bound (G.model g) (B.view board.new) side s }
    ensures enclosed { IsEnclosure (G.model g) result.lower result.upper s }
{
    with_range(g, s, board.read(row))
}
