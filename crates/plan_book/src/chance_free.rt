//! Games without draws.

ghost use Rattle.std.specs.Prelude.{IsTrue};
ghost use Rattle.plan_book.specs.ChanceFree.{HasNoDraws};

use sim_game::Game;

/// Where each pair of moves has one draw, states, trees, plans, sums, guarantees, steps, values, backed bounds, lawful
/// sheets and the resolution are those of a game in which one state follows a move of each side.
pub fn chance_free_games<G: Game>(_g: &G)
    requires { IsTrue (G.model _g.now).chance_free }
    ensures { HasNoDraws (G.model _g.now) }
{}
