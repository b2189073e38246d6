//! States at which nothing is left to decide.

ghost use Rattle.std.specs.Prelude.{MatchBool};
ghost use Rattle.sim_game.specs.Model.{Reachable};
ghost use Rattle.induction.specs.Undecided.{IsUndecided};

use sim_game::Game;

/// Whether the state is an end, or what One can still get from it on is certain.
pub(crate) fn is_decided<G: Game>(g: G, s: G::State) -> bool
    requires { Reachable (G.model g) s }
    ensures { MatchBool result (IsUndecided (G.model g) s → ⊥) (IsUndecided (G.model g) s) }
{
    g.rank(s) == 0 || g.least(s) >= g.most(s)
}
