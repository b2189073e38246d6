//! BothPlans of a side, and the better of two.

ghost use Rattle.std.specs.Prelude.{◌≡◌, ◌≤◌, ◌⊎◌};
ghost use Rattle.sim_game.specs.Sides.{IsNoTighter};

use plan_book::Sheet;
use sim_game::Side;

/// A plan of a side, and the bound that it guarantees, in millionths of a payoff.
#[derive(Drop)]
pub(crate) struct Plan {
    pub sheet: Sheet,
    pub bound: i64,
}

/// A plan of each side.
#[derive(Drop)]
pub(crate) struct BothPlans {
    pub one: Plan,
    pub two: Plan,
}

impl Plan {
    /// The better of two plans of a side, this one where both guarantee as much.
    pub(crate) fn better(self, side: Side, other: Plan) -> Plan
        ensures either { (result ≡ self) ⊎ (result ≡ other) }
        ensures own { IsNoTighter side self.bound result.bound }
        ensures others { IsNoTighter side other.bound result.bound }
    {
        if side.is_tighter(other.bound, self.bound) {
            other
        } else {
            self
        }
    }
}
