//! Posts of what the plans prove.
ghost use Rattle.std.specs.Prelude.{◌≡◌, ◌⊎◌, OnOk};
ghost use Rattle.sim_game.specs.Model.{Reachable};
ghost use Rattle.sim_game.specs.Sides.{IsNoTighter};
ghost use Rattle.plan_book.specs.Books.{Grows};
ghost use Rattle.bounds_board.specs.Views.{IsPostable, known_bound};
ghost use Rattle.restricted_game.specs.Nodes.{IsAtNode, IsBetter};
ghost use Rattle.restricted_game.specs.Runs.{IsPosted};
ghost use Rattle.restricted_game.specs.Tables.{side_entry, ArePosted};

use crate::node::Node;
use crate::plans::{Plans, SidePlan};
use bounds_board::{Bounds, known_bounds};
use plan_book::Entry;
use seq::Seq;
use sim_game::{Game, NoMemory, Side};

/// The entry of a side's plan.
fn entry_of<G: Game>(g: G, s: G::State, side: Side, plan: SidePlan) -> Entry
    requires { Reachable (G.model g) s }
    ensures { result ≡ side_entry (G.model g) side s plan }
{
    Entry {
        key: g.key(s),
        side,
        bound: plan.bound,
        weights: Seq::from_vec(plan.weights),
    }
}

/// Posts the bound of a side's plan, where it is tighter than what is known of the state.
fn post_plan<G: Game, B: Bounds<G>>(
    g: G,
    node: Node<G::State>,
    side: Side,
    plan: SidePlan,
    board: &mut B,
) -> Result<(), NoMemory>
    requires here { IsAtNode (G.model g) g (B.view board.old) node.state node.row }
    requires entry { IsPostable (G.model g) (B.view board.old) (side_entry (G.model g) side node.state plan) }
    ensures better { IsBetter (G.model g) (B.view board.old) (B.view board.new) }
    ensures posted { OnOk result (IsPosted (B.view board.old) (side_entry (G.model g) side node.state plan)
        (B.view board.old).entries (B.view board.new).entries) }
    ensures only { Grows (λ e. e ≡ side_entry (G.model g) side node.state plan)
        (B.view board.old).entries (B.view board.new).entries }
    ensures known { OnOk result (IsNoTighter side plan.bound
        (known_bound (G.model g) (B.view board.new) side node.state)) }
{
    let known = known_bounds(g, node.state, node.row, board).of(side);
    if !side.is_tighter(plan.bound, known) {
        return Ok(());
    }
    match board.post(node.row, entry_of(g, node.state, side, plan)) {
        Ok(()) => Ok(()),
        Err(_) => Err(NoMemory),
    }
}

/// Posts the bounds of both plans, One's first.
pub(crate) fn post_both<G: Game, B: Bounds<G>>(
    g: G,
    node: Node<G::State>,
    plans: Plans,
    board: &mut B,
) -> Result<(), NoMemory>
    requires here { IsAtNode (G.model g) g (B.view board.old) node.state node.row }
    requires one { IsPostable (G.model g) (B.view board.old) (side_entry (G.model g) Side.One node.state plans.one) }
    requires two { IsPostable (G.model g) (B.view board.old) (side_entry (G.model g) Side.Two node.state plans.two) }
    ensures better { IsBetter (G.model g) (B.view board.old) (B.view board.new) }
    ensures posted { OnOk result (ArePosted (G.model g) (B.view board.old) (B.view board.new) node.state plans) }
    ensures only { Grows (λ e. e ≡ side_entry (G.model g) Side.One node.state plans.one
        ⊎ e ≡ side_entry (G.model g) Side.Two node.state plans.two)
        (B.view board.old).entries (B.view board.new).entries }
{
    let Plans { one, two } = plans;
    post_plan(g, node, Side::One, one, board)?;
    post_plan(g, node, Side::Two, two, board)?;
    Ok(())
}
