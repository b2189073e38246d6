//! The states that follow a state by the moves that weights play.

ghost use Rattle.std.specs.Prelude.{◌≡◌, ◌<◌, ◌++◌, IfOk, slice_index};
ghost use Rattle.sim_game.specs.Model.{Reachable};
ghost use Rattle.sim_game.specs.Sides.{other_side};
ghost use Rattle.plan_book.specs.Children.{children_of_pair, children_of_move, children_of};

use sim_game::{Game, NoMemory, Side};
use std::alloc::Global;

/// The states after each own move of positive weight, each reply and each draw, in this order. Any weights do: a
/// move that has none has weight 0, and weights beyond the moves count nothing.
pub fn children<G: Game>(
    alloc: Global,
    g: G,
    side: Side,
    weights: &[u32],
    s: G::State,
) -> Result<Vec<G::State>, NoMemory>
    requires { Reachable (G.model g) s }
    ensures { IfOk result (λ children. children.items ≡ children_of (G.model g) side weights.now s) }
{
    let mut children = Vec::new(alloc);
    for own in 0..g.moves(side, s) {
        if weight_of(weights, own) > 0 {
            add_move(g, side, s, own, &mut children)?;
        }
    }
    Ok(children)
}

/// The weight of a move, which is 0 where the list has none for it.
pub fn weight_of(weights: &[u32], own: u32) -> u32
    ensures { result ≡ slice_index weights.now own }
{
    weights.get(own as usize).copied().unwrap_or(0)
}

/// Adds the states after an own move.
fn add_move<G: Game>(
    g: G,
    side: Side,
    s: G::State,
    own: u32,
    children: &mut Vec<G::State>,
) -> Result<(), NoMemory>
    requires reachable { Reachable (G.model g) s }
    requires own { own < (G.model g).moves side s }
    ensures { IfOk result (λ _. children.new.items ≡ children.old.items ++ children_of_move (G.model g) side s own) }
{
    for reply in 0..g.moves(side.other(), s) {
        add_pair(g, side, s, own, reply, children)?;
    }
    Ok(())
}

/// Adds the states after an own move and a reply.
fn add_pair<G: Game>(
    g: G,
    side: Side,
    s: G::State,
    own: u32,
    reply: u32,
    children: &mut Vec<G::State>,
) -> Result<(), NoMemory>
    requires reachable { Reachable (G.model g) s }
    requires own { own < (G.model g).moves side s }
    requires reply { reply < (G.model g).moves (other_side side) s }
    ensures { IfOk result (λ _.
        children.new.items ≡ children.old.items ++ children_of_pair (G.model g) side s own reply) }
{
    let a = side.move_of_one(own, reply);
    let b = side.move_of_two(own, reply);
    for d in 0..g.draws(s, a, b) {
        children.push(g.drawn(s, a, b, d))?;
    }
    Ok(())
}
