//! The rules that the numbers of a position keep, tried one by one, and its graph.
ghost use Rattle.std.specs.Prelude.{◌≡◌, ℕ, List, ◌<◌, ◌≤◌, ◌^◌, ◌*◌, ◌%◌, ◌||◌, ◌&&◌, ◌==◌, nat_le, All, IfSome, length, position, slice_index, MatchResult, None, Some};
ghost use Rattle.pursuit.specs.Edges.{is_joined, is_joined_in};
ghost use Rattle.state_key.specs.Sets.{with_number};
ghost use Rattle.pursuit.specs.Position.{edge_loop, edge_range, first_loop, most_nodes, most_rounds, place_range};
ghost use Rattle.pursuit.specs.declared.TheConstants.{MOST_NODES};
ghost use Rattle.sim_game.specs.declared.TheConstants.{MOST_TURNS};
ghost use Rattle.pursuit.specs.Rules.{graph_from, width_of};

use crate::{MOST_NODES, PursuitError};
use sim_game::{Limits, Side};

/// The most nodes of a graph.
pub(crate) fn most_nodes(limits: Limits) -> u8
    ensures is { result ≡ most_nodes limits }
    ensures small { result ≤ MOST_NODES }
{
    match limits {
        Limits::Narrow => 32,
        Limits::Wide => 64,
    }
}

/// The most rounds.
pub(crate) fn most_rounds(limits: Limits) -> u8
    ensures is { result ≡ most_rounds limits }
    ensures small { result ≤ MOST_TURNS }
{
    match limits {
        Limits::Narrow => 31,
        Limits::Wide => 63,
    }
}

/// The first place whose number is not below the bound.
fn first_past(edges: &[u8], bound: u8) -> Option<usize>
    ensures place { result ≡ position (λ node. nat_le bound node) edges.now }
    ensures within { IfSome result (λ place. place < length edges.now) }
{
    edges.iter().position(|node| *node >= bound)
}

/// Refuses an edge whose node is not below the number of nodes.
pub(crate) fn check_edges(edges: &[u8], nodes: u8) -> Result<(), PursuitError>
    requires { length edges.now < 2 ^ 31 }
    ensures { MatchResult result
        (λ _. position (λ node. nat_le nodes node) edges.now ≡ None)
        (λ fault. edge_range nodes edges.now ≡ Some fault) }
{
    match first_past(edges, nodes) {
        Some(place) => Err(PursuitError::EdgeRange {
            place: place as u32,
        }),
        None => Ok(()),
    }
}

/// Refuses an edge that joins a node with itself.
pub(crate) fn check_loops(edges: &[u8]) -> Result<(), PursuitError>
    requires { length edges.now < 2 ^ 31 }
    ensures { MatchResult result
        (λ _. first_loop edges.now ≡ None)
        (λ fault. edge_loop edges.now ≡ Some fault) }
{
    for edge in 0..edges.len() / 2 {
        let place = 2 * edge;
        if edges[place] == edges[place + 1] {
            return Err(PursuitError::EdgeLoop {
                place: place as u32,
            });
        }
    }
    Ok(())
}

/// Refuses a player whose node is not below the number of nodes.
pub(crate) fn check_places(nodes: u8, one: u8, two: u8) -> Result<(), PursuitError>
    ensures { MatchResult result
        (λ _. (one < nodes) × (two < nodes))
        (λ fault. place_range nodes one two ≡ Some fault) }
{
    if one >= nodes {
        return Err(PursuitError::PlaceRange { side: Side::One });
    }
    if two >= nodes {
        return Err(PursuitError::PlaceRange { side: Side::Two });
    }
    Ok(())
}

/// The set with one more node.
#[inline]
pub(crate) fn with_node(set: u64, node: u8) -> u64
    requires { node < MOST_NODES }
    ensures { result ≡ with_number set node }
{
    set | 1 << node
}

/// Puts `to` into the set of `from`.
fn add_arc(sets: &mut [u64; MOST_NODES], from: u8, to: u8)
    requires from { from < MOST_NODES }
    requires to { to < MOST_NODES }
    ensures count { length sets.new ≡ MOST_NODES }
    ensures added { (a b : ℕ) → is_joined_in sets.new a b ≡ (is_joined_in sets.old a b || ((from == a) && (to == b))) }
{
    sets[from as usize] = with_node(sets[from as usize], to);
}

/// The set of each node's neighbours.
pub(crate) fn neighbour_sets(edges: &[u8]) -> [u64; MOST_NODES]
    requires { All (λ node. node < MOST_NODES) edges.now }
    ensures count { length result ≡ MOST_NODES }
    ensures joined { (a b : ℕ) → is_joined_in result a b ≡ is_joined edges.now a b }
{
    let mut sets = [0; MOST_NODES];
    for edge in 0..edges.len() / 2 {
        let first = edges[2 * edge];
        let second = edges[2 * edge + 1];
        add_arc(&mut sets, first, second);
        add_arc(&mut sets, second, first);
    }
    sets
}

/// The greatest number of neighbours that a node has, and 1.
pub(crate) fn width_of(nodes: u8, sets: &[u64; MOST_NODES]) -> u32
    requires nodes { nodes ≤ MOST_NODES }
    requires within { (node : ℕ) → slice_index sets.now node < 2 ^ nodes }
    ensures { result ≡ width_of (graph_from nodes sets.now) }
{
    let mut most = 0;
    for node in 0..nodes {
        most = sets[node as usize].count_ones().max(most);
    }
    most + 1
}
