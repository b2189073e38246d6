//! Pursuit and evasion: One chases Two over an undirected graph for a limited number of rounds.
#![tactic(auto)]

ghost use Rattle.std.specs.Prelude.{◌≡◌, ◌+◌, ◌*◌, ◌<◌, ◌≤◌, ◌^◌, length, slice_index, MatchResult, None, Some};
ghost use Rattle.pursuit.specs.laws.Game.{pursuit_is_game, pursuit_numbered};
ghost use Rattle.sim_game.specs.declared.Limits.TheVariants.{Wide};
ghost use Rattle.state_key.specs.Sets.{members};
ghost use Rattle.pursuit.specs.Position.{first_fault, IsPosition, IsSettingOf};
ghost use Rattle.pursuit.specs.Rules.{graph_of, is_catch, is_chase_over, key_bits, node_of, pursuit_game, pursuit_numbering, reach, width_of, KeepsRules};

mod laws;
mod position;
mod refusals;

pub use laws::{more_rounds_are_no_worse, position_has_one_game};
use position::{
    check_edges, check_loops, check_places, most_nodes, most_rounds, neighbour_sets, width_of,
    with_node,
};
use sim_game::{CHANCE, Game, Limits, Side};
use state_key::{Key, put};
use thiserror::Error;

/// The most nodes that a graph may have where the limits are wide.
pub const MOST_NODES: usize = 64;

/// The nodes of both players, the rounds left, and whether Two is caught.
#[derive(Clone, Copy, PartialEq, Eq, Debug)]
pub struct State {
    pub one: u8,
    pub two: u8,
    pub rounds: u8,
    pub caught: bool,
}

/// What a position holds: how many nodes the graph has, the neighbours of each node, the nodes of both players, and
/// the rounds. Nodes are numbered from 0; in the set of a node's neighbours the lowest bit stands for node 0.
#[derive(Clone, Copy, PartialEq, Eq, Debug)]
pub struct Setting {
    pub nodes: u8,
    pub neighbours: [u64; MOST_NODES],
    pub one: u8,
    pub two: u8,
    pub rounds: u8,
}

/// A position of the game, within the wide limits.
#[derive(Clone, Copy, PartialEq, Eq, Debug)]
pub struct Pursuit {
    pub setting: Setting,
    width: u32,
    ghost valid: { IsPosition setting },
    ghost width_is: { width ≡ width_of (graph_of setting) },
}

/// Why there is no such position. Places are numbered from 0.
#[derive(Clone, Copy, PartialEq, Eq, Debug, Error)]
pub enum PursuitError {
    #[error("there is no node, or there are too many")]
    NodesRange,
    #[error("the last edge has one node alone")]
    EdgeOdd,
    #[error("the number at place {place} of the edges is no node")]
    EdgeRange { place: u32 },
    #[error("the edge at place {place} joins a node with itself")]
    EdgeLoop { place: u32 },
    #[error("a player stands on no node")]
    PlaceRange { side: Side },
    #[error("there are too many rounds")]
    RoundsRange,
}

impl Pursuit {
    /// The position with these nodes, edges, players and rounds. The edges are pairs of nodes, one pair after the
    /// other; an edge that is listed twice, in either order, counts once. An error names the first rule that is
    /// broken: nodes are 1 to 32, 64 where the limits are wide; the list of edges has an even length; each number in it
    /// is a node; no edge joins a node with itself; One stands on a node, and so does Two; rounds are 0 to 31, 63 where
    /// the limits are wide.
    pub fn new(
        limits: Limits,
        nodes: u8,
        edges: &[u8],
        one: u8,
        two: u8,
        rounds: u8,
    ) -> Result<Pursuit, PursuitError>
        requires { length edges.now < 2 ^ 31 }
        ensures { MatchResult result
            (λ game. (first_fault limits nodes edges.now one two rounds ≡ None)
            × IsSettingOf nodes edges.now one two rounds game.setting)
            (λ fault. first_fault limits nodes edges.now one two rounds ≡ Some fault) }
    {
        if nodes == 0 || nodes > most_nodes(limits) {
            return Err(PursuitError::NodesRange);
        }
        if edges.len() % 2 == 1 {
            return Err(PursuitError::EdgeOdd);
        }
        check_edges(edges, nodes)?;
        check_loops(edges)?;
        check_places(nodes, one, two)?;
        if rounds > most_rounds(limits) {
            return Err(PursuitError::RoundsRange);
        }
        let neighbours = neighbour_sets(edges);
        let setting = Setting {
            nodes,
            neighbours,
            one,
            two,
            rounds,
        };
        Ok(Pursuit {
            setting,
            width: width_of(nodes, &neighbours),
        })
    }

    /// The nodes to which a player may go from a node.
    #[inline]
    fn reach(&self, node: u8) -> u64
        requires { node < self.now.setting.nodes }
        ensures is { members self.now.setting.nodes 0 result ≡ reach (graph_of self.now.setting) node }
        ensures small { result < 2 ^ self.now.setting.nodes }
    {
        with_node(self.setting.neighbours[node as usize], node)
    }

    /// The node to which the move of this number leads from a node.
    #[inline]
    fn reach_node(&self, node: u8, place: u32) -> u8
        requires node { node < self.now.setting.nodes }
        requires place { place < length (reach (graph_of self.now.setting) node) }
        ensures { result ≡ slice_index (reach (graph_of self.now.setting) node) place }
    {
        let mut rest = self.reach(node);
        for _ in 0..place {
            rest &= rest - 1;
        }
        rest.trailing_zeros() as u8
    }
}

impl State {
    /// The node of a side.
    #[inline]
    fn node(self, side: Side) -> u8
        ensures { result ≡ node_of side self }
    {
        match side {
            Side::One => self.one,
            Side::Two => self.two,
        }
    }

    /// Whether Two is caught or no round is left.
    #[inline]
    fn is_over(self) -> bool
        ensures { result ≡ is_chase_over self }
    {
        self.caught || self.rounds == 0
    }

    /// Whether Two is caught where the players go to these nodes.
    #[inline]
    fn is_catch(self, one: u8, two: u8) -> bool
        ensures { result ≡ is_catch self one two }
    {
        one == two || (one == self.two && two == self.one)
    }
}

/// How many bits of a key the rounds take, and each of both nodes.
#[inline]
fn key_bits(nodes: u8, rounds: u8) -> u32
    ensures is { result ≡ key_bits nodes rounds }
    ensures small { result ≤ 6 }
{
    if nodes > 32 || rounds > 31 { 6 } else { 5 }
}

impl Game for Pursuit {
    type State = State;

    ghost model = { λ game. pursuit_game game.setting };

    ghost numbering = { λ game. pursuit_numbering game.setting };

    fn root(&self) -> State {
        State {
            one: self.setting.one,
            two: self.setting.two,
            rounds: self.setting.rounds,
            caught: self.setting.one == self.setting.two,
        }
    }

    #[inline]
    fn moves(&self, side: Side, s: State) -> u32 {
        if s.is_over() {
            0
        } else {
            self.reach(s.node(side)).count_ones()
        }
    }

    #[inline]
    fn next(&self, s: State, a: u32, b: u32) -> State {
        let one = self.reach_node(s.one, a);
        let two = self.reach_node(s.two, b);
        State {
            one,
            two,
            rounds: s.rounds - 1,
            caught: s.is_catch(one, two),
        }
    }

    #[inline]
    fn payoff(&self, s: State) -> i32 {
        if s.caught { 1 } else { -1 }
    }

    #[inline]
    fn reward(&self, _s: State, _a: u32, _b: u32, _d: u32) -> i32 {
        0
    }

    #[inline]
    fn least(&self, _s: State) -> i32 {
        -1
    }

    #[inline]
    fn most(&self, _s: State) -> i32 {
        1
    }

    #[inline]
    fn rank(&self, s: State) -> u32 {
        if s.caught { 0 } else { s.rounds as u32 }
    }

    #[inline]
    fn key(&self, s: State) -> u64 {
        let bits = key_bits(self.setting.nodes, self.setting.rounds);
        let rounds = put(put(Key(0), s.caught as u64, 1), s.rounds as u64, bits);
        put(put(rounds, s.one as u64, bits), s.two as u64, bits).0
    }

    fn most_states(&self) -> u64 {
        1 << (3 * key_bits(self.setting.nodes, self.setting.rounds) + 1)
    }

    #[inline]
    fn place(&self, s: State) -> u64 {
        self.key(s)
    }

    #[inline]
    fn low(&self) -> i32 {
        -1
    }

    #[inline]
    fn high(&self) -> i32 {
        1
    }

    #[inline]
    fn width(&self) -> u32 {
        self.width
    }

    fn label(&self, side: Side, s: State, i: u32) -> u8 {
        self.reach_node(s.node(side), i)
    }

    #[inline]
    fn chance_free(&self) -> bool {
        true
    }

    #[inline]
    fn draws(&self, _s: State, _a: u32, _b: u32) -> u32 {
        1
    }

    #[inline]
    fn chance(&self, _s: State, _a: u32, _b: u32, _d: u32) -> u32 {
        CHANCE
    }

    #[inline]
    fn drawn(&self, s: State, a: u32, b: u32, _d: u32) -> State {
        self.next(s, a, b)
    }

    ghost lawful = { λ game. pursuit_is_game game.setting game.valid };

    ghost numbered = { λ game. pursuit_numbered game.setting game.valid };
}

/// Every call answers by the rules on the graph of the edges of the position.
pub fn keeps_rules(_game: &Pursuit)
    ensures { KeepsRules _game.now.setting }
{}
