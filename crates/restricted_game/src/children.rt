//! Rows of the states after pairs of moves.
ghost use Rattle.std.specs.Prelude.{◌≡◌, ◌<◌, IfOk, OnErr};
ghost use Rattle.sim_game.specs.Model.{Reachable};
ghost use Rattle.bounds_board.specs.Views.{IsFull};
ghost use Rattle.restricted_game.specs.Children.{AreChildRows, HasNoRows, HasRow};
ghost use Rattle.restricted_game.specs.Nodes.{HasOnlyRead};
ghost use Rattle.restricted_game.specs.Tables.{IsStride};

use crate::buffers::{StageBuffers, filled};
use bounds_board::{Bounds, Full, Row};
use sim_game::{Game, NoMemory, Side};
use std::alloc::Global;
use std::marker::Model;

/// How many draws a pair of moves of the state has at most.
fn most_draws<G: Game>(g: G, s: G::State) -> u32
    requires { Reachable (G.model g) s }
    ensures { IsStride (G.model g) s result }
{
    if g.chance_free() {
        return 1;
    }
    let width = g.moves(Side::Two, s);
    let mut most = 1;
    for pair in 0..g.moves(Side::One, s) * width {
        most = most.max(g.draws(s, pair / width, pair % width));
    }
    most
}

/// The rows of the states after pairs of moves at one state that were claimed so far.
#[derive(Drop)]
pub struct ChildRows {
    width: u32,
    stride: u32,
    // One place a draw, pair by pair, row by row.
    rows: Vec<Option<Row>>,
}

impl Model for ChildRows {
    ghost use Rattle.restricted_game.specs.Children.{KeptRows};

    ghost Value = { KeptRows };

    ghost view = { λ c. record { width = c.width; stride = c.stride; rows = c.rows.items } };
}

impl ChildRows {
    /// No row is known yet.
    pub fn new<G: Game>(alloc: Global, g: G, s: G::State) -> Result<ChildRows, NoMemory>
        requires reachable { Reachable (G.model g) s }
        ensures { IfOk result (HasNoRows (G.model g) s) }
    {
        ChildRows::new_in(g, s, &mut StageBuffers::new(alloc))
    }

    /// The same, in a list of the buffers, which it takes. It takes no memory where that has room.
    pub fn new_in<G: Game>(
        g: G,
        s: G::State,
        buffers: &mut StageBuffers,
    ) -> Result<ChildRows, NoMemory>
        requires reachable { Reachable (G.model g) s }
        ensures { IfOk result (HasNoRows (G.model g) s) }
    {
        let width = g.moves(Side::Two, s);
        let stride = most_draws(g, s);
        let places = g.moves(Side::One, s) * width * stride;
        let mut list = buffers.take_children();
        let rows = filled(&mut list, places as usize, None)?;
        Ok(ChildRows {
            width,
            stride,
            rows,
        })
    }

    /// Gives back the list that the rows stand in.
    pub fn give_back(self, buffers: &mut StageBuffers) {
        buffers.keep_children(self.rows);
    }

    /// How many draws a pair of moves has room for.
    pub(crate) fn stride(&self) -> u32
        ensures { result ≡ self.now.stride }
    {
        self.stride
    }

    /// The row of the state after a pair of moves and a draw, claimed where it is not known yet; an end has none.
    pub fn claim<G: Game, B: Bounds<G>>(
        &mut self,
        g: G,
        s: G::State,
        one: u32,
        two: u32,
        draw: u32,
        board: &mut B,
    ) -> Result<Option<Row>, Full>
        requires game { (B.view board.old).game ≡ g }
        requires reachable { Reachable (G.model g) s }
        requires one { one < (G.model g).moves Side.One s }
        requires two { two < (G.model g).moves Side.Two s }
        requires draw { draw < (G.model g).draws s one two }
        requires children { AreChildRows (G.model g) (B.view board.old) s self.old }
        ensures board { HasOnlyRead (G.model g) (B.view board.old) (B.view board.new) s self.new }
        ensures row { IfOk result (HasRow (G.model g) (B.view board.new) ((G.model g).drawn s one two draw)) }
        ensures full { OnErr result (IsFull (G.model g) (B.view board.new)
            ((G.model g).key ((G.model g).drawn s one two draw))) }
    {
        let pair = one as usize * self.width as usize + two as usize;
        let place = pair * self.stride as usize + draw as usize;
        if let Some(row) = self.rows[place] {
            return Ok(Some(row));
        }
        let child = g.drawn(s, one, two, draw);
        if g.rank(child) == 0 {
            return Ok(None);
        }
        match board.claim(g.key(child)) {
            Ok(row) => {
                self.rows[place] = Some(row);
                Ok(Some(row))
            }
            Err(full) => Err(full),
        }
    }
}
