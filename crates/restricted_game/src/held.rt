//! The moves that a restricted game holds.
ghost use Rattle.std.specs.Prelude.{◌≡◌, ◌↔◌, ◌≤◌, ◌<◌, ◌∷◌, [], Err, IfOk, IfSome, vec_len, vec_capacity};
ghost use Rattle.sums.specs.declared.TheConstants.{MOST_MOVES};
ghost use Rattle.std.specs.List.{range_with_len};
ghost use Rattle.sim_game.specs.Model.{Reachable};
ghost use Rattle.plan_book.specs.Books.{Grows};
ghost use Rattle.plan_book.specs.Entries.{IsPureEntry};
ghost use Rattle.matrix_game.specs.Budget.{left_of};
ghost use Rattle.matrix_game.specs.Solvers.{UsesRegret};
ghost use Rattle.bounds_board.specs.Views.{IsLater, WasFull};
ghost use Rattle.restricted_game.specs.Children.{AreChildRows};
ghost use Rattle.restricted_game.specs.Held.{AreMoves, HoldsAll, HoldsMore, with_move};
ghost use Rattle.restricted_game.specs.Nodes.{IsAtNode, FitsState, IsBetter, HasOnlyRead};
ghost use Rattle.restricted_game.specs.Numbers.{IsReadChild};
ghost use Rattle.restricted_game.specs.Stages.{AreStageNumbers, WereStageNumbers, HasStepped, HasSteppedOver};
ghost use Rattle.restricted_game.specs.Turns.{TakesStepTurn, TakesTurnOver};

use crate::alone::best_alone;
use crate::buffers::{StageBuffers, emptied};
use crate::cells::numbers_of;
use crate::children::ChildRows;
use crate::node::Node;
use crate::plans::{Plans, plan_side};
use crate::posts::post_both;
use crate::reading::read_table;
use crate::table::StageNumbers;
use bounds_board::{BoardFault, Bounds};
use matrix_game::{StageSolver, Turns};
use sim_game::{Game, NoMemory, Side};
use std::alloc::Global;
use std::marker::Model;

/// How a step ended.
#[derive(Clone, Copy, PartialEq, Eq, Debug)]
pub enum StepEnd {
    /// At least one reply was not held, and is held now: the row of One and the column of Two that are new.
    Grown { row: Option<u32>, col: Option<u32> },
    /// No reply was new: the bounds that the weights prove, in millionths of a payoff.
    Done { lower: i64, upper: i64 },
}

/// Why a step did not end.
#[derive(Clone, Copy, PartialEq, Eq, Debug)]
pub enum StepFault {
    /// No turn is left.
    Spent,
    /// A claim found the board full.
    Full,
    NoMemory,
}

/// A game at a state in which each side has only the moves that are held: rows of One, columns of Two.
#[derive(Drop)]
pub struct Restricted {
    rows: Vec<u32>,
    cols: Vec<u32>,
    most_rows: u32,
    most_cols: u32,
}

impl Model for Restricted {
    ghost use Rattle.std.specs.Prelude.{◌≤◌, vec_capacity};
    ghost use Rattle.restricted_game.specs.Children.{AreChildRows};
    ghost use Rattle.restricted_game.specs.Held.{HeldMoves, IsHolding};

    ghost Value = { HeldMoves };

    ghost view = { λ r. record {
      rows = r.rows.items;
      cols = r.cols.items;
      most_rows = r.most_rows;
      most_cols = r.most_cols;
    } };

    ghost invariant = { λ r.
        IsHolding (record {
          rows = r.rows.items;
          cols = r.cols.items;
          most_rows = r.most_rows;
          most_cols = r.most_cols;
        })
        × (r.most_rows ≤ vec_capacity r.rows) × (r.most_cols ≤ vec_capacity r.cols) };
}

impl Restricted {
    /// Holds one move of each side, of `rows` moves of One and `cols` of Two. Room for all of them is taken here, so
    /// that to hold another move takes no memory.
    pub fn new(
        alloc: Global,
        rows: u32,
        cols: u32,
        first: (u32, u32),
    ) -> Result<Restricted, NoMemory>
        requires row { first.0 < rows }
        requires col { first.1 < cols }
        requires few_rows { rows ≤ MOST_MOVES }
        requires few_cols { cols ≤ MOST_MOVES }
        ensures { IfOk result (λ r. r ≡ record {
          rows = first.0 ∷ [];
          cols = first.1 ∷ [];
          most_rows = rows;
          most_cols = cols;
        }) }
    {
        let mut held_rows = Vec::with_capacity(alloc, rows as usize)?;
        let mut held_cols = Vec::with_capacity(alloc, cols as usize)?;
        held_rows.push_reserved(first.0);
        held_cols.push_reserved(first.1);
        Ok(Restricted {
            rows: held_rows,
            cols: held_cols,
            most_rows: rows,
            most_cols: cols,
        })
    }

    /// Holds all of `rows` moves of One and `cols` of Two, in order of their numbers, so that no step adds another. They
    /// stand in lists of the buffers, which it takes.
    pub fn full(rows: u32, cols: u32, buffers: &mut StageBuffers) -> Result<Restricted, NoMemory>
        requires some_row { 1 ≤ rows }
        requires few_rows { rows ≤ MOST_MOVES }
        requires some_col { 1 ≤ cols }
        requires few_cols { cols ≤ MOST_MOVES }
        ensures held { IfOk result (λ r. r ≡ record {
          rows = range_with_len 0 rows;
          cols = range_with_len 0 cols;
          most_rows = rows;
          most_cols = cols;
        }) }
        ensures all { IfOk result HoldsAll }
    {
        let held_rows = all_moves(&mut buffers.rows, rows)?;
        let held_cols = all_moves(&mut buffers.cols, cols)?;
        Ok(Restricted {
            rows: held_rows,
            cols: held_cols,
            most_rows: rows,
            most_cols: cols,
        })
    }

    /// Gives back the lists that the held moves stand in.
    pub fn give_back(self, buffers: &mut StageBuffers) {
        let Restricted { rows, cols, .. } = self;
        buffers.rows = rows;
        buffers.cols = cols;
    }

    /// The held moves of One, in order of addition.
    pub fn rows(&self) -> &[u32]
        ensures rows { result.now ≡ self.now.rows }
        ensures held { AreMoves self.now.most_rows result.now }
        ensures few { self.now.most_rows ≤ MOST_MOVES }
    {
        self.rows.as_slice()
    }

    /// The held moves of Two, in order of addition.
    pub fn cols(&self) -> &[u32]
        ensures cols { result.now ≡ self.now.cols }
        ensures held { AreMoves self.now.most_cols result.now }
        ensures few { self.now.most_cols ≤ MOST_MOVES }
    {
        self.cols.as_slice()
    }

    /// Reads the states after held moves, solves the game on the held moves for one turn, posts what the weights of
    /// each side prove against all replies, and holds the best replies that were not held.
    ///
    /// The state is one that is no end, and has as many moves of each side as this game was made for; the row is its
    /// own, and `children` keeps the rows of the states that it reads. `Spent` comes where no turn is left, before all
    /// else; `Full` where the claim of a child found the board full.
    pub fn step<G: Game, B: Bounds<G>>(
        &mut self,
        g: G,
        node: Node<G::State>,
        children: &mut ChildRows,
        board: &mut B,
        turns: &mut Turns,
        solver: &mut StageSolver,
    ) -> Result<StepEnd, StepFault>
        requires here { IsAtNode (G.model g) g (B.view board.old) node.state node.row }
        requires fits { FitsState (G.model g) node.state self.old }
        requires children { AreChildRows (G.model g) (B.view board.old) node.state children.old }
        ensures better { IsBetter (G.model g) (B.view board.old) (B.view board.new) }
        ensures children { AreChildRows (G.model g) (B.view board.new) node.state children.new }
        ensures stepped { IfOk result (HasStepped (G.model g)
            (B.view board.old) (B.view board.new) solver.old node.state self.old) }
        ensures held { HoldsMore self.old self.new result }

        // A turn that was left and a claim that was full gave `Full`: on Ok each child that was asked for has a row.
        ensures turn { TakesStepTurn turns.old turns.new (B.view board.old) (B.view board.new) result }
        ensures full { result ≡ Err StepFault.Full → WasFull (G.model g) (B.view board.new)
            (IsReadChild (G.model g) node.state self.old.rows self.old.cols) }
        ensures kind { UsesRegret solver.new ↔ UsesRegret solver.old }
    {
        if turns.left() == 0 {
            return Err(StepFault::Spent);
        }
        let mut buffers = StageBuffers::new(*self.rows.allocator());
        let numbers = match self.read(g, node.state, children, board, &mut buffers) {
            Ok(numbers) => numbers,
            Err(BoardFault::Full) => return Err(StepFault::Full),
            Err(BoardFault::NoMemory) => return Err(StepFault::NoMemory),
        };
        match self.step_over(g, node, &numbers, board, turns, solver) {
            Ok(end) => Ok(end),
            Err(_) => Err(StepFault::NoMemory),
        }
    }

    /// Reads the states after held moves, as a step does, into lists of the buffers, which it takes: where these have
    /// held as much before, that takes no memory. `Full` comes where the claim of a child found the board full.
    pub fn read<G: Game, B: Bounds<G>>(
        &self,
        g: G,
        s: G::State,
        children: &mut ChildRows,
        board: &mut B,
        buffers: &mut StageBuffers,
    ) -> Result<StageNumbers, BoardFault>
        requires game { (B.view board.old).game ≡ g }
        requires reachable { Reachable (G.model g) s }
        requires goes_on { 1 ≤ (G.model g).rank s }
        requires children { AreChildRows (G.model g) (B.view board.old) s children.old }
        ensures board { HasOnlyRead (G.model g) (B.view board.old) (B.view board.new) s children.new }
        ensures read { IfOk result (AreStageNumbers (G.model g) (B.view board.old) (B.view board.new) s self.now) }
        ensures full { result ≡ Err BoardFault.Full → WasFull (G.model g) (B.view board.new)
            (IsReadChild (G.model g) s self.now.rows self.now.cols) }
    {
        let table = match read_table(g, s, self.rows(), self.cols(), children, board, buffers) {
            Ok(table) => table,
            Err(BoardFault::Full) => return Err(BoardFault::Full),
            Err(BoardFault::NoMemory) => return Err(BoardFault::NoMemory),
        };
        match numbers_of(g, s, table, buffers) {
            Ok(numbers) => Ok(numbers),
            Err(_) => Err(BoardFault::NoMemory),
        }
    }

    /// A step over numbers that were read, with nothing read anew. A turn is left.
    pub fn step_over<G: Game, B: Bounds<G>>(
        &mut self,
        g: G,
        node: Node<G::State>,
        numbers: &StageNumbers,
        board: &mut B,
        turns: &mut Turns,
        solver: &mut StageSolver,
    ) -> Result<StepEnd, NoMemory>
        requires here { IsAtNode (G.model g) g (B.view board.old) node.state node.row }
        requires fits { FitsState (G.model g) node.state self.old }
        requires read { WereStageNumbers (G.model g) (B.view board.old) node.state self.old numbers.now }
        requires left { 1 ≤ left_of turns.old }
        ensures better { IsBetter (G.model g) (B.view board.old) (B.view board.new) }
        ensures stepped { IfOk result (HasSteppedOver (G.model g)
            (B.view board.old) (B.view board.new) solver.old node.state self.old numbers.now) }
        ensures held { HoldsMore self.old self.new result }
        ensures turn { TakesTurnOver turns.old turns.new (B.view board.old) (B.view board.new) result }
        ensures kind { UsesRegret solver.new ↔ UsesRegret solver.old }
    {
        let total = board.total();
        let plans = match self.plan(g, node.state, total, numbers, turns, solver) {
            Ok(plans) => plans,
            Err(_) => return Err(NoMemory),
        };
        let (lower, fresh_col) = (plans.one.bound, plans.one.fresh);
        let (upper, fresh_row) = (plans.two.bound, plans.two.fresh);
        match post_both(g, node, plans, board) {
            Ok(()) => {}
            Err(_) => return Err(NoMemory),
        }
        if fresh_row.is_none() && fresh_col.is_none() {
            return Ok(StepEnd::Done { lower, upper });
        }
        hold(&mut self.rows, fresh_row);
        hold(&mut self.cols, fresh_col);
        Ok(StepEnd::Grown {
            row: fresh_row,
            col: fresh_col,
        })
    }

    /// Posts what one held move of each side proves alone against all replies, that which proves most, over numbers that
    /// were read, where this and what is known bring the gap at the state to at most the goal, in millionths. It takes
    /// no turn.
    pub fn post_alone<G: Game, B: Bounds<G>>(
        &self,
        g: G,
        node: Node<G::State>,
        goal: i64,
        numbers: &StageNumbers,
        board: &mut B,
    ) -> Result<(), NoMemory>
        requires here { IsAtNode (G.model g) g (B.view board.old) node.state node.row }
        requires fits { FitsState (G.model g) node.state self.now }
        requires read { WereStageNumbers (G.model g) (B.view board.old) node.state self.now numbers.now }
        ensures later { IsLater (B.view board.old) (B.view board.new) }
        ensures posted { Grows (IsPureEntry (G.model g) (B.view board.old).total)
            (B.view board.old).entries (B.view board.new).entries }
    {
        let StageNumbers { lows, highs, .. } = numbers;
        let rows = self.rows();
        let cols = self.cols();
        let row = best_alone(Side::One, lows, rows);
        let col = best_alone(Side::Two, highs, cols);
        let known = board.read(node.row);
        let lower = known.lower.max(row.floor);
        if known.upper.min(col.floor).saturating_sub(lower) > goal {
            return Ok(());
        }
        let alloc = *self.rows.allocator();
        let total = board.total();
        let one = plan_side(alloc, Side::One, total, lows, &[row.place], cols, &[total])?;
        let two = plan_side(alloc, Side::Two, total, highs, &[col.place], rows, &[total])?;
        post_both(g, node, Plans { one, two }, board)
    }
}

/// All of so many moves, in order of their numbers, in this list, which it takes.
fn all_moves(list: &mut Vec<u32>, count: u32) -> Result<Vec<u32>, NoMemory>
    ensures moves { IfOk result (λ moves. moves.items ≡ range_with_len 0 count) }
    ensures room { IfOk result (λ moves. count ≤ vec_capacity moves) }
{
    let mut moves = emptied(list);
    moves.reserve(count as usize)?;
    for number in 0..count {
        moves.push_reserved(number);
    }
    Ok(moves)
}

/// Holds a further move, if there is one, in the room that there is.
fn hold(held: &mut Vec<u32>, number: Option<u32>)
    requires { IfSome number (λ _. vec_len held.old < vec_capacity held.old) }
    ensures items { held.new.items ≡ with_move held.old.items number }
    ensures room { vec_capacity held.new ≡ vec_capacity held.old }
{
    if let Some(number) = number {
        held.push_reserved(number);
    }
}
