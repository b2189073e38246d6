//! What a search asks of a board.
ghost use Rattle.std.specs.Prelude.{◌≡◌, ◌++◌, ◌∷◌, [], ℕ, ◌≤◌, Some, IfOk, IfErr, OnOk, OnErr, IsSome};
ghost use Rattle.sums.specs.declared.TheConstants.{LEAST_WEIGHT, MOST_WEIGHT};
ghost use Rattle.sim_game.specs.Model.{Reachable};
ghost use Rattle.sim_game.specs.Resolution.{IsFineWeight};
ghost use Rattle.bounds_board.specs.Views.{BoardView, IsLater, IsInnerKey, IsFull, IsPostable, IsRead, IsEnclosure, bound_in};
ghost use Rattle.sim_game.specs.Sides.{IsNoTighter, opening_bound};

use crate::row::Row;
use plan_book::Entry;
use sim_game::{Game, NoMemory, Side};

/// The bounds at a state, in millionths of a payoff.
#[derive(Clone, Copy, PartialEq, Eq, Debug)]
pub struct Enclosure {
    pub lower: i64,
    pub upper: i64,
}

impl Enclosure {
    /// The bound of a side.
    pub fn of(&self, side: Side) -> i64
        ensures { result ≡ bound_in side self.now }
    {
        match side {
            Side::One => self.lower,
            Side::Two => self.upper,
        }
    }
}

/// Each row is held by another key.
#[derive(Clone, Copy, PartialEq, Eq, Debug)]
pub struct Full;

#[derive(Clone, Copy, PartialEq, Eq, Debug)]
pub enum BoardFault {
    Full,
    NoMemory,
}

/// An object that claims, reads and posts at the rows of a board.
pub trait Bounds<G: Game> {
    ghost Name: { Type 0 };

    /// What the object knows.
    ghost view: { Self → BoardView G Name };

    fn game(&self) -> G
        ensures { result ≡ (view self.now).game };

    /// A key that the object knows is that of a reachable state that is no end.
    fn knows_inner_keys(&self)
        ensures { (row key : ℕ) → (view self.now).key_at row ≡ Some key
            → IsInnerKey (G.model (view self.now).game) key };

    /// What the weights of each entry sum to.
    fn total(&self) -> u32
        ensures total { result ≡ (view self.now).total }
        ensures low { LEAST_WEIGHT ≤ result }
        ensures fine { IsFineWeight (G.model (view self.now).game) result }
        ensures high { result ≤ MOST_WEIGHT };

    /// The row that has the key, claimed if need be. It takes no memory.
    fn claim(&mut self, key: u64) -> Result<Row, Full>
        requires { IsInnerKey (G.model (view self.old).game) key }
        ensures later { IsLater (view self.old) (view self.new) }
        ensures entries { (view self.new).entries ≡ (view self.old).entries }
        ensures ok { IfOk result (λ row. (view self.new).key_at row ≡ Some key) }
        ensures alone { IfOk result (λ row. (other : ℕ) → (view self.new).key_at other ≡ Some key → other ≡ row) }
        ensures opened { OnOk result ((side : Side)
            → IsNoTighter side (opening_bound (G.model (view self.old).game) side) ((view self.new).seen side key)) }

        // What was seen stays as it was.
        ensures unseen { OnErr result ((side : Side) (other : ℕ)
            → (view self.new).seen side other ≡ (view self.old).seen side other) }
        ensures full { OnErr result (IsFull (G.model (view self.old).game) (view self.new) key) };

    /// The bounds at a row whose key the object knows. It takes no memory.
    fn read(&mut self, row: Row) -> Enclosure
        requires { IsSome ((view self.old).key_at row) }
        ensures later { IsLater (view self.old) (view self.new) }
        ensures entries { (view self.new).entries ≡ (view self.old).entries }
        ensures seen { (key : ℕ) → (view self.old).key_at row ≡ Some key
            → IsRead (view self.new) result.lower result.upper key }
        ensures backed { (s : G.State) → Reachable (G.model (view self.old).game) s
            → (view self.old).key_at row ≡ Some ((G.model (view self.old).game).key s)
            → IsEnclosure (G.model (view self.old).game) result.lower result.upper s };

    /// Raises the lower or cuts the upper bound by the entry, and keeps the entry.
    fn post(&mut self, row: Row, e: Entry) -> Result<(), NoMemory>
        requires row { (view self.old).key_at row ≡ Some e.key }
        requires entry { IsPostable (G.model (view self.old).game) (view self.old) e }
        ensures later { IsLater (view self.old) (view self.new) }
        ensures ok { OnOk result ((view self.new).entries ≡ (view self.old).entries ++ e ∷ []) }
        ensures seen { OnOk result (IsNoTighter e.side e.bound ((view self.new).seen e.side e.key)) }
        ensures err { OnErr result (view self.new ≡ view self.old) };
}
