//! Tron: two heads move over a grid and take each cell that they enter.
#![tactic(auto)]

ghost use Rattle.std.specs.Prelude.{◌≡◌, ◌*◌, ◌<◌, ◌^◌, true, length, slice_index_or, MatchResult, None, Some};
ghost use Rattle.tron.specs.declared.Direction.TheVariants.{North};
ghost use Rattle.sim_game.specs.Model.{Reachable};
ghost use Rattle.sim_game.specs.Numbers.{by_key, numbered_by_key};
ghost use Rattle.tron.specs.laws.Game.{tron_is_game};
ghost use Rattle.tron.specs.Position.{first_fault, IsPosition, IsSettingOf};
ghost use Rattle.tron.specs.Rules.{arena_of, directions_of, entered, goes_on, head_of, is_open, is_over, neighbour, number_of, tron_game, ways_of, KeepsRules};

mod position;
mod refusals;

pub use position::position_has_one_game;
use position::{cell_count, check_cells, is_taken, set_of, western_column, with_cell};
use sim_game::{CHANCE, Game, Side};
use state_key::{Key, put};
use thiserror::Error;

/// The taken cells and both heads. Cells are numbered row by row from the north-west corner; in the set the lowest
/// bit stands for cell 0, and that of each taken cell is 1.
#[derive(Clone, Copy, PartialEq, Eq, Debug)]
pub struct State {
    pub taken: u64,
    pub one: u8,
    pub two: u8,
}

/// What a position holds: the size of the grid, the taken cells (walls and heads), and both heads.
#[derive(Clone, Copy, PartialEq, Eq, Debug)]
pub struct Setting {
    pub height: u8,
    pub width: u8,
    pub taken: u64,
    pub one: u8,
    pub two: u8,
}

/// Where a head goes; a move's label is its number.
#[derive(Clone, Copy, PartialEq, Eq, Debug)]
pub enum Direction {
    North,
    East,
    South,
    West,
}

/// A position of the game.
#[derive(Clone, Copy, PartialEq, Eq, Debug)]
pub struct Tron {
    pub setting: Setting,
    ghost valid: { IsPosition setting },
}

/// Why there is no such position.
#[derive(Clone, Copy, PartialEq, Eq, Debug, Error)]
pub enum TronError {
    #[error("the height or the width is not 1 to 6")]
    GridRange,
    #[error("the cell at place {place} is not on the grid")]
    CellRange { place: u32 },
    #[error("a head stands on a wall")]
    HeadInWall,
    #[error("both heads are on one cell")]
    HeadsMeet,
}

impl Tron {
    /// The position with these walls and heads; a wall that is listed twice counts once. An error names the first rule
    /// that is broken: height and width are 1 to 6; each cell is on the grid, where the walls have the places from 0,
    /// One's head the next and Two's the last; no head stands on a wall; the heads are on two cells.
    pub fn new(height: u8, width: u8, walls: &[u8], one: u8, two: u8) -> Result<Tron, TronError>
        requires { length walls.now < 2 ^ 31 }
        ensures { MatchResult result
            (λ game. (first_fault height width walls.now one two ≡ None)
            × IsSettingOf height width walls.now one two game.setting)
            (λ fault. first_fault height width walls.now one two ≡ Some fault) }
    {
        if height == 0 || height > 6 || width == 0 || width > 6 {
            return Err(TronError::GridRange);
        }
        check_cells(walls, one, two, cell_count(height, width))?;
        let walled = set_of(walls);
        if is_taken(walled, one) || is_taken(walled, two) {
            return Err(TronError::HeadInWall);
        }
        if one == two {
            return Err(TronError::HeadsMeet);
        }
        let taken = with_cell(with_cell(walled, one), two);
        let setting = Setting {
            height,
            width,
            taken,
            one,
            two,
        };
        Ok(Tron { setting })
    }
}

impl Direction {
    /// The label of a move in this direction.
    #[inline]
    fn number(self) -> u8
        ensures { result ≡ number_of self }
    {
        match self {
            Direction::North => 0,
            Direction::East => 1,
            Direction::South => 2,
            Direction::West => 3,
        }
    }
}

impl Tron {
    /// The head of a side.
    #[inline]
    fn head(&self, side: Side, s: State) -> u8
        requires { Reachable (tron_game self.now.setting) s }
        ensures is { result ≡ head_of side (arena_of self.now.setting s) }
        ensures on_grid { result < self.now.setting.height * self.now.setting.width }
    {
        match side {
            Side::One => s.one,
            Side::Two => s.two,
        }
    }

    /// Whether the grid goes on from the cell in this direction.
    #[inline]
    fn goes_on(&self, cell: u8, direction: Direction) -> bool
        requires { cell < self.now.setting.height * self.now.setting.width }
        ensures { result ≡ goes_on self.now.setting.height self.now.setting.width cell direction }
    {
        let Setting { height, width, .. } = self.setting;
        match direction {
            Direction::North => cell >= width,
            Direction::East => !is_taken(western_column(width), cell + 1),
            Direction::South => cell + width < cell_count(height, width),
            Direction::West => !is_taken(western_column(width), cell),
        }
    }

    /// The neighbour of the cell in this direction.
    #[inline]
    fn neighbour(&self, cell: u8, direction: Direction) -> u8
        requires cell { cell < self.now.setting.height * self.now.setting.width }
        requires there { goes_on self.now.setting.height self.now.setting.width cell direction ≡ true }
        ensures is { result ≡ neighbour self.now.setting.width cell direction }
        ensures small { result < 36 }
    {
        match direction {
            Direction::North => cell - self.setting.width,
            Direction::East => cell + 1,
            Direction::South => cell + self.setting.width,
            Direction::West => cell - 1,
        }
    }

    /// Whether the cell has a free neighbour in this direction.
    #[inline]
    fn is_open(&self, s: State, cell: u8, direction: Direction) -> bool
        requires { cell < self.now.setting.height * self.now.setting.width }
        ensures { result ≡ is_open (arena_of self.now.setting s) cell direction }
    {
        self.goes_on(cell, direction) && !is_taken(s.taken, self.neighbour(cell, direction))
    }

    /// How many free neighbours the head of a side has.
    #[inline]
    fn open_count(&self, side: Side, s: State) -> u32
        requires { Reachable (tron_game self.now.setting) s }
        ensures { result ≡ length (directions_of (arena_of self.now.setting s) side) }
    {
        let head = self.head(side, s);
        self.is_open(s, head, Direction::North) as u32
            + self.is_open(s, head, Direction::East) as u32
            + self.is_open(s, head, Direction::South) as u32
            + self.is_open(s, head, Direction::West) as u32
    }

    /// Whether the heads are on one cell or one of them has no free neighbour.
    #[inline]
    fn is_over(&self, s: State) -> bool
        requires { Reachable (tron_game self.now.setting) s }
        ensures { result ≡ is_over (arena_of self.now.setting s) }
    {
        s.one == s.two || self.open_count(Side::One, s) == 0 || self.open_count(Side::Two, s) == 0
    }

    /// The direction of the free neighbour of this number.
    #[inline]
    fn open_direction(&self, side: Side, s: State, i: u32) -> Direction
        requires sound { Reachable (tron_game self.now.setting) s }
        requires place { i < length (directions_of (arena_of self.now.setting s) side) }
        ensures { result ≡ slice_index_or (directions_of (arena_of self.now.setting s) side) i North }
    {
        let head = self.head(side, s);
        let north = self.is_open(s, head, Direction::North) as u32;
        let east = north + self.is_open(s, head, Direction::East) as u32;
        let south = east + self.is_open(s, head, Direction::South) as u32;
        if i < north {
            Direction::North
        } else if i < east {
            Direction::East
        } else if i < south {
            Direction::South
        } else {
            Direction::West
        }
    }

    /// The cell that a side enters by its move of this number.
    #[inline]
    fn target_cell(&self, side: Side, s: State, i: u32) -> u8
        requires sound { Reachable (tron_game self.now.setting) s }
        requires place { i < length (ways_of (arena_of self.now.setting s) side) }
        ensures is { result ≡ entered (arena_of self.now.setting s) side i }
        ensures small { result < 36 }
    {
        self.neighbour(self.head(side, s), self.open_direction(side, s, i))
    }
}

impl Game for Tron {
    type State = State;

    ghost model = { λ game. tron_game game.setting };

    ghost numbering = { λ game. by_key (tron_game game.setting) (2 ^ 63) };

    fn root(&self) -> State {
        State {
            taken: self.setting.taken,
            one: self.setting.one,
            two: self.setting.two,
        }
    }

    #[inline]
    fn moves(&self, side: Side, s: State) -> u32 {
        if self.is_over(s) {
            0
        } else {
            self.open_count(side, s)
        }
    }

    #[inline]
    fn next(&self, s: State, a: u32, b: u32) -> State {
        let one = self.target_cell(Side::One, s, a);
        let two = self.target_cell(Side::Two, s, b);
        State {
            taken: with_cell(with_cell(s.taken, one), two),
            one,
            two,
        }
    }

    #[inline]
    fn payoff(&self, s: State) -> i32 {
        let one_shut = self.open_count(Side::One, s) == 0;
        let two_shut = self.open_count(Side::Two, s) == 0;
        if s.one == s.two || (one_shut && two_shut) {
            0
        } else if one_shut {
            -1
        } else {
            1
        }
    }

    #[inline]
    fn reward(&self, _s: State, _a: u32, _b: u32, _d: u32) -> i32 {
        0
    }

    #[inline]
    fn least(&self, _s: State) -> i32 {
        -1
    }

    #[inline]
    fn most(&self, _s: State) -> i32 {
        1
    }

    #[inline]
    fn rank(&self, s: State) -> u32 {
        if self.is_over(s) {
            0
        } else {
            let cells = cell_count(self.setting.height, self.setting.width);
            (cells as u32 - s.taken.count_ones() + 1) / 2
        }
    }

    #[inline]
    fn key(&self, s: State) -> u64 {
        put(
            put(put(Key(0), s.taken, 36), s.one as u64, 6),
            s.two as u64,
            6,
        )
        .0
    }

    fn most_states(&self) -> u64 {
        1 << 63
    }

    #[inline]
    fn place(&self, s: State) -> u64 {
        self.key(s)
    }

    #[inline]
    fn low(&self) -> i32 {
        -1
    }

    #[inline]
    fn high(&self) -> i32 {
        1
    }

    #[inline]
    fn width(&self) -> u32 {
        4
    }

    fn label(&self, side: Side, s: State, i: u32) -> u8 {
        self.open_direction(side, s, i).number()
    }

    #[inline]
    fn chance_free(&self) -> bool {
        true
    }

    #[inline]
    fn draws(&self, _s: State, _a: u32, _b: u32) -> u32 {
        1
    }

    #[inline]
    fn chance(&self, _s: State, _a: u32, _b: u32, _d: u32) -> u32 {
        CHANCE
    }

    #[inline]
    fn drawn(&self, s: State, a: u32, b: u32, _d: u32) -> State {
        self.next(s, a, b)
    }

    ghost lawful = { λ game. tron_is_game game.setting game.valid };

    ghost numbered = { λ game. let lawful = tron_is_game game.setting game.valid in
        numbered_by_key (tron_game game.setting) lawful (2 ^ 63) lawful.key_high };
}

/// The states stand for a list of taken cells and both heads, and every call answers by the rules on these.
pub fn keeps_rules(_game: &Tron)
    ensures { KeepsRules _game.now.setting }
{}
