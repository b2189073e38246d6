//! The games, one by one: their words, their fields, and positions as values of these fields.

ghost use Rattle.std.specs.Prelude.{◌≡◌, ℕ, pos, true, length, map, IfOk};
ghost use Rattle.std.specs.List.{list_all};
ghost use Rattle.sim_game.specs.declared.Limits.TheVariants.{Narrow, Wide};
ghost use Rattle.fields.specs.declared.positions.PositionText.{PositionText};
ghost use Rattle.fields.specs.Fields.{Fits, AllFit};
ghost use Rattle.fields.specs.Positions.{game_word, game_version, fields_of, kinds_of, kind_of, pay_word, HoldsNumbers, HoldsOptional, shown_value, values_of, position_with, IsPositionInRange, game_of, is_between, numbers_fit, is_paid_at_end, fits_narrow, are_narrow_turns, are_narrow_moves, is_small, is_narrow};
ghost use Rattle.fields.specs.declared.positions.TheConstants.{BYTE, SCORE, PLACE};

use crate::{Choices, Field, FieldKind, FieldRow, Pay, Value, Word};
use seq::Seq;
use sim_game::Limits;
use std::alloc::{AllocError, Global};

const BYTE: FieldKind = FieldKind::Number(0, 255);

const SCORE: FieldKind = FieldKind::Number(-1_000_000, 1_000_000);

const PLACE: FieldKind = FieldKind::Number(-128, 127);

const BYTES: FieldKind = FieldKind::List(255);

/// The fields of each game, in the order of refusals.
pub const GOOFSPIEL: [FieldRow; 5] = [
    (Field::One, BYTES),
    (Field::Two, BYTES),
    (Field::Prizes, BYTES),
    (Field::Score, SCORE),
    (Field::Pay, FieldKind::Word(Choices::Pay)),
];

pub const NARROW_GOOFSPIEL: [FieldRow; 5] = [
    (Field::One, BYTES),
    (Field::Two, BYTES),
    (Field::Prizes, BYTES),
    (Field::Score, SCORE),
    (Field::Pay, FieldKind::Word(Choices::PayAtEnd)),
];

pub const OSHI_ZUMO: [FieldRow; 5] = [
    (Field::Size, BYTE),
    (Field::One, BYTE),
    (Field::Two, BYTE),
    (Field::Least, BYTE),
    (Field::Place, PLACE),
];

pub const TRON: [FieldRow; 5] = [
    (Field::Height, BYTE),
    (Field::Width, BYTE),
    (Field::Walls, BYTES),
    (Field::One, BYTE),
    (Field::Two, BYTE),
];

pub const PURSUIT: [FieldRow; 5] = [
    (Field::Nodes, BYTE),
    (Field::Edges, FieldKind::List(1024)),
    (Field::One, BYTE),
    (Field::Two, BYTE),
    (Field::Rounds, BYTE),
];

/// The lists that are made of the one field of a position.
pub const TABLE: [FieldRow; 6] = [
    (Field::States, FieldKind::Numbers(0, 16_777_216, 16_777_216)),
    (Field::States, FieldKind::Numbers(0, 255, 33_554_432)),
    (
        Field::States,
        FieldKind::Numbers(-1_000_000, 16_777_216, 16_777_216),
    ),
    (
        Field::States,
        FieldKind::Numbers(-16_777_216, 16_777_215, 16_777_216),
    ),
    (Field::States, FieldKind::Numbers(0, 16_777_215, 33_554_432)),
    (
        Field::States,
        FieldKind::Optional(-1_000_000, 1_000_000, 16_777_216),
    ),
];

pub const NARROW_TABLE: [FieldRow; 6] = [
    (Field::States, FieldKind::Numbers(0, 524_288, 524_288)),
    (Field::States, FieldKind::Numbers(0, 255, 1_048_576)),
    (
        Field::States,
        FieldKind::Numbers(-1_000_000, 1_000_000, 524_288),
    ),
    (
        Field::States,
        FieldKind::Numbers(-1_048_576, 1_048_575, 524_288),
    ),
    (Field::States, FieldKind::Numbers(0, 1_048_575, 524_288)),
    (Field::States, FieldKind::Optional(0, 0, 0)),
];

/// The most coins of a side, and the greatest least bid, by the narrow rules.
pub const NARROW_COINS: u8 = 31;

/// The most moves of a side, and the most nodes of a graph, by the narrow rules.
pub const NARROW_MOVES: u8 = 32;

/// The most turns by the narrow rules.
pub const NARROW_TURNS: u8 = 31;

/// The kinds of games.
#[derive(Clone, Copy, Debug, PartialEq, Eq)]
pub enum GameKind {
    Goofspiel,
    OshiZumo,
    Tron,
    GoofspielDrawn,
    Pursuit,
    Table,
}

/// Does the same with each game: its name; its word, the first version of reports that has it, and its fields within narrow
/// and within wide limits; how many fields it has, and in their order what each of them holds.
macro_rules! each_game {
    ($then:ident, $given:tt) => { $then! { $given;
        Goofspiel (b"goofspiel", 1, NARROW_GOOFSPIEL, GOOFSPIEL)
            5 { one: list, two: list, prizes: list, score: score, pay: pay }
        OshiZumo (b"oshi_zumo", 1, OSHI_ZUMO, OSHI_ZUMO)
            5 { size: byte, one: byte, two: byte, least: byte, place: place }
        Tron (b"tron", 1, TRON, TRON)
            5 { height: byte, width: byte, walls: list, one: byte, two: byte }
        GoofspielDrawn (b"goofspiel_drawn", 2, NARROW_GOOFSPIEL, GOOFSPIEL)
            5 { one: list, two: list, prizes: list, score: score, pay: pay }
        Pursuit (b"pursuit", 2, PURSUIT, PURSUIT)
            5 { nodes: byte, edges: list, one: byte, two: byte, rounds: byte }
        Table (b"table", 2, NARROW_TABLE, TABLE)
            6 { ranks: numbers, moves: numbers, values: numbers, cells: numbers, draws: numbers, rewards: optional }
    } };
}

macro_rules! kinds {
    ((); $($name:ident $row:tt $many:literal $fields:tt)+) => { [$(GameKind::$name),+] };
}

macro_rules! kind {
    (($text:expr); $($name:ident $row:tt $many:literal $fields:tt)+) => {
        match $text { $(PositionText::$name { .. } => GameKind::$name,)+ }
    };
}

macro_rules! word {
    (($game:expr); $($name:ident ($word:literal, $($row:tt)+) $many:literal $fields:tt)+) => {
        match $game { $(GameKind::$name => $word,)+ }
    };
}

macro_rules! version {
    (($game:expr); $($name:ident ($word:literal, $version:literal, $($row:tt)+) $many:literal $fields:tt)+) => {
        match $game { $(GameKind::$name => $version,)+ }
    };
}

macro_rules! fields_within {
    (
        ($game:expr, $limits:expr);
        $($name:ident ($word:literal, $version:literal, $narrow:ident, $wide:ident) $many:literal $fields:tt)+
    ) => {
        match ($game, $limits) {
            $((GameKind::$name, Limits::Narrow) => &$narrow,
            (GameKind::$name, Limits::Wide) => &$wide,)+
        }
    };
}

/// The position of the game that is made of the values.
macro_rules! made {
    (
        ($game:expr, $values:expr);
        $($name:ident $row:tt $many:literal { $($field:ident: $kind:ident),+ })+
    ) => {
        match $game {
            $(GameKind::$name => {
                let [$($field),+] = exactly::<$many>($values);
                PositionText::$name { $($field: $field.$kind()),+ }
            })+
        }
    };
}

/// The values of the position.
macro_rules! shown {
    (
        ($text:expr, $alloc:expr);
        $($name:ident $row:tt $many:literal { $($field:ident: $kind:ident),+ })+
    ) => {
        match $text {
            $(PositionText::$name { $($field),+ } => {
                Ok(Vec::from_array($alloc, [$(shown_field!($kind, $field)),+])?)
            })+
        }
    };
}

macro_rules! shown_field {
    (list, $field:expr) => { Shown::List($field.as_slice()) };
    (numbers, $field:expr) => { Shown::Numbers($field.as_slice()) };
    (optional, $field:expr) => { Shown::Optional($field.as_slice()) };
    (pay, $field:expr) => { Shown::Word(word_for(*$field)) };
    ($number:ident, $field:expr) => { Shown::Number(i64::from(*$field)) };
}

/// All kinds of games.
pub const GAMES: [GameKind; 6] = each_game!(kinds, ());

impl GameKind {
    /// The word by which the game is called.
    pub fn word(self) -> &'static [u8]
        ensures { result.now ≡ game_word self }
    {
        each_game!(word, (self))
    }

    /// The game that is called by this word.
    #[tactic(auto, unfolding(crate::specs::Positions::game_of))]
    pub fn of_word(word: &[u8]) -> Option<GameKind>
        ensures { result ≡ game_of word.now }
    {
        GAMES.iter().copied().find(|game| word == game.word())
    }

    /// The first version of reports that has the game, from 1 on.
    pub fn version(self) -> u32
        ensures { result ≡ game_version self }
    {
        each_game!(version, (self))
    }

    /// The fields of the game within the limits, in the order of refusals. A position can have what the wide ones allow.
    pub fn fields(self, limits: Limits) -> &'static [FieldRow]
        ensures { result.now ≡ fields_of limits self }
    {
        each_game!(fields_within, (self, limits))
    }
}

/// A position as it is given, which its game may still refuse.
#[derive(Debug, Drop)]
pub enum PositionText {
    Goofspiel {
        /// The cards of One.
        one: Seq<u8>,
        /// The cards of Two.
        two: Seq<u8>,
        /// The prizes in the order of play.
        prizes: Seq<u8>,
        /// One's prizes so far less Two's.
        score: i32,
        pay: Pay,
    },
    OshiZumo {
        /// How many steps lie between the middle and either side's edge.
        size: u8,
        /// The coins of One.
        one: u8,
        /// The coins of Two.
        two: u8,
        /// The least bid.
        least: u8,
        /// The wrestler's place, 0 in the middle.
        place: i8,
    },
    Tron {
        height: u8,
        width: u8,
        /// The cells that are walls, numbered row by row.
        walls: Seq<u8>,
        /// The head of One.
        one: u8,
        /// The head of Two.
        two: u8,
    },
    /// Goofspiel whose next prize is drawn after each bid.
    GoofspielDrawn {
        /// The cards of One.
        one: Seq<u8>,
        /// The cards of Two.
        two: Seq<u8>,
        /// The prizes, of which the first is bid for first.
        prizes: Seq<u8>,
        /// One's prizes so far less Two's.
        score: i32,
        pay: Pay,
    },
    Pursuit {
        /// How many nodes the graph has.
        nodes: u8,
        /// The edges, each by its two nodes one after the other.
        edges: Seq<u8>,
        /// The node of One, the pursuer.
        one: u8,
        /// The node of Two.
        two: u8,
        /// How many rounds are left.
        rounds: u8,
    },
    /// A game told state by state. Places in a list are numbered from 0.
    Table {
        /// For each state how many turns the longest way from it takes, 0 for an end.
        ranks: Seq<i32>,
        /// For each state how many moves One has, then how many Two has; 0 and 0 for an end.
        moves: Seq<i32>,
        /// For each state the payoff of an end, or else the place of its first cell in `cells`.
        values: Seq<i32>,
        /// The cells of all states, state by state and row by row: each the state that follows for certain, or -1 less
        /// the number of its first draw.
        cells: Seq<i32>,
        /// The draws of all cells, each by the state that can follow and its weight.
        draws: Seq<i32>,
        /// For each draw what One gets by the turn, in whole payoffs; empty if no turn pays.
        rewards: Seq<i32>,
    },
}

/// A value of a position, by reference.
#[derive(Clone, Copy)]
pub enum Shown<'a> {
    Number(i64),
    List(&'a [u8]),
    Numbers(&'a [i32]),
    Optional(&'a [i32]),
    Word(Word),
}

fn word_for(pay: Pay) -> Word
    ensures { result ≡ pay_word pay }
{
    match pay {
        Pay::Margin => Word::Margin,
        Pay::Win => Word::Win,
        Pay::Prizes => Word::Prizes,
    }
}

impl Value {
    fn byte(self) -> u8
        requires { Fits BYTE self }
        ensures { self ≡ Value.Number (pos result) }
    {
        match self {
            Value::Number(z) => z as u8,
            _ => unreachable!(),
        }
    }

    fn score(self) -> i32
        requires { Fits SCORE self }
        ensures { self ≡ Value.Number result }
    {
        match self {
            Value::Number(z) => z as i32,
            _ => unreachable!(),
        }
    }

    fn place(self) -> i8
        requires { Fits PLACE self }
        ensures { self ≡ Value.Number result }
    {
        match self {
            Value::Number(z) => z as i8,
            _ => unreachable!(),
        }
    }

    fn list(self) -> Seq<u8>
        requires { (most : ℕ) × Fits (FieldKind.List most) self }
        ensures { self ≡ Value.List result }
    {
        match self {
            Value::List(ns) => ns,
            _ => unreachable!(),
        }
    }

    fn numbers(self) -> Seq<i32>
        requires { HoldsNumbers self }
        ensures { self ≡ Value.Numbers result }
    {
        match self {
            Value::Numbers(zs) => zs,
            _ => unreachable!(),
        }
    }

    fn optional(self) -> Seq<i32>
        requires { HoldsOptional self }
        ensures { self ≡ Value.Optional result }
    {
        match self {
            Value::Optional(zs) => zs,
            _ => unreachable!(),
        }
    }

    fn pay(self) -> Pay
        requires { Fits (FieldKind.Word Choices.Pay) self }
        ensures { self ≡ Value.Word (pay_word result) }
    {
        match self {
            Value::Word(Word::Margin) => Pay::Margin,
            Value::Word(Word::Win) => Pay::Win,
            Value::Word(Word::Prizes) => Pay::Prizes,
            _ => unreachable!(),
        }
    }
}

/// The values of a game that has so many fields.
fn exactly<const N: usize>(values: Vec<Value>) -> [Value; N]
    requires { length values.items ≡ N }
    ensures { result ≡ values.items }
{
    match <[Value; N]>::try_from(values) {
        Ok(values) => values,
        Err(_) => unreachable!(),
    }
}

/// Whether the numbers fit the field.
fn are_within(kind: FieldKind, zs: &[i32]) -> bool
    ensures { result ≡ numbers_fit kind zs.now }
{
    match kind {
        FieldKind::Numbers(low, high, most) => zs.len() <= most && are_between(low, high, zs),
        _ => false,
    }
}

fn are_between(low: i32, high: i32, zs: &[i32]) -> bool
    ensures { result ≡ list_all (is_between low high) zs.now }
{
    zs.iter().all(|z| low <= *z && *z <= high)
}

fn is_paid_at_end(pay: Pay) -> bool
    ensures { result ≡ is_paid_at_end pay }
{
    !matches!(pay, Pay::Prizes)
}

/// Whether these are numbers of turns that the narrow rules allow.
fn are_narrow_turns(zs: &[i32]) -> bool
    ensures { result ≡ list_all are_narrow_turns zs.now }
{
    zs.iter().all(|z| *z <= NARROW_TURNS as i32)
}

/// Whether these are numbers of moves that the narrow rules allow.
fn are_narrow_moves(zs: &[i32]) -> bool
    ensures { result ≡ list_all are_narrow_moves zs.now }
{
    zs.iter().all(|z| *z <= NARROW_MOVES as i32)
}

impl PositionText {
    /// The position of the game that has these values in its fields.
    #[tactic(auto, using(crate::proofs::PositionLemmas::in_range_with))]
    pub fn with_values(game: GameKind, values: Vec<Value>) -> PositionText
        requires { AllFit (kinds_of Wide game) values.items }
        ensures exact { result ≡ position_with game values.items }
        ensures in_range { IsPositionInRange result }
    {
        each_game!(made, (game, values))
    }

    /// The values of the position's fields.
    pub fn values(&self, alloc: Global) -> Result<Vec<Shown<'_>>, AllocError>
        ensures { IfOk result (λ v. map shown_value v.items ≡ values_of self.now) }
    {
        each_game!(shown, (self, alloc))
    }

    /// Whether the position fits the narrow fields of its game.
    fn fits_narrow(&self) -> bool
        ensures { result ≡ fits_narrow self.now }
    {
        match self {
            PositionText::Goofspiel { pay, .. } | PositionText::GoofspielDrawn { pay, .. } => {
                is_paid_at_end(*pay)
            }
            PositionText::Table {
                ranks,
                moves,
                values,
                cells,
                draws,
                rewards,
            } => {
                let [a, b, c, d, e, _] = NARROW_TABLE;
                rewards.is_empty()
                    && are_within(a.1, ranks.as_slice())
                    && are_within(b.1, moves.as_slice())
                    && are_within(c.1, values.as_slice())
                    && are_within(d.1, cells.as_slice())
                    && are_within(e.1, draws.as_slice())
            }
            _ => true,
        }
    }

    /// Whether no number is one that the wide rules of the game allow and the narrow ones refuse.
    fn is_small(&self) -> bool
        ensures { result ≡ is_small self.now }
    {
        match self {
            PositionText::OshiZumo {
                one,
                two,
                least,
                ..
            } => *one <= NARROW_COINS && *two <= NARROW_COINS && *least <= NARROW_COINS,
            PositionText::Pursuit { nodes, rounds, .. } => {
                *nodes <= NARROW_MOVES && *rounds <= NARROW_TURNS
            }
            PositionText::Table { ranks, moves, .. } => {
                are_narrow_turns(ranks.as_slice()) && are_narrow_moves(moves.as_slice())
            }
            _ => true,
        }
    }

    /// Whether the position is within the narrow limits: it fits the narrow fields of its game, and no number is one
    /// that the wide rules alone allow.
    pub fn is_narrow(&self) -> bool
        ensures { result ≡ is_narrow self.now }
    {
        self.fits_narrow() && self.is_small()
    }

    /// The game of the position.
    pub fn game(&self) -> GameKind
        ensures { result ≡ kind_of self.now }
    {
        each_game!(kind, (self))
    }
}

/// A position fits the narrow fields of its game exactly if its values do. Within the narrow limits it does, and no number
/// is one that the wide rules alone allow.
pub fn narrow_positions_fit()
    ensures fits { (text : PositionText) → IsPositionInRange text → is_narrow text ≡ true
        → AllFit (kinds_of Narrow (kind_of text)) (values_of text) }
    ensures only { (text : PositionText) → AllFit (kinds_of Narrow (kind_of text)) (values_of text)
        → IsPositionInRange text × (is_narrow text ≡ is_small text) }
{}
