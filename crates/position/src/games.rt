//! The games, one by one: what is built of their positions, and why bytes are no position.

ghost use Rattle.std.specs.Prelude.{◌≡◌, ◌↔◌, ◌≤◌, ℕ, ◌++◌, true, Some, None, IfOk, OnOk, MatchResult};
ghost use Rattle.serde_json.specs.View.{view};
ghost use Rattle.sim_game.specs.Model.{GameModel};
ghost use Rattle.text.specs.Texts.{Adds};
ghost use Rattle.fields.specs.Fields.{name_of};
ghost use Rattle.fields.specs.declared.positions.PositionText.{PositionText};
ghost use Rattle.sim_game.specs.declared.Limits.TheVariants.{Narrow, Wide};
ghost use Rattle.fields.specs.declared.positions.TheConstants.{NARROW_MOVES};
ghost use Rattle.fields.specs.Positions.{is_small};
ghost use Rattle.fields.specs.Ranges.{IsPositionInRange};
ghost use Rattle.position.specs.declared.games.AnyGame.{AnyGame};
ghost use Rattle.position.specs.Objects.{Gives};
ghost use Rattle.position.specs.Games.{code_of, words_of, is_table, position_text_in, fault_of, text_width, weight_fault, HasTotalsOf, IsGameOf, any_width, model_of, OfSame, IsSameGame};
ghost use Rattle.position.specs.HasGame.{HasGame};

use crate::object::values;
use crate::states::states_in;
use fields::{Field, GameKind, NARROW_MOVES, PositionText};
use goofspiel::{Goofspiel, GoofspielDrawn, GoofspielError};
use oshi_zumo::{OshiError, OshiZumo};
use pursuit::{Pursuit, PursuitError};
use seq::Seq;
use serde_json::Value;
use sim_game::{Game, Limits, NoMemory};
use std::alloc::Global;
use table::{Setting, Table, TableError};
use text::Text;
use thiserror::Error;
use tron::{Tron, TronError};

/// A game of any kind.
#[derive(Clone, Copy, Debug, PartialEq, Eq)]
pub enum AnyGame<'a> {
    Goofspiel(Goofspiel),
    OshiZumo(OshiZumo),
    Tron(Tron),
    GoofspielDrawn(GoofspielDrawn),
    Pursuit(Pursuit),
    Table(Table<'a>),
}

/// The first refusal of the bytes.
#[derive(Clone, Copy, Debug, PartialEq, Eq, Error)]
pub enum InputError {
    /// The bytes are not JSON.
    #[error("not json")]
    NotJson,
    /// The value is not an object.
    #[error("not an object")]
    NotObject,
    /// The object has no such field.
    #[error("a field is missing")]
    Missing { field: Field },
    /// The object has a field that the game and the ask do not have.
    #[error("unknown field")]
    Unknown,
    /// The field is no text, whole number or list of whole numbers, as it should be.
    #[error("a field has another kind")]
    Kind { field: Field },
    /// The field is out of range.
    #[error("a field is out of range")]
    Range { field: Field },
    /// There is no such game.
    #[error("game name")]
    GameName,
    /// The first rule of the game that the position breaks.
    #[error(transparent)]
    Goofspiel(GoofspielError),
    #[error(transparent)]
    OshiZumo(OshiError),
    #[error(transparent)]
    Tron(TronError),
    #[error(transparent)]
    Pursuit(PursuitError),
    #[error(transparent)]
    Table(TableError),
    /// There are more bytes than a position may have.
    #[error("too long")]
    TooLong,
    /// The weight is below 32768, and the game is wider than 32 moves.
    #[error("weight")]
    Weight,
    #[error("out of memory")]
    NoMemory,
}

/// Does the same with each refusal: its number and its words, with a field behind them where it has one; and those of a
/// rule of a game, which tell themselves.
macro_rules! each_refusal {
    ($then:ident, $given:tt) => { $then! { $given;
        NotJson 10 b"not json",
        NotObject 11 b"not an object",
        Unknown 13 b"unknown field",
        GameName 16 b"game name",
        TooLong 50 b"too long",
        Weight 91 b"weight",
        NoMemory 0 b"";
        Missing 12 b"missing ",
        Kind 14 b"kind of ",
        Range 15 b"range of ";
        Goofspiel, OshiZumo, Tron, Pursuit, Table
    } };
}

macro_rules! number {
    (
        ($error:expr);
        $($plain:ident $number:literal $words:literal),+;
        $($of_field:ident $code:literal $begin:literal),+;
        $($game:ident),+
    ) => {
        match $error {
            $(InputError::$plain => $number,)+
            $(InputError::$of_field { .. } => $code,)+
            $(InputError::$game(error) => error.number(),)+
        }
    };
}

macro_rules! told {
    (
        ($error:expr, $text:expr);
        $($plain:ident $number:literal $words:literal),+;
        $($of_field:ident $code:literal $begin:literal),+;
        $($game:ident),+
    ) => {
        match $error {
            $(InputError::$plain => $text.word($words),)+
            $(InputError::$of_field { field } => tell_field($text, $begin, *field),)+
            $(InputError::$game(error) => error.tell($text),)+
        }
    };
}

impl InputError {
    /// The number of the refusal: 10 to 16 and 50 for bytes, the game's own number for a rule of the game, 91 for the
    /// weight, and 0 where there was no memory.
    pub fn code(&self) -> u32
        ensures { result ≡ code_of self.now }
    {
        each_refusal!(number, (self))
    }

    /// Adds the words of the refusal to the text; those of a game's rule are the game's.
    pub fn tell(&self, text: &mut Text) -> Result<(), NoMemory>
        ensures { OnOk result (Adds text.old text.new (words_of self.now)) }
    {
        each_refusal!(told, (self, text))
    }
}

fn tell_field(text: &mut Text, words: &[u8], field: Field) -> Result<(), NoMemory>
    ensures { OnOk result (Adds text.old text.new (words.now ++ name_of field)) }
{
    text.word(words)?;
    text.word(field.name().as_bytes())
}

/// What is done with a game, whatever its kind.
pub trait GameVisitor {
    type Answer;

    /// Which visitors may be handed a game of the width.
    ghost can_visit: { Self → ℕ → Type 0 };

    /// What the answer says of the game.
    ghost says: { Self → (S : Type 0) → GameModel S → Self.Answer → Type 0 };

    fn visit<G: Game + Send + Sync>(self, game: G) -> Self::Answer
    where
        G::State: Send + Sync,
        requires { can_visit self (G.model game).width }
        ensures { says self _ (G.model game) result };
}

/// Does the same with a game, whatever its kind.
#[macro_export]
macro_rules! with_game {
    ($any:expr, $game:ident => $then:expr) => {
        match $any {
            $crate::AnyGame::Goofspiel($game) => $then,
            $crate::AnyGame::OshiZumo($game) => $then,
            $crate::AnyGame::Tron($game) => $then,
            $crate::AnyGame::GoofspielDrawn($game) => $then,
            $crate::AnyGame::Pursuit($game) => $then,
            $crate::AnyGame::Table($game) => $then,
        }
    };
}

/// The least weight for games that are wider than the narrow limits allow.
pub const LEAST_WIDE_WEIGHT: u32 = 32_768;

impl<'a> AnyGame<'a> {
    /// Hands the game to the visitor.
    pub fn accept<V: GameVisitor>(self, visitor: V) -> V::Answer
        requires { V.can_visit visitor (any_width self) }
        ensures { V.says visitor _ (model_of self.entry) result }
    {
        self.hand_to(visitor)
    }

    /// An upper limit on the moves of a side.
    fn width(self) -> u32
        ensures { result ≡ any_width self.entry }
    {
        with_game!(self, game => game.width())
    }

    fn hand_to<V: GameVisitor>(self, visitor: V) -> V::Answer
        requires { V.can_visit visitor (any_width self) }
        ensures { OfSame self.entry (λ S m. V.says visitor S m result) }
    {
        with_game!(self, game => visitor.visit(game))
    }
}

/// What the game of a table keeps beside the text: where turns pay, two numbers for each state. Empty for other games.
pub fn totals(alloc: Global, text: &PositionText) -> Result<Seq<i32>, NoMemory>
    requires { IsPositionInRange text.now }
    ensures { IfOk result (HasTotalsOf text.now) }
{
    match text {
        PositionText::Table {
            ranks,
            moves,
            values,
            cells,
            draws,
            rewards,
        } => {
            let totals = table::totals(
                alloc,
                ranks.as_slice(),
                moves.as_slice(),
                values.as_slice(),
                cells.as_slice(),
                draws.as_slice(),
                rewards.as_slice(),
            )?;
            Ok(Seq::from_vec(totals))
        }
        _ => Ok(Seq::from_vec(Vec::new(alloc))),
    }
}

/// Builds the game of the text: for each game its fields, what a refusal becomes, and what is built.
macro_rules! built {
    ($text:expr; $($name:ident { $($field:ident),+ }, $refused:path => $game:expr;)+) => {
        match $text {
            $(PositionText::$name { $($field),+ } => match $game {
                Ok(game) => Ok(AnyGame::$name(game)),
                Err(fault) => Err($refused(fault)),
            },)+
        }
    };
}

/// The game of the position, or the first of its rules that the position breaks within the limits. Takes no memory: the
/// game borrows the text and its totals.
pub fn build<'a>(
    limits: Limits,
    text: &'a PositionText,
    totals: &'a Seq<i32>,
) -> Result<AnyGame<'a>, InputError>
    requires text { IsPositionInRange text.now }
    requires totals { HasTotalsOf text.now totals.now }
    ensures { MatchResult result
        (λ game. (fault_of limits text.now ≡ None) × IsGameOf text.now game)
        (λ fault. fault_of limits text.now ≡ Some fault) }
{
    built! { text;
        Goofspiel { one, two, prizes, score, pay }, InputError::Goofspiel =>
            Goofspiel::new(one.as_slice(), two.as_slice(), prizes.as_slice(), *score, *pay);
        OshiZumo { size, one, two, least, place }, InputError::OshiZumo =>
            OshiZumo::new(limits, *size, *one, *two, *least, *place);
        Tron { height, width, walls, one, two }, InputError::Tron =>
            Tron::new(*height, *width, walls.as_slice(), *one, *two);
        GoofspielDrawn { one, two, prizes, score, pay }, InputError::Goofspiel =>
            GoofspielDrawn::new(one.as_slice(), two.as_slice(), prizes.as_slice(), *score, *pay);
        Pursuit { nodes, edges, one, two, rounds }, InputError::Pursuit =>
            Pursuit::new(limits, *nodes, edges.as_slice(), *one, *two, *rounds);
        Table { ranks, moves, values, cells, draws, rewards }, InputError::Table =>
            Table::new(limits, Setting {
                ranks: ranks.as_slice(),
                moves: moves.as_slice(),
                values: values.as_slice(),
                cells: cells.as_slice(),
                draws: draws.as_slice(),
                rewards: rewards.as_slice(),
            }, totals.as_slice());
    }
}

/// The game of a position that breaks no rule of it within the wide limits.
pub fn game_of<'a>(text: &'a PositionText, totals: &'a Seq<i32>) -> AnyGame<'a>
    requires text { HasGame text.now }
    requires totals { HasTotalsOf text.now totals.now }
    ensures { IsGameOf text.now result }
{
    match build(Limits::Wide, text, totals) {
        Ok(game) => game,
        Err(_) => unreachable!(),
    }
}

/// A position has one game.
#[tactic(auto, using(crate::proofs::GameLemmas::one_game))]
pub fn position_has_one_game()
    ensures { (text : PositionText) (g h : AnyGame) → IsGameOf text g → IsGameOf text h
        → IsSameGame g h }
{}

/// The width of the game of the position.
pub(crate) fn text_width(_text: &PositionText, game: AnyGame) -> u32
    requires { IsGameOf _text.now game }
    ensures { result ≡ text_width _text.now }
{
    game.width()
}

/// Refuses a weight that is too small for the width within the limits.
pub(crate) fn weigh(limits: Limits, width: u32, weight: u32) -> Result<(), InputError>
    ensures { MatchResult result
        (λ _. weight_fault limits width weight ≡ None)
        (λ fault. weight_fault limits width weight ≡ Some fault) }
{
    match limits {
        Limits::Wide if width > NARROW_MOVES as u32 && weight < LEAST_WIDE_WEIGHT => Err(
            InputError::Weight,
        ),
        _ => Ok(()),
    }
}

/// The narrow rules accept just those positions that the wide ones accept and that are small. No game of such a position
/// is wider than 32 moves.
pub fn narrow_rules_ask_more()
    ensures wider { (text : PositionText) → fault_of Narrow text ≡ None → fault_of Wide text ≡ None }
    ensures exact { (text : PositionText) → IsPositionInRange text → fault_of Wide text ≡ None
        → ((fault_of Narrow text ≡ None) ↔ (is_small text ≡ true)) }
    ensures width { (text : PositionText) (g : AnyGame) → IsGameOf text g → fault_of Narrow text ≡ None
        → any_width g ≤ NARROW_MOVES }
{}

fn is_table(game: GameKind) -> bool
    ensures { result ≡ is_table game }
{
    matches!(game, GameKind::Table)
}

/// The position of the game, where each of its fields is in range within the limits.
#[tactic(auto, unfolding(crate::specs::Games::position_text_in))]
pub(crate) fn position_text(
    alloc: Global,
    limits: Limits,
    game: GameKind,
    object: &Value,
) -> Result<PositionText, InputError>
    ensures exact { Gives (λ t. t) result (position_text_in limits game (view object.now)) }
    ensures in_range { IfOk result IsPositionInRange }
{
    if is_table(game) {
        return states_in(alloc, limits, object);
    }
    let values = values(alloc, game.fields(Limits::Wide), object)?;
    Ok(PositionText::with_values(game, values))
}
