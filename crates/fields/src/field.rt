//! The fields of positions and of what is asked: their names, and what each holds.

ghost use Rattle.std.specs.Prelude.{◌≡◌, [], ◌∷◌, find, bytes_eq, IfSome};
ghost use Rattle.fields.specs.Fields.{name_of, spelling, choices_of, word_in, Fits};

use seq::Seq;

/// A field of the object of a position.
#[derive(Clone, Copy, Debug, PartialEq, Eq)]
pub enum Field {
    Game,
    One,
    Two,
    Prizes,
    Score,
    Pay,
    Size,
    Least,
    Place,
    Height,
    Width,
    Walls,
    Nodes,
    Edges,
    Rounds,
    States,
    Gap,
    Weight,
    Turns,
    Visits,
    Rows,
    Workers,
    Stages,
    Search,
}

impl Field {
    /// The field's name in the object.
    pub fn name(self) -> &'static str
        ensures { result.now ≡ name_of self }
    {
        match self {
            Field::Game => "game",
            Field::One => "one",
            Field::Two => "two",
            Field::Prizes => "prizes",
            Field::Score => "score",
            Field::Pay => "pay",
            Field::Size => "size",
            Field::Least => "least",
            Field::Place => "place",
            Field::Height => "height",
            Field::Width => "width",
            Field::Walls => "walls",
            Field::Nodes => "nodes",
            Field::Edges => "edges",
            Field::Rounds => "rounds",
            Field::States => "states",
            Field::Gap => "gap",
            Field::Weight => "weight",
            Field::Turns => "turns",
            Field::Visits => "visits",
            Field::Rows => "rows",
            Field::Workers => "workers",
            Field::Stages => "stages",
            Field::Search => "search",
        }
    }
}

/// A word that a field can hold.
#[derive(Clone, Copy, Debug, PartialEq, Eq)]
pub enum Word {
    Margin,
    Win,
    Prizes,
    Regret,
    Linear,
    Oracle,
    Induction,
}

impl Word {
    pub fn text(self) -> &'static [u8]
        ensures { result.now ≡ spelling self }
    {
        match self {
            Word::Margin => b"margin",
            Word::Win => b"win",
            Word::Prizes => b"prizes",
            Word::Regret => b"regret",
            Word::Linear => b"linear",
            Word::Oracle => b"oracle",
            Word::Induction => b"induction",
        }
    }
}

/// Words of which a field holds one.
#[derive(Clone, Copy, Debug, PartialEq, Eq)]
pub enum Choices {
    /// How prizes pay.
    Pay,
    /// The same, if nothing is paid before the end.
    PayAtEnd,
    Stages,
    Search,
}

impl Choices {
    fn words(self) -> &'static [Word]
        ensures { result.now ≡ choices_of self }
    {
        match self {
            Choices::Pay => &[Word::Margin, Word::Win, Word::Prizes],
            Choices::PayAtEnd => &[Word::Margin, Word::Win],
            Choices::Stages => &[Word::Regret, Word::Linear],
            Choices::Search => &[Word::Oracle, Word::Induction],
        }
    }

    /// The word of these that is spelled so.
    pub fn word(self, text: &[u8]) -> Option<Word>
        ensures exact { result ≡ word_in self text.now }
        ensures fits { IfSome result (λ w. Fits (FieldKind.Word self) (Value.Word w)) }
    {
        self.words()
            .iter()
            .copied()
            .find(|word| text == word.text())
    }
}

/// What a field holds.
#[derive(Clone, Copy, Debug, PartialEq, Eq)]
pub enum FieldKind {
    /// A whole number from the first to the second.
    Number(i64, i64),
    /// At most so many numbers from 0 to 255.
    List(usize),
    /// At most so many whole numbers from the first to the second.
    Numbers(i32, i32, usize),
    /// The same, in a field that is left out if there is no number. It is the last of its game.
    Optional(i32, i32, usize),
    Word(Choices),
}

/// What stands in a field.
#[derive(Debug, Drop)]
pub enum Value {
    Number(i64),
    List(Seq<u8>),
    Numbers(Seq<i32>),
    Optional(Seq<i32>),
    Word(Word),
}

/// What is meant where a field is absent.
#[derive(Clone, Copy, Debug, PartialEq, Eq)]
pub enum Absent {
    Refused,
    Number(i64),
    Word(Word),
}

/// A field of a game, which each of its positions has.
pub type FieldRow = (Field, FieldKind);

/// A field of what is asked, and what is meant where it is absent.
pub type AskRow = (Field, FieldKind, Absent);
