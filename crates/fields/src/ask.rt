//! What is asked of a search.

ghost use Rattle.std.specs.Prelude.{◌≡◌};
ghost use Rattle.sim_game.specs.declared.Limits.TheVariants.{Wide};
ghost use Rattle.fields.specs.Asks.{method_of, limits_with, search_of, asked_kinds, ask_with};
ghost use Rattle.fields.specs.Fields.{AllFit};
ghost use Rattle.fields.specs.Ranges.{IsAskInRange};

use crate::{Absent, AskRow, Choices, Field, FieldKind, Value, Word};
use sim_game::Limits;

/// How the matrix game of a state is solved.
#[derive(Clone, Copy, Debug, PartialEq, Eq)]
pub enum StageMethod {
    /// By rounds of regret matching plus, as many as the total of the weights.
    Regret,
    /// By a linear program in floats, whose answer is tested in whole numbers, and by rounds where it fails the test.
    Linear,
}

impl StageMethod {
    fn of_word(word: Word) -> StageMethod
        ensures { result ≡ method_of word }
    {
        match word {
            Word::Linear => StageMethod::Linear,
            _ => StageMethod::Regret,
        }
    }

    /// The limits of the positions whose stages are solved so.
    pub fn limits(self) -> Limits
        ensures { result ≡ limits_with self }
    {
        match self {
            StageMethod::Regret => Limits::Narrow,
            StageMethod::Linear => Limits::Wide,
        }
    }
}

/// How the game is searched.
#[derive(Clone, Copy, Debug, PartialEq, Eq)]
pub enum SearchMethod {
    /// By double-oracle alpha-beta.
    Oracle,
    /// By induction over all states, children first; by double-oracle alpha-beta where that is not enough.
    Induction,
}

impl SearchMethod {
    fn of_word(word: Word) -> SearchMethod
        ensures { result ≡ search_of word }
    {
        match word {
            Word::Induction => SearchMethod::Induction,
            _ => SearchMethod::Oracle,
        }
    }
}

/// What is asked of the search.
#[derive(Clone, Copy, Debug, PartialEq, Eq)]
pub struct Ask {
    /// The gap between the bounds that is narrow enough, in millionths of a payoff.
    pub gap: i64,
    /// What the weights of a plan's moves sum to.
    pub weight: u32,
    /// How many stages each worker may solve.
    pub turns: u64,
    /// How many states each side's serial search may visit.
    pub visits: u64,
    /// How many states the board has room for.
    pub rows: u32,
    pub workers: u32,
    /// How matrix games are solved.
    pub stages: StageMethod,
    pub search: SearchMethod,
}

/// The least that can be asked, with the default of each field that has one.
pub const LEAST: Ask = Ask {
    gap: 0,
    weight: 8192,
    turns: 0,
    visits: 0,
    rows: 1,
    workers: 1,
    stages: StageMethod::Regret,
    search: SearchMethod::Oracle,
};

/// How many fields tell what is asked.
pub const ASKED: usize = 8;

const GAP: AskRow = (
    Field::Gap,
    FieldKind::Number(0, 8_000_000_000),
    Absent::Refused,
);

const WEIGHT: AskRow = (
    Field::Weight,
    FieldKind::Number(8192, 1_048_576),
    Absent::Refused,
);

const TURNS: AskRow = (
    Field::Turns,
    FieldKind::Number(0, 1_099_511_627_776),
    Absent::Refused,
);

const VISITS: AskRow = (
    Field::Visits,
    FieldKind::Number(0, 1_099_511_627_776),
    Absent::Refused,
);

const ROWS: AskRow = (
    Field::Rows,
    FieldKind::Number(1, 16_777_216),
    Absent::Refused,
);

const NARROW_ROWS: AskRow = (
    Field::Rows,
    FieldKind::Number(1, 1_048_576),
    Absent::Refused,
);

const WORKERS: AskRow = (Field::Workers, FieldKind::Number(1, 16), Absent::Refused);

const STAGES: AskRow = (
    Field::Stages,
    FieldKind::Word(Choices::Stages),
    Absent::Word(Word::Regret),
);

const SEARCH: AskRow = (
    Field::Search,
    FieldKind::Word(Choices::Search),
    Absent::Word(Word::Oracle),
);

/// These fields, in the order of refusals.
pub const ASK: [AskRow; ASKED] = [GAP, WEIGHT, TURNS, VISITS, ROWS, WORKERS, STAGES, SEARCH];

/// The same within the narrow limits.
pub const NARROW_ASK: [AskRow; ASKED] = [
    GAP,
    WEIGHT,
    TURNS,
    VISITS,
    NARROW_ROWS,
    WORKERS,
    STAGES,
    SEARCH,
];

/// Does the same with each of such fields.
#[macro_export]
macro_rules! each_asked {
    ($fields:expr, $row:ident => $then:expr) => {{
        let [a, b, c, d, e, f, g, h] = $fields;
        [
            { let $row = a; $then },
            { let $row = b; $then },
            { let $row = c; $then },
            { let $row = d; $then },
            { let $row = e; $then },
            { let $row = f; $then },
            { let $row = g; $then },
            { let $row = h; $then },
        ]
    }};
}

impl Ask {
    /// What these values of the fields ask.
    pub fn with_values(values: [Value; ASKED]) -> Ask
        requires { AllFit (asked_kinds Wide) values }
        ensures exact { result ≡ ask_with values }
        ensures in_range { IsAskInRange result }
    {
        let [a, b, c, d, e, f, g, h] = values;
        match (a, b, c, d, e, f, g, h) {
            (
                Value::Number(gap),
                Value::Number(weight),
                Value::Number(turns),
                Value::Number(visits),
                Value::Number(rows),
                Value::Number(workers),
                Value::Word(stages),
                Value::Word(search),
            ) => Ask {
                gap,
                weight: weight as u32,
                turns: turns as u64,
                visits: visits as u64,
                rows: rows as u32,
                workers: workers as u32,
                stages: StageMethod::of_word(stages),
                search: SearchMethod::of_word(search),
            },
            _ => unreachable!(),
        }
    }
}
