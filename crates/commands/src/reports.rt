//! The texts of `check`.

ghost use Rattle.std.specs.Prelude.{◌≡◌, ◌++◌, codes, OnOk, IfOk};
ghost use Rattle.std.specs.Fmt.{signed_decimal};
ghost use Rattle.text.specs.Texts.{Adds};
ghost use Rattle.certificate.specs.Texts.{outcome_word};
ghost use Rattle.commands.specs.Reports.{accepted_text, unread_text, position_text, row_text, why_text, fault_words};

use certificate::{Outcome, Report, TextError};
use checker::Why;
use position::InputError;
use sim_game::{NoMemory, Side};
use std::alloc::Global;
use text::Text;

/// Why a report is refused.
#[derive(Clone, Copy, Debug, PartialEq, Eq)]
pub enum ReportFault {
    /// There are more bytes than a report may have.
    TooLong,
    /// The bytes are no report.
    Text(TextError),
    /// The position breaks a rule of its game.
    Position(InputError),
    /// The checker refuses the report.
    Refused(Why),
}

/// The line of a report that is accepted.
pub(crate) fn accepted_text(alloc: Global, report: &Report) -> Result<Vec<u8>, NoMemory>
    ensures { IfOk result (λ v. v.items ≡ accepted_text report.now) }
{
    let mut text = Text::new(alloc);
    text.word(b"accepted ")?;
    text.number(&report.lower)?;
    text.word(b" ")?;
    text.number(&report.upper)?;
    text.word(b" ")?;
    outcome(&mut text, report.outcome)?;
    text.word(b"\n")?;
    Ok(text.into_bytes())
}

pub(crate) fn outcome(text: &mut Text, outcome: Outcome) -> Result<(), NoMemory>
    ensures { OnOk result (Adds text.old text.new (outcome_word outcome)) }
{
    match outcome {
        Outcome::Closed => text.word(b"closed"),
        Outcome::Settled => text.word(b"settled"),
        Outcome::Spent => text.word(b"spent"),
        Outcome::Full => text.word(b"full"),
        Outcome::Stopped => text.word(b"stopped"),
    }
}

pub(crate) fn words(text: &mut Text, fault: ReportFault) -> Result<(), NoMemory>
    ensures { OnOk result (Adds text.old text.new (fault_words fault)) }
{
    match fault {
        ReportFault::TooLong => text.word(b"report too long"),
        ReportFault::Text(error) => {
            text.word(b"report ")?;
            unread(text, error)
        }
        ReportFault::Position(error) => {
            text.word(b"report ")?;
            of_position(text, error)
        }
        ReportFault::Refused(why) => {
            text.word(b"refused ")?;
            reason(text, why)
        }
    }
}

fn of_position(text: &mut Text, error: InputError) -> Result<(), NoMemory>
    ensures { OnOk result (Adds text.old text.new (position_text error)) }
{
    text.word_number(b"position ", &error.code())
}

fn unread(text: &mut Text, error: TextError) -> Result<(), NoMemory>
    ensures { OnOk result (Adds text.old text.new (unread_text error)) }
{
    match error {
        TextError::Head => text.word(b"head"),
        TextError::Line { number } => text.word_number(b"line ", &number),
        TextError::Number { number } => text.word_number(b"number ", &number),
        TextError::Order { number } => text.word_number(b"order ", &number),
        TextError::Short => text.word(b"short"),
        TextError::Tail => text.word(b"tail"),
        TextError::NoMemory => text.word(b""),
    }
}

fn reason(text: &mut Text, why: Why) -> Result<(), NoMemory>
    ensures { OnOk result (Adds text.old text.new (why_text why)) }
{
    match why {
        Why::Weights { side, key } => of_row(text, b"weights ", side, key),
        Why::Bound {
            side,
            key,
            reply,
            sum,
            need,
        } => {
            of_row(text, b"bound ", side, key)?;
            text.next(&reply)?;
            text.next(&sum)?;
            text.next(&need)
        }
        Why::Idle { side, key } => of_row(text, b"idle ", side, key),
        Why::Root { side } => text.word_side(b"root ", side),
        Why::Outside { side, key } => of_row(text, b"outside ", side, key),
        Why::OutcomeWrong => text.word(b"outcome"),
        Why::ResolutionWrong { want } => resolution(text, &want),
    }
}

fn resolution(text: &mut Text, want: &i64) -> Result<(), NoMemory>
    ensures { OnOk result (Adds text.old text.new (codes "resolution " ++ signed_decimal want.now)) }
{
    text.word_number(b"resolution ", want)
}

fn of_row(text: &mut Text, words: &[u8], side: Side, key: u64) -> Result<(), NoMemory>
    ensures { OnOk result (Adds text.old text.new (words.now ++ row_text side key)) }
{
    text.word_side(words, side)?;
    text.word_number(b" ", &key)
}
