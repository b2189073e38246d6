//! The text of a report.

ghost use Rattle.std.specs.Prelude.{◌≡◌, [], ◌∷◌, ◌++◌, map, Ok, OnOk, IfOk, codes, decimal};
ghost use Rattle.text.specs.Texts.{Adds, line_text, text_of};
ghost use Rattle.certificate.specs.Ranges.{IsInRange};
ghost use Rattle.certificate.specs.Reading.{read_report};
ghost use Rattle.certificate.specs.Texts.{outcome_word, row_fields, sheet_lines, report_lines, report_text};

use crate::positions::add_position;
use crate::{Outcome, Report};
use plan_book::SheetRow;
use sim_game::NoMemory;
use std::alloc::Global;
use text::Text;

fn add_outcome(text: &mut Text, outcome: Outcome) -> Result<(), NoMemory>
    ensures { OnOk result (Adds text.old text.new (line_text (codes "outcome" ∷ outcome_word outcome ∷ []))) }
{
    match outcome {
        Outcome::Closed => text.word(b"outcome closed\n"),
        Outcome::Settled => text.word(b"outcome settled\n"),
        Outcome::Spent => text.word(b"outcome spent\n"),
        Outcome::Full => text.word(b"outcome full\n"),
        Outcome::Stopped => text.word(b"outcome stopped\n"),
    }
}

fn add_spent(text: &mut Text, spent: &[u64]) -> Result<(), NoMemory>
    ensures { OnOk result (Adds text.old text.new (line_text (codes "spent" ∷ map decimal spent.now))) }
{
    text.word(b"spent")?;
    text.each(b" ", spent)?;
    text.word(b"\n")
}

fn add_row(text: &mut Text, row: &SheetRow) -> Result<(), NoMemory>
    ensures { OnOk result (Adds text.old text.new (line_text (row_fields row.now))) }
{
    text.number(&row.key)?;
    text.next(&row.bound)?;
    text.each(b" ", row.weights.as_slice())?;
    text.word(b"\n")
}

#[tactic(auto, unfolding(crate::specs::Texts::sheet_lines))]
fn add_sheet(text: &mut Text, word: &[u8], rows: &[SheetRow]) -> Result<(), NoMemory>
    ensures { OnOk result (Adds text.old text.new (text_of (sheet_lines word.now rows.now))) }
{
    text.named(word, &rows.len())?;
    for row in rows {
        add_row(text, row)?;
    }
    Ok(())
}

#[tactic(auto, unfolding(crate::specs::Texts::report_lines))]
fn add_report(alloc: Global, text: &mut Text, r: &Report) -> Result<(), NoMemory>
    ensures { OnOk result (Adds text.old text.new (report_text r.now)) }
{
    text.named(b"dosolve report", &r.version())?;
    add_position(alloc, text, &r.position)?;
    text.named(b"weight", &r.weight)?;
    text.named(b"turns", &r.turns)?;
    text.named(b"asked", &r.asked)?;
    text.named(b"resolution", &r.resolution)?;
    add_outcome(text, r.outcome)?;
    text.named(b"lower", &r.lower)?;
    text.named(b"upper", &r.upper)?;
    add_spent(text, r.spent.as_slice())?;
    add_sheet(text, b"one", r.one.rows.as_slice())?;
    add_sheet(text, b"two", r.two.rows.as_slice())?;
    text.word(b"end\n")
}

/// The one text of the report, from which it is read again.
pub fn write(alloc: Global, r: &Report) -> Result<Vec<u8>, NoMemory>
    requires { IsInRange r.now }
    ensures text { IfOk result (λ v. v.items ≡ report_text r.now) }
    ensures again { IfOk result (λ v. read_report v.items ≡ Ok r.now) }
{
    let mut text = Text::new(alloc);
    add_report(alloc, &mut text, r)?;
    Ok(text.into_bytes())
}
