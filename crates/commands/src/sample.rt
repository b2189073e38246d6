//! The sample of a number: a position of Goofspiel, and the line that tells how it is solved.

ghost use Rattle.std.specs.Prelude.{◌≡◌, ◌∷◌, false, pos, length, map, codes, decimal, IfOk, OnOk};
ghost use Rattle.goofspiel.specs.Position.{IsSettingOf};
ghost use Rattle.certificate.specs.Ranges.{IsInRange};
ghost use Rattle.certificate.specs.Outcomes.{gap_of};
ghost use Rattle.text.specs.Texts.{Adds, line_text};
ghost use Rattle.commands.specs.Finding.{IsFinder};
ghost use Rattle.commands.specs.Runs.{status_of, IsSampled};
ghost use Rattle.commands.specs.Samples.{sample_cards, sample_prizes, sample_position, bounds_words, sample_line};

use crate::reports::outcome;
use crate::run::{Answer, written};
use crate::solve::status_of;
use certificate::{Ask, LEAST, Pay, PositionText, Report};
use goofspiel::Goofspiel;
use lazy_workers::Found;
use position::AnyGame;
use seq::Seq;
use sim_game::NoMemory;
use solution::report_of;
use std::alloc::Global;
use text::Text;

/// The cards of each side.
const CARDS: [u8; 5] = [1, 2, 3, 4, 5];

/// What is asked of the search of each sample.
const ASK: Ask = Ask {
    gap: 0,
    weight: 8192,
    turns: 262_144,
    visits: 40_000,
    rows: 65_536,
    workers: 1,
    ..LEAST
};

/// The answer to the number of a sample, whose search nothing stops.
#[tactic(auto, using(crate::proofs::SampleLemmas::sample_fine, crate::proofs::SampleLemmas::asks))]
pub(crate) fn sampled<F: FnOnce(AnyGame, Ask) -> Result<Found, NoMemory>>(
    alloc: Global,
    find: F,
    number: u32,
) -> Result<Answer, NoMemory>
    requires { IsFinder false (F.pre find) (F.post find) }
    ensures { IfOk result (λ a. IsSampled number a.status a.text) }
{
    let found = find(AnyGame::Goofspiel(sample_game(number)), ASK)?;
    let position = sample_position(alloc, number)?;
    let solved = report_of(alloc, found, position, &ASK)?;
    told(alloc, number, &solved.report)
}

/// The cards, rotated left by the number.
fn sample_prizes(number: u32) -> [u8; 5]
    ensures { result ≡ sample_prizes number }
{
    match number % 5 {
        0 => [1, 2, 3, 4, 5],
        1 => [2, 3, 4, 5, 1],
        2 => [3, 4, 5, 1, 2],
        3 => [4, 5, 1, 2, 3],
        _ => [5, 1, 2, 3, 4],
    }
}

/// The game of the sample.
#[tactic(auto, using(crate::proofs::SampleLemmas::no_fault))]
pub(crate) fn sample_game(number: u32) -> Goofspiel
    ensures { IsSettingOf sample_cards sample_cards (sample_prizes number) (pos 0) Pay.Margin result.setting }
{
    match Goofspiel::new(&CARDS, &CARDS, &sample_prizes(number), 0, Pay::Margin) {
        Ok(game) => game,
        Err(_) => unreachable!(),
    }
}

fn sample_position(alloc: Global, number: u32) -> Result<PositionText, NoMemory>
    ensures { IfOk result (λ text. text ≡ sample_position number) }
{
    let one = CARDS.to_vec(alloc)?;
    let two = CARDS.to_vec(alloc)?;
    let prizes = sample_prizes(number).to_vec(alloc)?;
    Ok(PositionText::Goofspiel {
        one: Seq::from_vec(one),
        two: Seq::from_vec(two),
        prizes: Seq::from_vec(prizes),
        score: 0,
        pay: Pay::Margin,
    })
}

/// The answer that tells of the report of one worker.
fn told(alloc: Global, number: u32, report: &Report) -> Result<Answer, NoMemory>
    requires range { IsInRange report.now }
    requires worker { length report.now.spent ≡ 1 }
    ensures { IfOk result (λ a. (a.status ≡ status_of report.now.outcome) × (a.text ≡ sample_line number report.now)) }
{
    let mut text = Text::new(alloc);
    add_line(&mut text, number, report)?;
    Ok(written(status_of(report.outcome), text))
}

fn add_line(text: &mut Text, number: u32, report: &Report) -> Result<(), NoMemory>
    requires range { IsInRange report.now }
    requires worker { length report.now.spent ≡ 1 }
    ensures { OnOk result (Adds text.old text.new (sample_line number report.now)) }
{
    text.word_number(b"sample ", &number)?;
    text.word(b" ")?;
    add_bounds(text, report)?;
    text.word(b" ")?;
    outcome(text, report.outcome)?;
    text.word(b" ")?;
    add_spent(text, &report.spent)
}

fn add_bounds(text: &mut Text, report: &Report) -> Result<(), NoMemory>
    requires { IsInRange report.now }
    ensures { OnOk result (Adds text.old text.new (bounds_words report.now)) }
{
    text.word_number(b"lower ", &report.lower)?;
    text.word_number(b" upper ", &report.upper)?;
    text.word_number(b" gap ", &gap(report))
}

/// The turns that one worker has spent, and the line's end.
fn add_spent(text: &mut Text, spent: &Seq<u64>) -> Result<(), NoMemory>
    requires { length spent.now ≡ 1 }
    ensures { OnOk result (Adds text.old text.new (line_text (codes "spent" ∷ map decimal spent.now))) }
{
    match spent.as_slice() {
        [turns] => {
            text.word_number(b"spent ", turns)?;
            text.word(b"\n")
        }
        _ => unreachable!(),
    }
}

fn gap(report: &Report) -> i64
    requires { IsInRange report.now }
    ensures { result ≡ gap_of report.now }
{
    report.upper - report.lower
}
