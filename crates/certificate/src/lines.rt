//! The lines of a report, and the fields of a line.

ghost use Rattle.std.specs.Prelude.{◌≡◌, ◌==◌, ◌≤◌, ◌≤ℤ◌, length, option_map, Some, None, IfOk, IfSome};
ghost use Rattle.certificate.specs.declared.error.TextError.TheVariants as errors;
ghost use Rattle.certificate.specs.Readers.{Gives, lines_in, first_line, next_line, field, expected_word, natural, integer, naturals};
ghost use Rattle.certificate.specs.Reading.{natural_line, integer_line, ended};

use crate::parts::{Parts, has_parts};
use crate::{TextError, lists, numbers};
use seq::Seq;
use std::alloc::Global;
use std::marker::Model;

/// The lines that are still to be read, of which the last has no line feed behind it, and the number of the first.
#[derive(Drop)]
pub(crate) struct Lines<'a> {
    lines: Parts<'a>,
    number: u64,
}

impl<'a> Model for Lines<'a> {
    ghost use Rattle.std.specs.Prelude.{◌+◌, ◌<◌, ◌^◌, length};
    ghost use Rattle.certificate.specs.Unread.{Unread};

    ghost Value = { Unread };

    ghost view = { λ l. record { parts = l.lines; number = l.number } };

    ghost invariant = { λ l. l.number + length l.lines < 2 ^ 64 };
}

/// The fields of a line that are still to be read, and the line's number.
#[derive(Drop)]
pub(crate) struct Line<'a> {
    fields: Parts<'a>,
    number: u64,
}

impl<'a> Model for Line<'a> {
    ghost use Rattle.certificate.specs.Unread.{Unread};

    ghost Value = { Unread };

    ghost view = { λ l. record { parts = l.fields; number = l.number } };
}

impl<'a> Lines<'a> {
    pub(crate) fn new(text: &'a [u8]) -> Lines<'a>
        ensures { result ≡ record { parts = lines_in text.now; number = 1 } }
    {
        Lines {
            lines: Parts::new(text, b'\n'),
            number: 1,
        }
    }

    pub(crate) fn number(&self) -> u64
        ensures { result ≡ self.now.number }
    {
        self.number
    }

    /// The first line, where a line feed ends it.
    #[tactic(auto, unfolding(crate::specs::Readers::first_line))]
    pub(crate) fn first(&mut self) -> Option<&'a [u8]>
        ensures { option_map (λ line. (line.now, self.new)) result ≡ first_line self.old }
    {
        let line = self.lines.next()?;
        if self.lines.is_empty() {
            return None;
        }
        self.number += 1;
        Some(line)
    }

    /// The fields of the next line, from `least` to `most` of them and none empty.
    #[tactic(auto, unfolding(crate::specs::Readers::next_line))]
    pub(crate) fn line(&mut self, least: usize, most: usize) -> Result<Line<'a>, TextError>
        ensures { Gives (λ l. (l, self.new)) result (next_line least most self.old) }
    {
        let number = self.number;
        let text = self.first().ok_or(TextError::Short)?;
        if !has_parts(text, b' ', least, most) {
            return Err(TextError::Line { number });
        }
        Ok(Line {
            fields: Parts::new(text, b' '),
            number,
        })
    }

    /// A line of a word and a number from `low` to `high`.
    #[tactic(auto, unfolding(crate::specs::Reading::natural_line))]
    pub(crate) fn natural(&mut self, word: &[u8], low: u64, high: u64) -> Result<u64, TextError>
        ensures exact { Gives (λ n. (n, self.new)) result (natural_line word.now low high self.old) }
        ensures low { IfOk result (λ n. low ≤ n) }
        ensures high { IfOk result (λ n. n ≤ high) }
    {
        let mut line = self.line(2, 2)?;
        line.expect(word)?;
        line.natural(low, high)
    }

    /// A line of a word and a whole number from `low` to `high`.
    #[tactic(auto, unfolding(crate::specs::Reading::integer_line))]
    pub(crate) fn integer(&mut self, word: &[u8], low: i64, high: i64) -> Result<i64, TextError>
        ensures { Gives (λ z. (z, self.new)) result (integer_line word.now low high self.old) }
    {
        let mut line = self.line(2, 2)?;
        line.expect(word)?;
        line.integer(low, high)
    }

    /// Whether nothing stands behind the last line feed.
    pub(crate) fn is_over(&mut self) -> bool
        ensures { result ≡ ended self.old.parts }
    {
        match self.lines.next() {
            Some(text) => text.is_empty() && self.lines.is_empty(),
            None => false,
        }
    }
}

impl<'a> Line<'a> {
    pub(crate) fn number(&self) -> u64
        ensures { result ≡ self.now.number }
    {
        self.number
    }

    /// The fields that are still to be read.
    pub(crate) fn rest(&self) -> Parts<'a>
        ensures { result ≡ self.now.parts }
    {
        self.fields.copy()
    }

    /// The next field.
    #[tactic(auto, unfolding(crate::specs::Readers::field))]
    pub(crate) fn field(&mut self) -> Result<&'a [u8], TextError>
        ensures { Gives (λ f. (f.now, self.new)) result (field self.old) }
    {
        let number = self.number;
        self.fields.next().ok_or(TextError::Line { number })
    }

    /// Goes past a field with this word.
    #[tactic(auto, unfolding(crate::specs::Readers::expected_word))]
    pub(crate) fn expect(&mut self, word: &[u8]) -> Result<(), TextError>
        ensures { Gives (λ u. (u, self.new)) result (expected_word word.now self.old) }
    {
        let number = self.number;
        if self.field()? != word {
            return Err(TextError::Line { number });
        }
        Ok(())
    }

    /// A number from `low` to `high`.
    #[tactic(auto, unfolding(crate::specs::Readers::natural))]
    pub(crate) fn natural(&mut self, low: u64, high: u64) -> Result<u64, TextError>
        ensures exact { Gives (λ n. (n, self.new)) result (natural low high self.old) }
        ensures low { IfOk result (λ n. low ≤ n) }
        ensures high { IfOk result (λ n. n ≤ high) }
    {
        let number = self.number;
        let field = self.field()?;
        numbers::natural(field, low, high).ok_or(TextError::Number { number })
    }

    /// A whole number from `low` to `high`.
    #[tactic(auto, unfolding(crate::specs::Readers::integer))]
    pub(crate) fn integer(&mut self, low: i64, high: i64) -> Result<i64, TextError>
        ensures exact { Gives (λ z. (z, self.new)) result (integer low high self.old) }
        ensures low { IfOk result (λ z. low ≤ℤ z) }
        ensures high { IfOk result (λ z. z ≤ℤ high) }
    {
        let number = self.number;
        let field = self.field()?;
        numbers::integer(field, low, high).ok_or(TextError::Number { number })
    }

    /// The weights that all further fields spell.
    #[tactic(auto, unfolding(crate::specs::Readers::naturals))]
    pub(crate) fn weights(&mut self, alloc: Global) -> Result<Seq<u32>, TextError>
        ensures { Gives (λ ns. (ns, self.new)) result (naturals 0 1048576 self.old) }
    {
        let number = self.number;
        lists::weights(alloc, &mut self.fields)?.ok_or(TextError::Number { number })
    }

    /// The counts of turns that all further fields spell.
    #[tactic(auto, unfolding(crate::specs::Readers::naturals))]
    pub(crate) fn turns(&mut self, alloc: Global) -> Result<Seq<u64>, TextError>
        ensures { Gives (λ ns. (ns, self.new)) result (naturals 0 1099511627776 self.old) }
    {
        let number = self.number;
        lists::turns(alloc, &mut self.fields)?.ok_or(TextError::Number { number })
    }
}
