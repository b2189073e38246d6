//! The rows of a sheet.

ghost use Rattle.std.specs.Prelude.{◌≡◌, ◌≤◌, length, None, IfOk};
ghost use Rattle.certificate.specs.Reading.{Gives, row_line, rises, next_row, rows, sheet};

use crate::TextError;
use crate::lines::Lines;
use crate::version::{most_row_fields, most_rows};
use plan_book::SheetRow;
use seq::Seq;
use sim_game::Limits;
use std::alloc::Global;

fn is_above(last: Option<u64>, key: u64) -> bool
    ensures { result ≡ rises last key }
{
    match last {
        None => true,
        Some(before) => before < key,
    }
}

impl Lines<'_> {
    #[tactic(auto, unfolding(crate::specs::Reading::row_line))]
    fn row(&mut self, alloc: Global, limits: Limits) -> Result<SheetRow, TextError>
        ensures { Gives (λ row. (row, self.new)) result (row_line limits self.old) }
    {
        let mut line = self.line(3, most_row_fields(limits))?;
        let key = line.natural(0, 9_223_372_036_854_775_807)?;
        let bound = line.integer(-4_000_000_000, 4_000_000_000)?;
        let weights = line.weights(alloc)?;
        Ok(SheetRow {
            key,
            bound,
            weights,
        })
    }

    #[tactic(auto, unfolding(crate::specs::Reading::next_row))]
    fn next_row(
        &mut self,
        alloc: Global,
        limits: Limits,
        last: Option<u64>,
    ) -> Result<SheetRow, TextError>
        ensures { Gives (λ row. (row, self.new)) result (next_row limits last self.old) }
    {
        let number = self.number();
        let row = self.row(alloc, limits)?;
        if !is_above(last, row.key) {
            return Err(TextError::Order { number });
        }
        Ok(row)
    }

    fn rows(
        &mut self,
        alloc: Global,
        limits: Limits,
        count: u64,
    ) -> Result<Vec<SheetRow>, TextError>
        ensures { Gives (λ v. (v.items, self.new)) result (rows limits count None self.old) }
    {
        let mut rows = Vec::new(alloc);
        let mut last = None;
        for _i in 0..count {
            let row = match self.next_row(alloc, limits, last) {
                Ok(row) => row,
                Err(e) => return Err(e),
            };
            last = Some(row.key);
            rows.push(row)?;
        }
        Ok(rows)
    }

    /// The line that counts the rows of a sheet, and the rows.
    #[tactic(auto, unfolding(crate::specs::Reading::sheet))]
    pub(crate) fn sheet(
        &mut self,
        alloc: Global,
        limits: Limits,
        word: &[u8],
    ) -> Result<Seq<SheetRow>, TextError>
        ensures { Gives (λ rows. (rows, self.new)) result (sheet limits word.now self.old) }
    {
        let count = self.natural(word, 0, most_rows(limits))?;
        let rows = self.rows(alloc, limits, count)?;
        Ok(Seq::from_vec(rows))
    }
}
