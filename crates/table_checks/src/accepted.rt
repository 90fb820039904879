// What is done with an accepted table.
ghost use Rattle.std.specs.Prelude.{◌≡◌, ◌/◌, length, Ok, Err, MatchResult};
ghost use Rattle.bus_model.specs.Frame.{row};
ghost use Rattle.table_checks.specs.Columns.{columns};
ghost use Rattle.table_checks.specs.Checks.{loaded_check};
ghost use Rattle.table_checks.specs.Table.{frames};

use crate::{ROW, Refusal, Table, check_loaded, frame};
use bus_model::Frame;

impl<'a> Table<'a> {
    // Checks lengths, and then rows in memory.
    pub fn check(lengths: [[u32; 9]; 2], rows: &'a [u32]) -> Result<Self, Refusal>
        ensures { MatchResult result (λ table. (table.lengths ≡ lengths) × (table.rows ≡ rows.entry) × (loaded_check lengths rows.entry.now ≡ Ok tt)) (λ refusal. loaded_check lengths rows.entry.now ≡ Err refusal) }
    {
        check_loaded(lengths, rows)?;
        Ok(Table { lengths, rows })
    }

    // How many rows it has.
    pub fn count(&self) -> usize
        ensures { result ≡ length self.now.rows.now / columns }
    {
        self.rows.len() / ROW
    }

    // The frame in row i, all zeros where there is no such row.
    pub fn frame(&self, i: usize) -> Frame
        ensures { result ≡ row (frames self.now) i }
    {
        frame(self.lengths, self.rows, i)
    }
}
