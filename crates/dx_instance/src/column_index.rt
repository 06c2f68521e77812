// The rows of a table by the number in one column.
ghost use Rattle.std.specs.Prelude.{◌≡◌, ◌<◌, ℕ, List, IfOk};
ghost use Rattle.dx_instance.specs.Indexes.{IsColumnIndex, IsNextWithNumber};

use crate::cells::Rows;
use std::alloc::{AllocError, Global};

/// For each row the number in one column and the place of the row, ascending.
#[derive(Drop)]
pub struct ColumnIndex {
    pub column: u32,
    pub entries: Vec<(u32, u32)>,
}

impl ColumnIndex {
    /// The index of a column of these rows.
    pub fn new(alloc: Global, rows: &Rows, column: u32) -> Result<ColumnIndex, AllocError>
        requires { column < rows.now.width }
        ensures index { IfOk result (IsColumnIndex rows.now.rows) }
        ensures column { IfOk result (λ x. x.column ≡ column) }
    {
        let mut entries = Vec::with_capacity(alloc, rows.count() as usize)?;
        for place in 0..rows.count() {
            entries.push((rows.row(place)[column as usize], place))?;
        }
        entries.sort_unstable();
        Ok(ColumnIndex { column, entries })
    }

    /// The least place from `from` on whose row has this number in the column.
    pub fn next(&self, number: u32, from: u32) -> Option<u32>
        ensures { (rows : List (List ℕ)) → IsColumnIndex rows self.now → IsNextWithNumber rows self.now.column number from result }
    {
        let first = self
            .entries
            .partition_point(|e| e.0 < number || (e.0 == number && e.1 < from));
        if first < self.entries.len() && self.entries[first].0 == number {
            Some(self.entries[first].1)
        } else {
            None
        }
    }
}
