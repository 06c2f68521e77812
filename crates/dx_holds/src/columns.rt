// Rows that have the same values in columns.
ghost use Rattle.std.specs.Prelude.{◌<◌, ℕ, length};
ghost use Rattle.dx_base.specs.Members.{◌∈◌};
ghost use Rattle.dx_instance.specs.Stored.{rows_of, table_at};

use dx_instance::Instance;
use std::slice::from_ref;

/// Columns of a row of an instance, by its table and its place.
#[derive(Clone, Copy)]
pub(crate) struct Seen<'a> {
    pub instance: &'a Instance,
    pub table: u32,
    pub place: u32,
    pub columns: &'a [u32],
    ghost stands: { place < length (rows_of instance.now table) },
    ghost within: { (c : ℕ) → c ∈ columns.now → c < (table_at instance.now table).width },
}

impl<'a> Seen<'a> {
    ghost use Rattle.std.specs.Prelude.{◌≡◌, ◌↔◌, IsTrue};
    ghost use Rattle.dx_instance.specs.Places.{IsFirstWith};
    ghost use Rattle.dx_holds.specs.Columns.{RowsAgree, seen_values};

    /// Whether the row at a place has in these columns what this row has in its own.
    pub(crate) fn agrees(&self, table: u32, columns: &[u32], place: u32) -> bool
        requires columns { (c : ℕ) → c ∈ columns.now → c < (table_at self.now.instance.now table).width }
        requires place { place < length (rows_of self.now.instance.now table) }
        requires lengths { length self.now.columns.now ≡ length columns.now }
        ensures { IsTrue result
            ↔ RowsAgree self.now.instance.now self.now.table self.now.place self.now.columns.now table columns.now place }
    {
        let instance = self.instance;
        columns.iter().zip(self.columns).all(|(column, own)| {
            instance
                .cell(table, place, *column)
                .is(instance.cell(self.table, self.place, *own))
        })
    }

    /// The least place from `from` on whose row has in these columns what this row has in its own. It goes by the first of the
    /// columns that has an index, and else by the first.
    pub(crate) fn next_like(&self, table: u32, columns: &[u32], from: u32) -> Option<u32>
        requires table { table < length self.now.instance.now }
        requires columns { (c : ℕ) → c ∈ columns.now → c < (table_at self.now.instance.now table).width }
        requires lengths { length self.now.columns.now ≡ length columns.now }
        ensures { IsFirstWith self.now.instance.now table columns.now (seen_values self.now) from result }
    {
        let instance = self.instance;
        prove!(table < instance.tables());
        if columns.is_empty() {
            return instance.with_columns(table, &[], &[], from);
        }
        let at = instance.indexed_among(table, columns);
        let seen = self.columns;
        let value = instance.cell(self.table, self.place, seen[at]);
        let mut next = from;
        while let Some(place) = instance.with_columns(
            table,
            from_ref(&columns[at]),
            from_ref(value),
            next,
        ) {
            if self.agrees(table, columns, place) {
                return Some(place);
            }
            next = place + 1;
        }
        None
    }
}
