// Tables of numbers with what determines what in them.
ghost use Rattle.std.specs.Prelude.{◌≡◌, ◌<◌, [], length, slice_index_or};

use dx_base::Items;
use dx_instance::Rows;
use std::marker::Model;

/// Columns of a table that determine others.
#[derive(Drop)]
pub struct Columns {
    pub left: Items<u32>,
    pub right: Items<u32>,
}

/// The rows of a table, as they lie, and its determinations. A contract sees the list of the rows.
#[derive(Drop)]
pub struct NumberTable<'a> {
    rows: &'a Rows,
    determinations: Items<Columns>,
}

impl<'a> Model for NumberTable<'a> {
    ghost use Rattle.dx_chase.specs.Tables.{ChaseTable};

    ghost Value = { ChaseTable };

    ghost view = { λ t. record { rows = t.rows.now.rows; determinations = t.determinations } };
}

impl<'a> NumberTable<'a> {
    pub fn new(rows: &'a Rows, determinations: Items<Columns>) -> NumberTable<'a>
        ensures rows { result.rows ≡ rows.now.rows }
        ensures determinations { result.determinations ≡ determinations }
    {
        NumberTable {
            rows,
            determinations,
        }
    }

    /// How many rows there are.
    pub fn count(&self) -> u32
        ensures { result ≡ length self.now.rows }
    {
        let rows = self.rows;
        rows.count()
    }

    /// The numbers of a row, lent.
    pub fn row(&self, place: u32) -> &[u32]
        requires { place < length self.now.rows }
        ensures { result.now ≡ slice_index_or self.now.rows place [] }
    {
        let rows = self.rows;
        rows.row(place)
    }

    /// What determines what, lent.
    pub fn determinations(&self) -> &[Columns]
        ensures { result.now ≡ self.now.determinations }
    {
        self.determinations.items()
    }
}
