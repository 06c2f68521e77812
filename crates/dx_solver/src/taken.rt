// Rows that are taken out.
ghost use Rattle.std.specs.Prelude.{◌≡◌, ◌<◌, [], true, false, IfOk, length, slice_index_or};
ghost use Rattle.dx_solver.specs.Marks.{is_out, none_out, with_mark};

use dx_instance::Numbers;
use std::alloc::{AllocError, Global};
use std::marker::Model;

/// Which rows of tables are taken out.
#[derive(Drop)]
pub struct Taken {
    tables: Vec<Vec<bool>>,
}

impl Model for Taken {
    ghost use Rattle.std.specs.Prelude.{List, Bool, map};

    ghost Value = { List (List Bool) };

    ghost view = { λ a. map (λ t. t.items) a.tables.items };
}

impl Taken {
    /// None, with no marks at all. It takes no memory.
    pub fn none(alloc: Global) -> Taken
        ensures { result ≡ [] }
    {
        Taken {
            tables: Vec::new(alloc),
        }
    }

    /// None, with a mark for each row, so that each of them can be taken out.
    ///
    /// # Errors
    ///
    /// `AllocError` if there is no memory.
    pub fn none_of(alloc: Global, numbers: &Numbers<'_>) -> Result<Taken, AllocError>
        ensures { IfOk result (λ taken. taken ≡ none_out numbers.now.tables) }
    {
        let mut tables = Vec::new(alloc);
        for table in 0..numbers.tables() {
            let marks = vec![in alloc; false; numbers.count(table) as usize]?;
            tables.push(marks)?;
        }
        Ok(Taken { tables })
    }

    /// Whether the row at this place is taken out.
    pub fn has(&self, table: u32, place: u32) -> bool
        ensures { result ≡ is_out self.now table place }
    {
        match self.tables.get(table as usize) {
            None => false,
            Some(places) => match places.get(place as usize) {
                None => false,
                Some(out) => *out,
            },
        }
    }

    /// Takes out the row at this place.
    pub fn take_out(&mut self, table: u32, place: u32)
        requires table { table < length self.old }
        requires place { place < length (slice_index_or self.old table []) }
        ensures { self.new ≡ with_mark self.old table place true }
    {
        self.tables[table as usize][place as usize] = true;
    }

    /// Puts the row at this place back.
    pub fn put_back(&mut self, table: u32, place: u32)
        requires table { table < length self.old }
        requires place { place < length (slice_index_or self.old table []) }
        ensures { self.new ≡ with_mark self.old table place false }
    {
        self.tables[table as usize][place as usize] = false;
    }
}
