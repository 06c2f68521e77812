// Facts that are taken out of an instance.
ghost use Rattle.std.specs.Prelude.{◌≡◌, ◌<◌, [], IfOk, length, slice_index_or};
ghost use Rattle.dx_hom.specs.View.{all_there, gone_at, marked};

use dx_instance::Instance;
use std::alloc::{AllocError, Global};
use std::marker::Model;

/// Which facts of an instance are taken out.
#[derive(Drop)]
pub struct Gone {
    tables: Vec<Vec<bool>>,
}

impl Model for Gone {
    ghost use Rattle.std.specs.Prelude.{List, Bool, map};

    ghost Value = { List (List Bool) };

    ghost view = { λ a. map (λ t. t.items) a.tables.items };
}

impl Gone {
    /// None. It takes no memory.
    pub fn none(alloc: Global) -> Gone
        ensures { result ≡ [] }
    {
        Gone {
            tables: Vec::new(alloc),
        }
    }

    /// None, with a mark for each fact of the instance, so that each of them can be taken out.
    ///
    /// # Errors
    ///
    /// `AllocError` if there is no memory.
    pub fn none_of(alloc: Global, instance: &Instance) -> Result<Gone, AllocError>
        ensures { IfOk result (λ g. g ≡ all_there instance.now) }
    {
        let mut tables = Vec::new(alloc);
        for table in 0..instance.tables() {
            let marks = vec![in alloc; false; instance.count(table) as usize]?;
            tables.push(marks)?;
        }
        Ok(Gone { tables })
    }

    /// Whether the fact at this place is taken out.
    pub fn has(&self, table: u32, place: u32) -> bool
        ensures { result ≡ gone_at self.now table place }
    {
        match self.tables.get(table as usize) {
            None => false,
            Some(places) => match places.get(place as usize) {
                None => false,
                Some(gone) => *gone,
            },
        }
    }

    /// Takes out the fact at this place.
    pub fn take_out(&mut self, table: u32, place: u32)
        requires table { table < length self.old }
        requires place { place < length (slice_index_or self.old table []) }
        ensures { self.new ≡ marked self.old table place }
    {
        self.tables[table as usize][place as usize] = true;
    }
}

/// What is left of an instance without the facts that are gone.
#[derive(Drop)]
pub struct Left<'a> {
    pub instance: &'a Instance,
    pub gone: &'a Gone,
}
