// The first places at which rows have their numbers.
ghost use Rattle.std.specs.Prelude.{◌≡◌, IfOk};
ghost use Rattle.dx_base.specs.Members.{Each};
ghost use Rattle.dx_cover_fold.specs.Codes.{RowHasColumn};
ghost use Rattle.dx_cover_fold.specs.Found.{Indexes, first_row_of};

use crate::number_at::NumberAt;
use crate::numbers_said::numbers_said;
use dx_instance::Rows;
use smallvec::SmallVec;
use std::alloc::{AllocError, Global};
use std::collections::HashMap;

/// The first place of each list of numbers.
#[derive(Drop)]
pub(crate) struct Index {
    pub(crate) places: HashMap<SmallVec<u32, 6>, u32>,
}

impl Index {
    /// The first places of the numbers that a plan tells of the rows.
    ///
    /// # Errors
    ///
    /// `AllocError` if there is no memory.
    pub(crate) fn build(alloc: Global, rows: &Rows, plan: &[NumberAt]) -> Result<Index, AllocError>
        requires { Each plan.now (RowHasColumn rows.now.width) }
        ensures { IfOk result (Indexes rows.now.rows plan.now) }
    {
        let mut places = HashMap::with_capacity(alloc, rows.count() as usize)?;
        for place in 0..rows.count() {
            let numbers = numbers_said(alloc, rows.row(place), plan)?;
            if places.get(&numbers).is_none() {
                places.insert(numbers, place)?;
            }
        }
        Ok(Index { places })
    }

    /// The first place of a list of numbers, if it has one.
    pub(crate) fn first(&self, numbers: &SmallVec<u32, 6>) -> Option<u32>
        ensures { result ≡ first_row_of self.now numbers.now.items }
    {
        self.places.get(numbers).copied()
    }
}
