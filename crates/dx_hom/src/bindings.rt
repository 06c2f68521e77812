// Nulls that were found, looked up by buckets.
ghost use Rattle.std.specs.Prelude.{◌≡◌, ◌<◌, ◌-◌, [], ◌∷◌, ◌++◌, IfOk, MatchOption, length, take};
ghost use Rattle.dx_base.specs.Members.{◌∈◌};
ghost use Rattle.dx_hom.specs.Bound.{bucket, found_at};
ghost use Rattle.dx_hom.specs.Narrowing.{found_nulls};

use crate::matching::Found;
use dx_model::NullId;
use std::alloc::{AllocError, Global};
use std::marker::Model;

/// Nulls that were found, each with a cell that holds its value, in order. A contract sees for how many there is room, and
/// their list. A null is looked up in its bucket: `heads` has for each bucket one more than its last place, `before` for each
/// place one more than the place before it in its bucket, and 0 is none.
#[derive(Drop)]
pub(crate) struct Bindings {
    room: u32,
    cells: Vec<Found>,
    heads: Vec<u32>,
    before: Vec<u32>,
}

impl Model for Bindings {
    ghost use Rattle.std.specs.Prelude.{◌≤◌, vec_capacity};
    ghost use Rattle.dx_hom.specs.Bound.{LinksBoundNulls, BindingState};

    ghost Value = { BindingState };

    ghost view = { λ b. record { room = b.room; cells = b.cells.items } };

    ghost invariant = { λ b. (b.room ≤ vec_capacity b.cells) × (b.room ≤ vec_capacity b.before)
        × LinksBoundNulls b.cells.items b.heads.items b.before.items };
}

// The bucket of a null among so many.
fn bucket_of(null: NullId, buckets: usize) -> usize
    requires { 0 < buckets }
    ensures number { result ≡ bucket buckets null }
    ensures within { result < buckets }
{
    let number = null.row as u64 * 625_341_585
        + null.var as u64 * 461_845_907
        + null.rule as u64 * 214_013_807;
    (number / 65_536 % buckets as u64) as usize
}

impl Bindings {
    /// Room for so many nulls.
    ///
    /// # Errors
    ///
    /// `AllocError` if there is no memory.
    pub(crate) fn reserve(alloc: Global, room: u32) -> Result<Bindings, AllocError>
        ensures { IfOk result (λ b. b ≡ record { room = room; cells = [] }) }
    {
        let cells = Vec::with_capacity(alloc, room as usize)?;
        let before = Vec::with_capacity(alloc, room as usize)?;
        let heads = vec![in alloc; 0u32; room.max(1) as usize]?;
        Ok(Bindings {
            room,
            cells,
            heads,
            before,
        })
    }

    /// How many nulls were found.
    pub(crate) fn len(&self) -> usize
        ensures { result ≡ length self.now.cells }
    {
        self.cells.len()
    }

    /// The null that was found at this place.
    pub(crate) fn at(&self, place: usize) -> Found
        requires { place < length self.now.cells }
        ensures { result ≡ found_at self.now.cells place }
    {
        self.cells[place]
    }

    /// Where the null was found, if it was.
    pub(crate) fn find(&self, null: NullId) -> Option<Found>
        ensures { MatchOption result (¬ (null ∈ found_nulls self.now.cells)) (λ b. (b ∈ self.now.cells) × (b.null ≡ null)) }
    {
        let mut code = self.heads[bucket_of(null, self.heads.len())];
        while code != 0 {
            let entry = self.cells[code as usize - 1];
            if entry.null == null {
                return Some(entry);
            }
            code = self.before[code as usize - 1];
        }
        None
    }

    /// One more, at the end.
    pub(crate) fn push(&mut self, cell: Found)
        requires { length self.old.cells < self.old.room }
        ensures { self.new ≡ record { room = self.old.room; cells = self.old.cells ++ cell ∷ [] } }
    {
        let bucket = bucket_of(cell.null, self.heads.len());
        let code = self.cells.len() as u32 + 1;
        self.before.push_reserved(self.heads[bucket]);
        self.heads[bucket] = code;
        self.cells.push_reserved(cell);
    }

    // Takes the last one off.
    fn pop(&mut self)
        ensures { self.new ≡ record { room = self.old.room; cells = take (length self.old.cells - 1) self.old.cells } }
    {
        if let Some(cell) = self.cells.pop() {
            let bucket = bucket_of(cell.null, self.heads.len());
            self.heads[bucket] = self.before.pop().unwrap_or(0);
        }
    }

    /// Keeps the first so many.
    pub(crate) fn truncate(&mut self, count: usize)
        ensures { self.new ≡ record { room = self.old.room; cells = take count self.old.cells } }
    {
        while self.cells.len() > count {
            self.pop();
        }
    }
}
