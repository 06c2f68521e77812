// The first rows that have the numbers of others in some columns.
ghost use Rattle.std.specs.Prelude.{◌≡◌, ◌<◌, ◌+◌, ◌-◌, ◌^◌, [], ℕ, List, IfOk, OnOk, length, map, slice_index};
ghost use Rattle.dx_base.specs.Members.{Each};
ghost use Rattle.dx_instance.specs.Firsts.{PartsOfPlaces, IsFirstOf, part_at};

use crate::table::Table;
use std::alloc::{AllocError, Global};

/// Parts of rows, each once, and for each the place of the first row that has it.
#[derive(Drop)]
pub(crate) struct Parts {
    rows: Table,
    places: Vec<u32>,
}

impl Parts {
    // No parts, of this width.
    fn new(alloc: Global, width: u32) -> Parts
        ensures rows { result.rows ≡ record { width = width; rows = [] } }
        ensures places { result.places.items ≡ [] }
    {
        Parts {
            rows: Table::new(alloc, width),
            places: Vec::new(alloc),
        }
    }

    // The first place that has a part, which is this place if the part is new.
    fn first(&mut self, part: &[u32], place: u32) -> Result<u32, AllocError>
        requires width { length part.now ≡ self.old.rows.width }
        requires room { length self.old.rows.rows < 2 ^ 32 - 1 }
        requires places { length self.old.places.items ≡ length self.old.rows.rows }
        ensures width { OnOk result (self.new.rows.width ≡ self.old.rows.width) }
        ensures first { (f : ℕ → List ℕ) → f place ≡ part.now → PartsOfPlaces f place self.old → IfOk result (IsFirstOf f place) }
        ensures parts { (f : ℕ → List ℕ) → f place ≡ part.now → PartsOfPlaces f place self.old → OnOk result
            (PartsOfPlaces f (place + 1) self.new) }
    {
        if let Some(at) = self.rows.find(part) {
            return Ok(self.places[at as usize]);
        }
        self.rows.add(part)?;
        self.places.push(place)?;
        Ok(place)
    }
}

// The numbers of a row in these columns.
fn part_of(alloc: Global, row: &[u32], columns: &[u32]) -> Result<Vec<u32>, AllocError>
    requires { Each columns.now (λ c. c < length row.now) }
    ensures { IfOk result (λ part. part.items ≡ map (slice_index row.now) columns.now) }
{
    let mut part = Vec::with_capacity(alloc, columns.len())?;
    for column in columns {
        part.push(row[*column as usize])?;
    }
    Ok(part)
}

/// For each row of a table the place of the first that has its numbers in these columns.
///
/// # Errors
///
/// `AllocError` if there is no memory.
pub(crate) fn first_places(
    alloc: Global,
    rows: &Table,
    columns: &[u32],
) -> Result<Vec<u32>, AllocError>
    requires columns { Each columns.now (λ c. c < rows.now.width) }
    requires few { length columns.now < 2 ^ 32 }
    requires rows { length rows.now.rows < 2 ^ 32 }
    ensures many { IfOk result (λ ps. length ps.items ≡ length rows.now.rows) }
    ensures first { IfOk result (λ ps. (p : ℕ) → p < length rows.now.rows
        → IsFirstOf (part_at rows.now.rows columns.now) p (slice_index ps.items p)) }
{
    let mut parts = Parts::new(alloc, columns.len() as u32);
    let mut firsts = Vec::with_capacity(alloc, rows.count() as usize)?;
    for place in 0..rows.count() {
        let part = part_of(alloc, rows.row(place), columns)?;
        firsts.push(parts.first(&part, place)?)?;
    }
    Ok(firsts)
}
