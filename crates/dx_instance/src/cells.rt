// Rows of numbers, one after the other.
ghost use Rattle.std.specs.Prelude.{◌≡◌, ◌<◌, ◌≤◌, ◌-◌, ◌*◌, ◌^◌, ℕ, List, [], ◌∷◌, ◌++◌, IfOk, OnOk, OnErr, IsTrue, ◌↔◌, length, map};
ghost use Rattle.std.specs.Bool.{OnTrue};
ghost use Rattle.dx_base.specs.Members.{Each};
ghost use Rattle.dx_instance.specs.Chains.{AreChains};
ghost use Rattle.dx_instance.specs.Cells.{PlacesInOrder, IsOrderOf, NumbersAscend, numbers_at, rows_of_cells, with_numbers};
ghost use Rattle.dx_instance.specs.Keys.{HasBits, DigitsFit, RowsAreKeyed, packed, places_of, unpacked};
ghost use Rattle.dx_instance.specs.Shown.{NumbersBelow, renumbered};

use crate::chains::Chains;
use crate::packing::{Packing, RowPacking};
use std::alloc::{AllocError, Global};
use std::cmp::{Ordering, max};
use std::marker::Model;

/// Rows of one width. A contract sees the list of the rows.
#[derive(Drop)]
pub struct Rows {
    width: u32,
    count: u32,
    cells: Vec<u32>,
}

impl Model for Rows {
    ghost use Rattle.std.specs.Prelude.{◌≡◌, ◌*◌, length};
    ghost use Rattle.dx_instance.specs.Cells.{NumberTable, rows_of_cells};

    ghost Value = { NumberTable };

    ghost view = { λ r. record { width = r.width; rows = rows_of_cells r.count r.width r.cells.items } };

    ghost invariant = { λ r. length r.cells.items ≡ r.count * r.width };
}

impl Rows {
    /// No rows.
    pub fn new(alloc: Global, width: u32) -> Rows
        ensures { result ≡ record { width = width; rows = [] } }
    {
        Rows {
            width,
            count: 0,
            cells: Vec::new(alloc),
        }
    }

    // No rows, with room for so many cells.
    fn with_room(alloc: Global, width: u32, cells: usize) -> Result<Rows, AllocError>
        ensures { IfOk result (λ r. r ≡ record { width = width; rows = [] }) }
    {
        Ok(Rows {
            width,
            count: 0,
            cells: Vec::with_capacity(alloc, cells)?,
        })
    }

    /// Makes room for so many more rows, so that they go in without the others being moved. If there is no memory for it,
    /// no room is made. The rows stay as they are.
    pub fn make_room(&mut self, more: u32)
        ensures { self.new ≡ self.old }
    {
        let cells = (more as usize).saturating_mul(self.width as usize);
        self.cells.reserve(cells).ok();
    }

    /// Rows whose cells are these, row by row.
    pub fn of_cells(width: u32, count: u32, cells: Vec<u32>) -> Rows
        requires { length cells.items ≡ count * width }
        ensures { result ≡ record { width = width; rows = rows_of_cells count width cells.items } }
    {
        Rows {
            width,
            count,
            cells,
        }
    }

    pub fn width(&self) -> u32
        ensures { result ≡ self.now.width }
    {
        self.width
    }

    pub fn count(&self) -> u32
        ensures count { result ≡ length self.now.rows }

        // What holds of all rows.
        ensures wide { Each self.now.rows (λ r. length r ≡ self.now.width) }
        ensures few { length self.now.rows < 2 ^ 32 }
    {
        self.count
    }

    /// The numbers of a row, lent.
    pub fn row(&self, place: u32) -> &[u32]
        requires { place < length self.now.rows }
        ensures row { result.now ≡ numbers_at self.now.rows place }
        ensures width { length result.now ≡ self.now.width }
    {
        let width = self.width as usize;
        let start = place as usize * width;
        &self.cells[start..start + width]
    }

    /// One row more, at the end.
    pub fn push(&mut self, row: &[u32]) -> Result<(), AllocError>
        requires width { length row.now ≡ self.old.width }
        requires room { length self.old.rows < 2 ^ 32 - 1 }
        ensures ok { OnOk result (self.new ≡ with_numbers self.old row.now) }
        ensures err { OnErr result (self.new ≡ self.old) }
    {
        self.cells.extend_from_slice(row)?;
        self.count += 1;
        Ok(())
    }

    /// One row more, at the end, and its key in the chains.
    pub(crate) fn push_keyed(
        &mut self,
        row: &[u32],
        chains: &mut Chains,
        key: u64,
    ) -> Result<(), AllocError>
        requires width { length row.now ≡ self.old.width }
        requires room { length self.old.rows < 2 ^ 32 - 1 }
        requires keys { length chains.old.before.items < 2 ^ 32 - 1 }
        ensures ok { OnOk result (self.new ≡ with_numbers self.old row.now) }
        ensures chained { OnOk result ((keys : List ℕ) → AreChains chains.old keys → AreChains chains.new (keys ++ key ∷ [])) }
        ensures err { OnErr result (self.new ≡ self.old) }
        ensures same { OnErr result ((keys : List ℕ) → AreChains chains.old keys → AreChains chains.new keys) }
    {
        self.cells.reserve(row.len())?;
        chains.push(key)?;
        self.cells.extend_from_slice(row).unwrap();
        self.count += 1;
        Ok(())
    }

    // The numbers of a row, and none if there is no such row.
    fn row_or_none(&self, place: u32) -> &[u32]
        ensures { result.now ≡ numbers_at self.now.rows place }
    {
        if place < self.count {
            self.row(place)
        } else {
            &[]
        }
    }

    // A number that is above all numbers of the rows.
    fn bound(&self) -> u64
        ensures below { Each self.now.rows (NumbersBelow result) }
        ensures small { result ≤ 2 ^ 32 }
    {
        let mut bound = 0u64;
        for cell in self.cells.as_slice() {
            bound = max(bound, *cell as u64 + 1);
        }
        bound
    }

    // The place of each row, with a key that compares as the first numbers of the row.
    fn keyed_places(&self, alloc: Global, packing: Packing) -> Result<Vec<(u64, u32)>, AllocError>
        requires room { DigitsFit packing.base packing.digits }
        requires below { Each self.now.rows (NumbersBelow packing.base) }
        ensures { IfOk result (λ keys. RowsAreKeyed packing.base packing.digits self.now.rows keys.items (length self.now.rows)) }
    {
        let mut keys = Vec::with_capacity(alloc, self.count as usize)?;
        for place in 0..self.count {
            keys.push((packing.key_of(self.row(place)), place))?;
        }
        Ok(keys)
    }

    // The places in the order of their rows, with their keys.
    fn places_in_order(&self, alloc: Global) -> Result<Vec<(u64, u32)>, AllocError>
        ensures { IfOk result (λ keys. PlacesInOrder self.now.rows (places_of keys.items)) }
    {
        let mut keys = self.keyed_places(alloc, Packing::below(self.bound()))?;
        keys.sort_unstable_by(|a, b| match a.0.cmp(&b.0) {
            Ordering::Equal => self.row_or_none(a.1).cmp(&self.row_or_none(b.1)),
            other => other,
        });
        Ok(keys)
    }

    // Whether the last row is this one.
    fn ends_with(&self, row: &[u32]) -> bool
        ensures { IsTrue result ↔ ((0 < length self.now.rows) × (numbers_at self.now.rows (length self.now.rows - 1) ≡ row.now)) }
    {
        let count = self.count();
        count > 0 && self.row(count - 1) == row
    }

    // The same rows in order, each once, by their places.
    fn in_order_by_places(&self, alloc: Global) -> Result<Rows, AllocError>
        ensures { IfOk result (λ r. IsOrderOf self.now r) }
    {
        let places = self.places_in_order(alloc)?;
        let mut rows = Rows::with_room(alloc, self.width, self.cells.len())?;
        for i in 0..self.count {
            let row = self.row(places[i as usize].1);
            if !rows.ends_with(row) {
                rows.push(row)?;
            }
        }
        Ok(rows)
    }

    // Each row as one number.
    fn packed_rows(&self, alloc: Global, packing: RowPacking) -> Result<Vec<u64>, AllocError>
        requires room { HasBits packing.bits packing.width }
        requires below { Each self.now.rows (NumbersBelow (2 ^ packing.bits)) }
        ensures keys { IfOk result (λ keys. keys.items ≡ map (packed (2 ^ packing.bits) packing.width 0) self.now.rows) }
        ensures few { IfOk result (λ keys. length keys.items < 2 ^ 32) }

        // What holds of all rows.
        ensures wide { IfOk result (λ keys. Each self.now.rows (λ r. length r ≡ self.now.width)) }
    {
        let mut keys = Vec::with_capacity(alloc, self.count as usize)?;
        for place in 0..self.count {
            keys.push(packing.key_of(self.row(place)))?;
        }
        Ok(keys)
    }

    // The rows that these numbers are.
    fn unpacked_rows(
        &self,
        alloc: Global,
        packing: RowPacking,
        keys: &[u64],
    ) -> Result<Rows, AllocError>
        requires room { HasBits packing.bits packing.width }
        requires few { length keys.now < 2 ^ 32 }
        requires width { packing.width ≡ self.now.width }
        ensures { IfOk result (λ r. r ≡ record { width = self.now.width; rows = map (unpacked packing.bits packing.width) keys.now }) }
    {
        let mut cells = Vec::with_capacity(alloc, self.cells.len())?;
        for key in keys {
            packing.push_row(&mut cells, *key)?;
        }
        Ok(Rows::of_cells(self.width, keys.len() as u32, cells))
    }

    // The same rows in order, each once. Each row is one number while they are sorted, so that no row is looked up by its place.
    fn in_order_by_keys(&self, alloc: Global, packing: RowPacking) -> Result<Rows, AllocError>
        requires room { HasBits packing.bits packing.width }
        requires width { packing.width ≡ self.now.width }
        requires below { Each self.now.rows (NumbersBelow (2 ^ packing.bits)) }
        ensures { IfOk result (λ r. IsOrderOf self.now r) }
    {
        let mut keys = self.packed_rows(alloc, packing)?;
        keys.sort_unstable();
        keys.dedup();
        self.unpacked_rows(alloc, packing, &keys)
    }

    /// The same rows in order, each once.
    #[tactic(auto, using(crate::proofs::RowKeyFacts::each_below))]
    pub fn in_order(&self, alloc: Global) -> Result<Rows, AllocError>
        ensures { IfOk result (λ r. IsOrderOf self.now r) }
    {
        match RowPacking::below(self.bound(), self.width) {
            Some(packing) => self.in_order_by_keys(alloc, packing),
            None => self.in_order_by_places(alloc),
        }
    }

    // Whether each row is below the next.
    fn is_ascending(&self) -> bool
        ensures { OnTrue result (NumbersAscend self.now.rows) }
    {
        (1..self.count).all(|place| self.row(place - 1).cmp(&self.row(place)).is_lt())
    }

    /// The same rows in order, each once. Rows that ascend already are only gone through.
    pub(crate) fn into_order(self, alloc: Global) -> Result<Rows, AllocError>
        ensures { IfOk result (λ r. IsOrderOf self r) }
    {
        if self.is_ascending() {
            return Ok(self);
        }
        self.in_order(alloc)
    }

    /// The rows with ranks in the place of numbers.
    pub fn renumbered(&self, alloc: Global, ranks: &[u32]) -> Result<Rows, AllocError>
        requires { Each self.now.rows (NumbersBelow (length ranks.now)) }
        ensures { IfOk result (λ r. r ≡ renumbered ranks.now self.now) }
    {
        let mut cells = Vec::with_capacity(alloc, self.cells.len())?;
        for cell in self.cells.as_slice() {
            cells.push(ranks[*cell as usize])?;
        }
        Ok(Rows {
            width: self.width,
            count: self.count,
            cells,
        })
    }

    /// The same as `renumbered`, of rows that are given away, in their own memory.
    pub(crate) fn into_renumbered(self, ranks: &[u32]) -> Rows
        requires { Each self.rows (NumbersBelow (length ranks.now)) }
        ensures { result ≡ renumbered ranks.now self }
    {
        let mut cells = self.cells;
        for i in 0..cells.len() {
            cells[i] = ranks[cells[i] as usize];
        }
        Rows {
            width: self.width,
            count: self.count,
            cells,
        }
    }

    /// A copy.
    pub(crate) fn copy(&self, alloc: Global) -> Result<Rows, AllocError>
        ensures { IfOk result (λ r. r ≡ self.now) }
    {
        let mut cells = Vec::with_capacity(alloc, self.cells.len())?;
        cells.extend_from_slice(&self.cells)?;
        Ok(Rows {
            width: self.width,
            count: self.count,
            cells,
        })
    }
}
