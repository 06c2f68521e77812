// Places of rows by the keys of some columns.
ghost use Rattle.std.specs.Prelude.{◌≡◌, ◌<◌, ◌^◌, ◌%◌, IfOk, length, slice_index};
ghost use Rattle.dx_base.specs.Members.{Each};
ghost use Rattle.dx_instance.specs.Cells.{row_key};
ghost use Rattle.dx_instance.specs.Shown.{numbers_of_table};
ghost use Rattle.dx_joins.specs.Looking.{IsBucketIndex, keys_of, numbers_at_places};

use dx_instance::Numbers;
use std::alloc::{AllocError, Global};

/// For each bucket of keys the first place in it, and for each place the next one in its bucket. Where there is none
/// stands the number of places.
#[derive(Drop)]
pub(crate) struct Index {
    pub(crate) heads: Vec<u32>,
    pub(crate) nexts: Vec<u32>,
}

// The number at a place of a row.
fn number_in(row: &[u32], place: usize) -> u32
    requires { place < length row.now }
    ensures { result ≡ slice_index row.now place }
{
    row[place]
}

/// The key of the numbers at these places of a row.
pub(crate) fn key_at(row: &[u32], places: &[usize]) -> u64
    requires { Each places.now (λ i. i < length row.now) }
    ensures { result ≡ row_key (numbers_at_places row.now places.now) }
{
    let mut key = 7u64;
    for place in places {
        key = key
            .wrapping_mul(0x9E37_79B9_7F4A_7C15)
            .wrapping_add(number_in(row, *place) as u64);
    }
    key
}

// The keys of the rows of a table.
fn row_keys(
    alloc: Global,
    source: &Numbers,
    table: u32,
    columns: &[usize],
) -> Result<Vec<u64>, AllocError>
    requires table { table < length source.now.tables }
    requires columns { Each columns.now (λ i. i < (numbers_of_table source.now.tables table).width) }
    ensures keys { IfOk result (λ v. v.items ≡ keys_of columns.now (numbers_of_table source.now.tables table).rows) }
    ensures few { IfOk result (λ v. length v.items < 2 ^ 32) }
{
    let mut keys = Vec::new(alloc);
    for place in 0..source.count(table) {
        keys.push(key_at(source.row(table, place), columns))?;
    }
    Ok(keys)
}

// The index of keys.
fn linked(alloc: Global, keys: &[u64]) -> Result<Index, AllocError>
    requires { length keys.now < 2 ^ 32 }
    ensures { IfOk result (λ index. IsBucketIndex index keys.now) }
{
    let count = keys.len() as u32;
    let buckets = keys.len().max(1);
    let mut heads = vec![in alloc; count; buckets]?;
    let mut nexts = vec![in alloc; count; keys.len()]?;
    let mut left = keys.len();
    while left > 0 {
        left -= 1;
        let bucket = (keys[left] % buckets as u64) as usize;
        nexts[left] = heads[bucket];
        heads[bucket] = left as u32;
    }
    Ok(Index { heads, nexts })
}

impl Index {
    /// The index of the rows of a table by these columns.
    ///
    /// # Errors
    ///
    /// `AllocError` if there is no memory.
    pub(crate) fn build(
        alloc: Global,
        source: &Numbers,
        table: u32,
        columns: &[usize],
    ) -> Result<Index, AllocError>
        requires table { table < length source.now.tables }
        requires columns { Each columns.now (λ i. i < (numbers_of_table source.now.tables table).width) }
        ensures { IfOk result (λ index. IsBucketIndex index (keys_of columns.now (numbers_of_table source.now.tables table).rows)) }
    {
        let keys = row_keys(alloc, source, table, columns)?;
        linked(alloc, &keys)
    }

    /// The first place in the bucket of a key.
    pub(crate) fn first(&self, key: u64) -> u32
        requires { 0 < length self.now.heads.items }
        ensures { result ≡ slice_index self.now.heads.items (key % length self.now.heads.items) }
    {
        self.heads[(key % self.heads.len() as u64) as usize]
    }

    /// The next place in the bucket of a place.
    pub(crate) fn next(&self, place: u32) -> u32
        requires { place < length self.now.nexts.items }
        ensures { result ≡ slice_index self.now.nexts.items place }
    {
        self.nexts[place as usize]
    }
}
