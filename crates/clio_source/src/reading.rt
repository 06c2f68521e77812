// What was read so far.
ghost use Rattle.std.specs.Prelude.{◌≡◌, ◌*◌, ◌-◌, ◌≤◌, ◌<◌, MatchOption};
ghost use Rattle.dx_schema.specs.Forest.{Forest};
ghost use Rattle.dx_used.specs.Used.{Marks};
ghost use Rattle.clio_source.specs.Source.{at_start, too_many_bytes, too_many_cells};
ghost use Rattle.clio_source.specs.Fitting.{Holds, UnusedAreBlank, ReadFits};

use crate::fault::SourceRefusal;
use dx_base::limits::{DATA_BYTES, SOURCE_CELLS};
use dx_base::{Count, Limit};
use dx_instance::{Gathered, Rows};
use dx_stages::Stop;
use std::alloc::Global;

/// The rows of the tables that were come to, as numbers of symbols, and how many bytes and cells may still come.
#[derive(Drop)]
pub struct Reading {
    pub symbols: Gathered,
    pub tables: Vec<Rows>,
    pub bytes_left: u64,
    pub cells_left: u64,
}

/// Nothing was read.
pub(crate) fn at_start(alloc: Global) -> Reading
    ensures fit { (f : Forest) → ReadFits f 0 result }
    ensures holds { (used : Marks) → Holds used result at_start }
    ensures blank { (used : Marks) (f : Forest) → UnusedAreBlank used f result }
{
    Reading {
        symbols: Gathered::new(alloc),
        tables: Vec::new(alloc),
        bytes_left: DATA_BYTES,
        cells_left: SOURCE_CELLS,
    }
}

/// What is left of so many cells after these rows, unless they have more.
pub fn cells_after(left: u64, rows: u32, width: u32) -> Option<u64>
    ensures { MatchOption result (left < rows * width) (λ rest. (rest ≡ left - rows * width) × (rows * width ≤ left)) }
{
    let cells = u64::from(rows).checked_mul(u64::from(width))?;
    left.checked_sub(cells)
}

/// The files have too many bytes.
pub fn too_many_bytes() -> SourceRefusal
    ensures { result ≡ too_many_bytes }
{
    SourceRefusal::Limit(Limit {
        what: Count::DataBytes,
        number: DATA_BYTES,
    })
}

/// Their facts have too many cells.
pub(crate) fn too_many_cells() -> SourceRefusal
    ensures { result ≡ too_many_cells }
{
    SourceRefusal::Limit(Limit {
        what: Count::SourceCells,
        number: SOURCE_CELLS,
    })
}
