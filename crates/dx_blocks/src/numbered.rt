// A block of rows of numbers.
ghost use Rattle.std.specs.Prelude.{◌≡◌, []};

use dx_base::Items;
use std::alloc::Global;

/// A row, by the number of its table and its place there.
#[derive(Clone, Copy, Debug)]
pub struct At {
    pub table: u32,
    pub place: u32,
}

/// A block by numbers: those of its nulls, and the rows that hold one of them. Both ascend.
#[derive(Drop)]
pub struct NumberBlock {
    pub nulls: Items<u32>,
    pub rows: Items<At>,
}

impl NumberBlock {
    /// No nulls and no rows. It takes no memory.
    pub(crate) fn new(alloc: Global) -> NumberBlock
        ensures { result ≡ record { nulls = []; rows = [] } }
    {
        NumberBlock {
            nulls: Items::new(alloc),
            rows: Items::new(alloc),
        }
    }
}
