// A block of an instance.
ghost use Rattle.std.specs.Prelude.{◌≡◌, []};

use dx_base::Items;
use dx_model::{Fact, NullId};
use std::alloc::Global;

/// Nulls that facts connect with one another and with no other null, and the facts that hold one of them. Both ascend.
#[derive(Drop)]
pub struct Block {
    pub nulls: Items<NullId>,
    pub facts: Items<Fact>,
}

impl Block {
    /// No nulls and no facts. It takes no memory.
    pub(crate) fn new(alloc: Global) -> Block
        ensures { result ≡ record { nulls = []; facts = [] } }
    {
        Block {
            nulls: Items::new(alloc),
            facts: Items::new(alloc),
        }
    }
}
