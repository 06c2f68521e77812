// The blocks of an instance.
ghost use Rattle.std.specs.Prelude.{IfOk};
ghost use Rattle.dx_instance.specs.Stored.{facts};
ghost use Rattle.dx_blocks.specs.Blocks.{AreBlocks};

use crate::block::Block;
use crate::grouping::{null_blocks, place_facts, with_nulls};
use crate::labels::labels_of;
use crate::nulls::nulls_of;
use dx_instance::Instance;
use std::alloc::{AllocError, Global};

/// The blocks of an instance, by their least nulls.
///
/// # Errors
///
/// `AllocError` if there is no memory.
pub fn blocks(alloc: Global, instance: &Instance) -> Result<Vec<Block>, AllocError>
    ensures { IfOk result (λ bs. AreBlocks (facts instance.now) bs.items) }
{
    let facts = instance.facts()?;
    let nulls = nulls_of(alloc, &facts)?;
    let labels = labels_of(alloc, &facts, &nulls)?;
    let mut blocks = null_blocks(alloc, &facts, &nulls, &labels)?;
    place_facts(facts, &nulls, &labels, &mut blocks)?;
    with_nulls(alloc, blocks)
}
