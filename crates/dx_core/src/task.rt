// A block whose rows are tried one by one.
ghost use Rattle.std.specs.Prelude.{◌≡◌, IfOk, None, length, replicate};
ghost use Rattle.dx_core.specs.Sparing.{IsTried};

use crate::asking::nothing_known;
use crate::nearness::Ties;
use dx_blocks::{At, NumberBlock};
use dx_instance::Numbers;
use std::alloc::{AllocError, Global};

/// How many rows near a row are asked first.
pub(crate) const FEW: usize = 8;

/// A block whose rows are tried one by one: what ties its rows, for each of its nulls the number that is known of it, if one is, and
/// the rows of larger blocks.
#[derive(Drop)]
pub(crate) struct Task<'a> {
    pub(crate) block: &'a NumberBlock,
    pub(crate) ties: Ties,
    pub(crate) known: Vec<Option<u32>>,
    pub(crate) larger: &'a [At],
}

// The ties of a block's rows, if there are so many that rows near a row are asked first.
fn ties_of(alloc: Global, numbers: &Numbers<'_>, block: &NumberBlock) -> Result<Ties, AllocError>
    requires { IsTried numbers.now block.now }
{
    if block.rows.items().len() <= FEW {
        return Ok(Ties::none(alloc));
    }
    Ties::new(alloc, numbers, block.nulls.items(), block.rows.items())
}

impl<'a> Task<'a> {
    /// A block of whose nulls nothing is known yet.
    ///
    /// # Errors
    ///
    /// `AllocError` if there is no memory.
    pub(crate) fn new(
        alloc: Global,
        numbers: &Numbers<'_>,
        block: &'a NumberBlock,
        larger: &'a [At],
    ) -> Result<Task<'a>, AllocError>
        requires { IsTried numbers.now block.now }
        ensures block { IfOk result (λ task. task.block.now ≡ block.now) }
        ensures known { IfOk result (λ task. task.known.items ≡ replicate (length block.now.nulls) None) }
    {
        let ties = ties_of(alloc, numbers, block)?;
        let known = nothing_known(alloc, block.nulls.items().len())?;
        Ok(Task {
            block,
            ties,
            known,
            larger,
        })
    }
}
