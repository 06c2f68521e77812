// What rows of a block become, if its nulls get numbers.
ghost use Rattle.std.specs.Prelude.{◌≡◌, ◌<◌, ◌^◌, IfOk, IfSome, length};
ghost use Rattle.std.specs.List.{AllZip};
ghost use Rattle.dx_model.specs.Instances.{fact_moved, given};
ghost use Rattle.dx_blocks.specs.Numbered.{IsRowIn, fact_of};
ghost use Rattle.dx_blocks.specs.NullRows.{row_numbers};
ghost use Rattle.dx_core.specs.Asking.{AscendStrictly, IsNumberAfter, pairs_by};
ghost use Rattle.dx_core.specs.Sparing.{AreImages, IsTried};

use crate::asking::term_of;
use dx_blocks::{At, NumberBlock};
use dx_instance::Numbers;
use dx_solver::{Taken, Term};
use std::alloc::{AllocError, Global};

/// A number for each null of a block: what the null becomes.
#[derive(Clone, Copy)]
pub(crate) struct BlockMove<'a> {
    pub(crate) block: &'a NumberBlock,
    pub(crate) answer: &'a [u32],
    ghost long: { length answer.now ≡ length block.now.nulls },
}

// What a number becomes.
fn number_after(nulls: &[u32], answer: &[u32], number: u32) -> u32
    requires ascend { AscendStrictly nulls.now }
    requires few { length nulls.now < 2 ^ 32 }
    requires long { length answer.now ≡ length nulls.now }
    ensures { IsNumberAfter nulls.now answer.now number result }
{
    match term_of(nulls, number) {
        Term::Number(own) => own,
        Term::Variable(variable) => answer[variable as usize],
    }
}

impl<'a> BlockMove<'a> {
    // The numbers that a row has after the move.
    fn row_after(
        &self,
        alloc: Global,
        numbers: &Numbers<'_>,
        at: At,
    ) -> Result<Vec<u32>, AllocError>
        requires block { IsTried numbers.now self.now.block.now }
        requires row { IsRowIn numbers.now at }
        ensures { IfOk result (λ after. AllZip (IsNumberAfter self.now.block.now.nulls self.now.answer.now)
            (row_numbers numbers.now at) after.items) }
    {
        prove!((numbers.len() as u64) < 1 << 32);
        let nulls = self.block.nulls.items();
        let mut after = Vec::new(alloc);
        for number in numbers.row(at.table, at.place) {
            after.push(number_after(nulls, self.answer, *number))?;
        }
        Ok(after)
    }

    // The row that a row of the block becomes, if it becomes one that is there.
    fn image(&self, alloc: Global, numbers: &Numbers<'_>, at: At) -> Result<Option<At>, AllocError>
        requires block { IsTried numbers.now self.now.block.now }
        requires row { IsRowIn numbers.now at }
        ensures there { IfOk result (λ o. IfSome o (IsRowIn numbers.now)) }
        ensures becomes { IfOk result (λ o. IfSome o (λ to. fact_moved
            (given (pairs_by numbers.now self.now.block.now.nulls self.now.answer.now)) (fact_of numbers.now at)
            ≡ fact_of numbers.now to)) }
    {
        prove!((numbers.len() as u64) < 1 << 32);
        let after = self.row_after(alloc, numbers, at)?;
        match numbers.find_row(at.table, &after) {
            None => Ok(None),
            Some(place) => Ok(Some(At {
                table: at.table,
                place,
            })),
        }
    }

    /// The rows that those rows of the block become that are not taken out. There is no answer if one of them becomes
    /// none that is there.
    ///
    /// # Errors
    ///
    /// `AllocError` if there is no memory.
    pub(crate) fn images(
        &self,
        alloc: Global,
        numbers: &Numbers<'_>,
        taken: &Taken,
    ) -> Result<Option<Vec<At>>, AllocError>
        requires block { IsTried numbers.now self.now.block.now }
        ensures { IfOk result (λ o. IfSome o (λ images. AreImages numbers.now taken.now
            (given (pairs_by numbers.now self.now.block.now.nulls self.now.answer.now)) self.now.block.now.rows
            images.items)) }
    {
        let mut images = Vec::new(alloc);
        for at in self.block.rows.items() {
            if taken.has(at.table, at.place) {
                continue;
            }
            let Some(image) = self.image(alloc, numbers, *at)? else {
                return Ok(None);
            };
            images.push(image)?;
        }
        Ok(Some(images))
    }
}
