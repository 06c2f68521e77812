// Rows and nulls, put into blocks by labels. Block k has the label k; it stays empty if no row holds a null of that label.
ghost use Rattle.std.specs.Prelude.{◌≡◌, [], IfOk, OnOk, replicate};
ghost use Rattle.std.specs.List.{filter};
ghost use Rattle.dx_base.specs.Members.{Each};
ghost use Rattle.dx_model.specs.Values.{FactsAscend};
ghost use Rattle.dx_blocks.specs.Labels.{BlocksFilled};
ghost use Rattle.dx_blocks.specs.Numbered.{IsOfNumbers};
ghost use Rattle.dx_blocks.specs.NullRows.{BlocksOfRows, RowsLabelled, HoldFacts, facts_of, has_numbers, nulls_from, shown_blocks};

use crate::null_rows::null_in;
use crate::numbered::{At, NumberBlock};
use dx_instance::Numbers;
use std::alloc::{AllocError, Global};

/// Blocks without nulls and rows.
///
/// # Errors
///
/// `AllocError` if there is no memory.
#[tactic(auto, using(std::proofs::lemmas::List::replicate_more))]
pub fn empty_number_blocks(alloc: Global, count: usize) -> Result<Vec<NumberBlock>, AllocError>
    ensures { IfOk result (λ bs. bs.items ≡ replicate count (record { nulls = []; rows = [] })) }
{
    let mut blocks = Vec::with_capacity(alloc, count)?;
    for _ in 0..count {
        blocks.push(NumberBlock::new(alloc))?;
    }
    Ok(blocks)
}

/// Puts each row that holds nulls into the block of their label.
///
/// # Errors
///
/// `AllocError` if there is no memory.
pub fn place_rows(
    numbers: &Numbers<'_>,
    first: u32,
    rows: &[At],
    labels: &[usize],
    blocks: &mut [NumberBlock],
) -> Result<(), AllocError>
    requires labelled { RowsLabelled numbers.now first rows.now labels.now }
    requires ascend { FactsAscend (facts_of numbers.now rows.now) }
    requires held { HoldFacts numbers.now first labels.now [] blocks.old }
    ensures filled { let N = numbers.now in OnOk result (BlocksFilled (nulls_from N first) labels.now [] (facts_of N rows.now)
        (shown_blocks N blocks.new)) }
    ensures within { OnOk result (Each blocks.new (IsOfNumbers numbers.now)) }
{
    for at in rows {
        if let Some(one) = null_in(numbers.row(at.table, at.place), first) {
            blocks[labels[(one - first) as usize]].rows.push(*at)?;
        }
    }
    Ok(())
}

/// Puts each null that stands in a row into the block of its label.
///
/// # Errors
///
/// `AllocError` if there is no memory.
pub fn place_nulls(
    numbers: &Numbers<'_>,
    first: u32,
    rows: &[At],
    labels: &[usize],
    blocks: &mut [NumberBlock],
) -> Result<(), AllocError>
    requires labelled { RowsLabelled numbers.now first rows.now labels.now }
    requires held { HoldFacts numbers.now first labels.now (facts_of numbers.now rows.now) blocks.old }
    ensures filled { OnOk result (BlocksOfRows numbers.now first rows.now labels.now blocks.new) }
    ensures within { OnOk result (Each blocks.new (IsOfNumbers numbers.now)) }
{
    for place in 0..labels.len() {
        let label = labels[place];
        if blocks[label].rows.len() > 0 {
            blocks[label].nulls.push(first + place as u32)?;
        }
    }
    Ok(())
}

/// The blocks that have nulls.
///
/// # Errors
///
/// `AllocError` if there is no memory.
pub fn with_numbers(alloc: Global, blocks: Vec<NumberBlock>) -> Result<Vec<NumberBlock>, AllocError>
    ensures { IfOk result (λ bs. bs.items ≡ filter has_numbers blocks.items) }
{
    let mut kept = Vec::new(alloc);
    for block in blocks {
        if block.nulls.len() > 0 {
            kept.push(block)?;
        }
    }
    Ok(kept)
}
