// Nulls and facts, put into blocks by labels. Block k has the label k; it stays empty if no null has that label.
ghost use Rattle.std.specs.Prelude.{◌≡◌, [], IfOk, OnOk, replicate};
ghost use Rattle.std.specs.List.{filter};
ghost use Rattle.dx_model.specs.Values.{FactsAscend};
ghost use Rattle.dx_blocks.specs.Labels.{BlocksFilled, NullsLabelled, has_nulls};

use crate::block::Block;
use crate::nulls::first_place;
use dx_model::{Fact, NullId};
use std::alloc::{AllocError, Global};

// Blocks without nulls and facts.
#[tactic(auto, using(std::proofs::lemmas::List::replicate_more))]
fn empty_blocks(alloc: Global, count: usize) -> Result<Vec<Block>, AllocError>
    ensures { IfOk result (λ bs. bs.items ≡ replicate count (record { nulls = []; facts = [] })) }
{
    let mut blocks = Vec::with_capacity(alloc, count)?;
    for _ in 0..count {
        blocks.push(Block::new(alloc))?;
    }
    Ok(blocks)
}

/// A block for each place, with the nulls that have its label.
///
/// # Errors
///
/// `AllocError` if there is no memory.
pub fn null_blocks(
    alloc: Global,
    facts: &[Fact],
    nulls: &[NullId],
    labels: &[usize],
) -> Result<Vec<Block>, AllocError>
    requires { NullsLabelled facts.now nulls.now labels.now }
    ensures { IfOk result (λ bs. BlocksFilled nulls.now labels.now nulls.now [] bs.items) }
{
    let mut blocks = empty_blocks(alloc, nulls.len())?;
    for i in 0..nulls.len() {
        blocks[labels[i]].nulls.push(nulls[i])?;
    }
    Ok(blocks)
}

/// Puts each fact that holds nulls into the block of their label.
///
/// # Errors
///
/// `AllocError` if there is no memory.
pub fn place_facts(
    facts: Vec<Fact>,
    nulls: &[NullId],
    labels: &[usize],
    blocks: &mut [Block],
) -> Result<(), AllocError>
    requires ascend { FactsAscend facts.items }
    requires labelled { NullsLabelled facts.items nulls.now labels.now }
    requires filled { BlocksFilled nulls.now labels.now nulls.now [] blocks.old }
    ensures { OnOk result (BlocksFilled nulls.now labels.now nulls.now facts.items blocks.new) }
{
    for fact in facts {
        if let Some(place) = first_place(nulls, fact.row.items()) {
            blocks[labels[place]].facts.push(fact)?;
        }
    }
    Ok(())
}

/// The blocks that have nulls.
///
/// # Errors
///
/// `AllocError` if there is no memory.
pub fn with_nulls(alloc: Global, blocks: Vec<Block>) -> Result<Vec<Block>, AllocError>
    ensures { IfOk result (λ bs. bs.items ≡ filter has_nulls blocks.items) }
{
    let mut kept = Vec::new(alloc);
    for block in blocks {
        if block.nulls.len() > 0 {
            kept.push(block)?;
        }
    }
    Ok(kept)
}
