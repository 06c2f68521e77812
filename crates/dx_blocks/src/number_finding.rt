// The blocks of an instance that is lent as tables of numbers.
ghost use Rattle.std.specs.Prelude.{IfOk, length, map};
ghost use Rattle.dx_base.specs.Members.{Each};
ghost use Rattle.dx_model.specs.Values.{FactsAscend};
ghost use Rattle.dx_instance.specs.Stored.{facts};
ghost use Rattle.dx_instance.specs.Numbers.{ValuesAscend};
ghost use Rattle.dx_instance.specs.Cells.{NumberTable, NumbersAscend};
ghost use Rattle.dx_instance.specs.Shown.{shown_tables};
ghost use Rattle.dx_blocks.specs.Blocks.{AreBlocks};
ghost use Rattle.dx_blocks.specs.NullRows.{RowsLabelled, HasNullRows, facts_of};
ghost use Rattle.dx_blocks.specs.Numbered.{IsOfNumbers, shown_block};

use crate::null_rows::{first_null, null_rows};
use crate::number_filling::{empty_number_blocks, place_nulls, place_rows, with_numbers};
use crate::number_labels::number_labels;
use crate::numbered::{At, NumberBlock};
use dx_instance::Numbers;
use std::alloc::{AllocError, Global};

// Blocks of the nulls and rows that have one label.
fn filled_blocks(
    alloc: Global,
    numbers: &Numbers<'_>,
    first: u32,
    rows: &[At],
    labels: &[usize],
) -> Result<Vec<NumberBlock>, AllocError>
    requires labelled { RowsLabelled numbers.now first rows.now labels.now }
    requires rows { HasNullRows numbers.now first (length numbers.now.tables) 0 rows.now }
    requires ascend { FactsAscend (facts_of numbers.now rows.now) }
    ensures blocks { let N = numbers.now in IfOk result (λ bs. AreBlocks (facts (shown_tables N.symbols N.tables))
        (map (shown_block N) bs.items)) }
    ensures within { IfOk result (λ bs. Each bs.items (IsOfNumbers numbers.now)) }
{
    let mut blocks = empty_number_blocks(alloc, labels.len())?;
    place_rows(numbers, first, rows, labels, &mut blocks)?;
    place_nulls(numbers, first, rows, labels, &mut blocks)?;
    with_numbers(alloc, blocks)
}

/// The blocks of an instance whose symbols and rows ascend, by their least nulls. No fact and no text is made.
///
/// # Errors
///
/// `AllocError` if there is no memory.
pub fn number_blocks(alloc: Global, numbers: &Numbers<'_>) -> Result<Vec<NumberBlock>, AllocError>
    requires symbols { ValuesAscend numbers.now.symbols }
    requires rows { Each numbers.now.tables (λ (t : NumberTable). NumbersAscend t.rows) }
    ensures blocks { let N = numbers.now in IfOk result (λ bs. AreBlocks (facts (shown_tables N.symbols N.tables))
        (map (shown_block N) bs.items)) }
    ensures within { IfOk result (λ bs. Each bs.items (IsOfNumbers numbers.now)) }
{
    let first = first_null(numbers);
    let rows = null_rows(alloc, numbers, first)?;
    let labels = number_labels(alloc, numbers, first, &rows)?;
    filled_blocks(alloc, numbers, first, &rows, &labels)
}
