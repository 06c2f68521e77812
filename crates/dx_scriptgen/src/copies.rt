// Copies of parts of scripts.
ghost use Rattle.std.specs.Prelude.{◌≡◌, ◌<◌, IfOk, length, map, slice_index_or};
ghost use Rattle.dx_base.specs.Members.{Each};
ghost use Rattle.dx_script.specs.declared.form.CellRef.{CellRef as CellValue};

use dx_base::{Items, Text};
use dx_script::CellRef;
use std::alloc::{AllocError, Global};

/// A cell of its own that is the same.
pub(crate) fn copy_cell(cell: &CellRef) -> Result<CellRef, AllocError>
    ensures { IfOk result (λ c. c ≡ cell.now) }
{
    Ok(CellRef {
        alias: cell.alias,
        column: cell.column.copy()?,
    })
}

/// The cells at these places.
pub(crate) fn cells_at(
    alloc: Global,
    cells: &[CellRef],
    places: &[u32],
) -> Result<Items<CellRef>, AllocError>
    requires { Each places.now (λ p. p < length cells.now) }
    ensures { IfOk result (λ found. (none : CellValue) → found ≡ map (λ p. slice_index_or cells.now p none) places.now) }
{
    let mut found = Items::new(alloc);
    for place in places {
        found.push(copy_cell(&cells[*place as usize])?)?;
    }
    Ok(found)
}

/// Texts of their own that are the same.
pub(crate) fn copy_texts(alloc: Global, texts: &[Text]) -> Result<Items<Text>, AllocError>
    ensures { IfOk result (λ copies. copies ≡ texts.now) }
{
    let mut copies = Items::new(alloc);
    for text in texts {
        copies.push(text.copy()?)?;
    }
    Ok(copies)
}
