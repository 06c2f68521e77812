// Parts, by the numbers of what they name.
ghost use Rattle.std.specs.Prelude.{◌≡◌, None, Some, IfErr, OnOk};
ghost use Rattle.dx_base.specs.Members.{Each};
ghost use Rattle.dx_line_text.specs.Answers.{ReadsOrMemory};
ghost use Rattle.dx_query_text.specs.Naming.{PartHasFewCells, answer_cell_fault, answer_fault, part_fault, part_of_text, query_fault, query_of, width_fault, width_of};

use crate::texts::PartText;
use dx_base::Items;
use dx_queries::{Part, Query};
use dx_schema::Schema;
use dx_schema_text::CellText;
use dx_tgd_text::{Names, read_atoms, read_cells};
use dx_tokens::{TextFault, TextKind};
use std::alloc::Global;

// Refuses a part with another number of answer cells.
fn check_width(part: &PartText, width: u32) -> Result<(), TextFault>
    ensures none { OnOk result (width_fault width part.now ≡ None) }
    ensures fault { IfErr result (λ e. width_fault width part.now ≡ Some e) }
{
    if part.answer.len() == u64::from(width) {
        Ok(())
    } else {
        Err(TextFault::At {
            place: part.place,
            kind: TextKind::Width,
        })
    }
}

// Refuses a name that isn't known.
fn check_cell(cell: &CellText, known: &Names) -> Result<(), TextFault>
    ensures none { OnOk result (answer_cell_fault known.now cell.now ≡ None) }
    ensures fault { IfErr result (λ e. answer_cell_fault known.now cell.now ≡ Some e) }
{
    match cell {
        CellText::Name { name, place } if known.find(name).is_none() => Err(TextFault::At {
            place: *place,
            kind: TextKind::Unsafe,
        }),
        _ => Ok(()),
    }
}

// Refuses the first name that isn't known.
fn check_answer(answer: &[CellText], known: &Names) -> Result<(), TextFault>
    ensures none { OnOk result (answer_fault known.now answer.now ≡ None) }
    ensures fault { IfErr result (λ e. answer_fault known.now answer.now ≡ Some e) }
{
    for cell in answer {
        check_cell(cell, known)?;
    }
    Ok(())
}

// A part of a query whose answers have this width.
fn read_part(alloc: Global, part: &PartText, width: u32, target: &Schema) -> Result<Part, TextFault>
    requires { PartHasFewCells part.now }
    ensures { ReadsOrMemory result (part_of_text target.now part.now) (part_fault target.now width part.now) }
{
    let none = Names::new(alloc);
    let known = Names::of_atoms(alloc, part.atoms.items(), &none)?;
    let atoms = read_atoms(alloc, part.atoms.items(), target, &known, &none)?;
    check_width(part, width)?;
    check_answer(part.answer.items(), &known)?;
    let answer = read_cells(alloc, part.answer.items(), &known, &none)?;
    Ok(Part { answer, atoms })
}

// How many cells the answer of the first part has.
fn width(parts: &[PartText]) -> u32
    requires { Each parts.now PartHasFewCells }
    ensures { result ≡ width_of parts.now }
{
    match parts {
        [first, ..] => first.answer.len() as u32,
        [] => 0,
    }
}

/// The query of these parts.
///
/// # Errors
///
/// `At` with the first fault, part by part. `Memory` if there is no memory, which may come at any point.
pub(crate) fn named_query(
    alloc: Global,
    parts: &[PartText],
    target: &Schema,
) -> Result<Query, TextFault>
    requires { Each parts.now PartHasFewCells }
    ensures { ReadsOrMemory result (query_of target.now parts.now) (query_fault target.now parts.now) }
{
    let width = width(parts);
    let mut read = Items::new(alloc);
    for part in parts {
        read.push(read_part(alloc, part, width, target)?)?;
    }
    Ok(Query { width, parts: read })
}
