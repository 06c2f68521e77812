// Atoms, by the numbers of what they name.
ghost use Rattle.std.specs.Prelude.{◌≡◌, IfOk, map};
ghost use Rattle.dx_line_text.specs.Answers.{AnswersOrFault, ReadsOrMemory};
ghost use Rattle.dx_line_text.specs.Naming.{set_number};
ghost use Rattle.dx_tgd_text.specs.Reading.{atom_fault, atom_of_text, atoms_fault, atoms_of_texts, cell_of};

use crate::names::Names;
use dx_base::Items;
use dx_model::{Atom, Cell};
use dx_schema::Schema;
use dx_schema_text::{AtomText, CellText};
use dx_tokens::{TextFault, TextKind};
use std::alloc::{AllocError, Global};

// The table of an atom's set. Refused is a set that isn't there, then another number of cells than the set has columns.
fn read_set(schema: &Schema, atom: &AtomText) -> Result<u32, TextFault>
    ensures { AnswersOrFault result (set_number schema.now atom.now.set) (atom_fault schema.now atom.now) }
{
    // What holds of the tables of each schema.
    let _tables = schema.tables();
    let Some(table) = schema.table_named(&atom.set) else {
        return Err(TextFault::At {
            place: atom.place,
            kind: TextKind::UnknownName,
        });
    };
    if atom.cells.len() != u64::from(schema.width(table)) {
        return Err(TextFault::At {
            place: atom.place,
            kind: TextKind::Width,
        });
    }
    Ok(table)
}

fn read_cell(cell: &CellText, known: &Names, fresh: &Names) -> Result<Cell, AllocError>
    ensures { IfOk result (λ c. c ≡ cell_of known.now fresh.now cell.now) }
{
    match cell {
        CellText::Name { name, place: _ } => match known.find(name) {
            Some(number) => Ok(Cell::Var(number)),
            None => Ok(Cell::Ex(fresh.number(name))),
        },
        CellText::Literal(text) => Ok(Cell::Lit(text.copy()?)),
    }
}

/// Cells, with known names as variables and others as existential ones.
///
/// # Errors
///
/// `AllocError` if there is no memory.
pub fn read_cells(
    alloc: Global,
    cells: &[CellText],
    known: &Names,
    fresh: &Names,
) -> Result<Items<Cell>, AllocError>
    ensures { IfOk result (λ cs. cs ≡ map (cell_of known.now fresh.now) cells.now) }
{
    let mut read = Items::new(alloc);
    for cell in cells {
        read.push(read_cell(cell, known, fresh)?)?;
    }
    Ok(read)
}

fn read_atom(
    alloc: Global,
    atom: &AtomText,
    schema: &Schema,
    known: &Names,
    fresh: &Names,
) -> Result<Atom, TextFault>
    ensures { ReadsOrMemory result (atom_of_text schema.now known.now fresh.now atom.now) (atom_fault schema.now atom.now) }
{
    let table = read_set(schema, atom)?;
    let cells = read_cells(alloc, atom.cells.items(), known, fresh)?;
    Ok(Atom { table, cells })
}

/// Atoms, with known names as variables and others as existential ones.
///
/// # Errors
///
/// `At` with the first atom whose set isn't there (`UnknownName`) or has another number of columns (`Width`). `Memory` if there
/// is no memory, which may come at any point.
pub fn read_atoms(
    alloc: Global,
    atoms: &[AtomText],
    schema: &Schema,
    known: &Names,
    fresh: &Names,
) -> Result<Items<Atom>, TextFault>
    ensures { ReadsOrMemory result
        (atoms_of_texts schema.now known.now fresh.now atoms.now)
        (atoms_fault schema.now atoms.now) }
{
    let mut read = Items::new(alloc);
    for atom in atoms {
        read.push(read_atom(alloc, atom, schema, known, fresh)?)?;
    }
    Ok(read)
}
