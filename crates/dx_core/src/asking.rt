// Rows of a block as atoms: a variable for each null of the block.
ghost use Rattle.std.specs.Prelude.{◌≡◌, ◌<◌, ◌^◌, IfOk, None, length, replicate};
ghost use Rattle.dx_base.specs.Members.{Each};
ghost use Rattle.dx_blocks.specs.Numbered.{IsRowIn};
ghost use Rattle.dx_solver.specs.Questions.{FitsAtom};
ghost use Rattle.dx_core.specs.Asking.{AreAtoms, AscendStrictly, IsAtomOf, IsTermOf};

use dx_blocks::At;
use dx_instance::Numbers;
use dx_solver::{PatternAtom, Taken, Term, Terms};
use std::alloc::{AllocError, Global};

/// The term that stands for a number.
pub(crate) fn term_of(nulls: &[u32], number: u32) -> Term
    requires ascend { AscendStrictly nulls.now }
    requires few { length nulls.now < 2 ^ 32 }
    ensures { IsTermOf nulls.now number result }
{
    match nulls.binary_search(&number) {
        Ok(place) => Term::Variable(place as u32),
        Err(_) => Term::Number(number),
    }
}

// The atom of a row.
fn atom_of(
    alloc: Global,
    numbers: &Numbers<'_>,
    nulls: &[u32],
    at: At,
) -> Result<PatternAtom, AllocError>
    requires ascend { AscendStrictly nulls.now }
    requires few { length nulls.now < 2 ^ 32 }
    requires row { IsRowIn numbers.now at }
    ensures { IfOk result (IsAtomOf numbers.now nulls.now at) }
{
    let mut terms = Terms::new(alloc);
    for number in numbers.row(at.table, at.place) {
        terms.push(term_of(nulls, *number))?;
    }
    Ok(PatternAtom {
        table: at.table,
        terms,
    })
}

/// The atoms of those of the rows that are not taken out.
///
/// # Errors
///
/// `AllocError` if there is no memory.
pub(crate) fn atoms_of(
    alloc: Global,
    numbers: &Numbers<'_>,
    nulls: &[u32],
    taken: &Taken,
    rows: &[At],
) -> Result<Vec<PatternAtom>, AllocError>
    requires ascend { AscendStrictly nulls.now }
    requires few { length nulls.now < 2 ^ 32 }
    requires rows { Each rows.now (IsRowIn numbers.now) }
    ensures atoms { IfOk result (λ atoms. AreAtoms numbers.now nulls.now taken.now rows.now atoms.items) }
    ensures fit { IfOk result (λ atoms. Each atoms.items (FitsAtom numbers.now.tables (length nulls.now))) }
{
    prove!((numbers.len() as u64) < 1 << 32);
    let mut atoms = Vec::new(alloc);
    for at in rows {
        if !taken.has(at.table, at.place) {
            atoms.push(atom_of(alloc, numbers, nulls, *at)?)?;
        }
    }
    Ok(atoms)
}

/// Nothing known of so many variables.
///
/// # Errors
///
/// `AllocError` if there is no memory.
#[tactic(auto, using(std::proofs::lemmas::List::replicate_more))]
pub(crate) fn nothing_known(alloc: Global, count: usize) -> Result<Vec<Option<u32>>, AllocError>
    ensures { IfOk result (λ known. known.items ≡ replicate count None) }
{
    let mut known = Vec::with_capacity(alloc, count)?;
    for _ in 0..count {
        known.push(None)?;
    }
    Ok(known)
}
