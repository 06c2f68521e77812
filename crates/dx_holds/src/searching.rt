// A search for values of existential variables, part by part.
ghost use Rattle.std.specs.Prelude.{◌≡◌, ◌↔◌, ◌<◌, ◌≤◌, ℕ, IsTrue, IfSome, MatchBool, MatchOption, length, vec_capacity};
ghost use Rattle.dx_base.specs.Members.{◌∈◌, IsPrefix};
ghost use Rattle.dx_model.specs.declared.rules.Cell.TheVariants.{Ex};
ghost use Rattle.dx_model.specs.Rules.{atom_at};
ghost use Rattle.dx_holds.specs.Searching.{HasRoomForAtoms, IsAtomWanted, NoneLeft, found_variables};
ghost use Rattle.dx_holds.specs.Questions.{IsStateOf, RestFails};

use crate::matching::{Found, found_at, next_place};
use crate::question::Question;
use dx_model::{Atom, Cell};

/// Whether the cell is a variable that was found.
fn is_found(cell: &Cell, found: &[Found]) -> bool
    ensures { IsTrue result ↔ ((v : ℕ) × (cell.now ≡ Ex v) × (v ∈ found_variables found.now)) }
{
    match cell {
        Cell::Ex(variable) => found_at(found, *variable).is_some(),
        _ => false,
    }
}

/// Whether one of the cells is a variable that was found.
fn has_found(cells: &[Cell], found: &[Found]) -> bool
    ensures { IsTrue result ↔ ((v : ℕ) × (Ex v ∈ cells.now) × (v ∈ found_variables found.now)) }
{
    cells.iter().any(|cell| is_found(cell, found))
}

/// Whether the atom is wanted: each is, or those that have a variable that was found since.
fn is_wanted(atom: &Atom, found: &[Found], since: Option<usize>) -> bool
    requires { IfSome since (λ m. m ≤ length found.now) }
    ensures { IsTrue result ↔ IsAtomWanted found.now since atom.now }
{
    match since {
        None => true,
        Some(mark) => has_found(atom.cells.items(), &found[mark..]),
    }
}

/// Whether the atom is done.
fn is_done(done: &[usize], atom: usize) -> bool
    ensures { IsTrue result ↔ (atom ∈ done.now) }
{
    done.contains(&atom)
}

/// Whether an atom, by its place, is wanted and not done.
fn is_next(
    atoms: &[Atom],
    found: &[Found],
    done: &[usize],
    since: Option<usize>,
    place: usize,
) -> bool
    requires since { IfSome since (λ m. m ≤ length found.now) }
    requires place { place < length atoms.now }
    ensures { IsTrue result ↔ ((¬ (place ∈ done.now)) × IsAtomWanted found.now since (atom_at atoms.now place)) }
{
    !is_done(done, place) && is_wanted(&atoms[place], found, since)
}

/// The first atom that is wanted and not done.
fn next_atom(atoms: &[Atom], found: &[Found], done: &[usize], since: Option<usize>) -> Option<usize>
    requires { IfSome since (λ m. m ≤ length found.now) }
    ensures { MatchOption result (NoneLeft atoms.now found.now done.now since) (λ i. (i < length atoms.now) × ¬ (i ∈ done.now)) }
{
    (0..atoms.len()).find(|place| is_next(atoms, found, done, since, *place))
}

/// Finds values with which all wanted atoms are facts, beside those that are done. An atom that shares a variable with
/// one that was just done is wanted next, so that parts that share none are never tried in all combinations.
pub(crate) fn extend(
    question: &Question,
    found: &mut Vec<Found>,
    done: &mut Vec<usize>,
    since: Option<usize>,
) -> bool
    requires state { IsStateOf question.now (vec_capacity found.old) found.old.items done.old.items }
    requires room { HasRoomForAtoms question.now.atoms.now found.old done.old }
    requires since { IfSome since (λ m. m ≤ length found.old.items) }
    ensures found_capacity { vec_capacity found.new ≡ vec_capacity found.old }
    ensures done_capacity { vec_capacity done.new ≡ vec_capacity done.old }
    ensures found_begins { IsPrefix found.old.items found.new.items }
    ensures done_begins { IsPrefix done.old.items done.new.items }
    ensures cases { MatchBool result
        (IsStateOf question.now (vec_capacity found.old) found.new.items done.new.items
        × NoneLeft question.now.atoms.now found.new.items done.new.items since)
        (RestFails question.now found.old.items done.old.items) }
{
    let wanted = next_atom(question.atoms, found.as_slice(), done.as_slice(), since);
    let Some(next) = wanted else {
        return true;
    };
    let atom = &question.atoms[next];
    let mark = found.len();
    let before = done.len();
    let mut from = 0;
    while let Some(place) = next_place(question, found, atom, from) {
        done.push_reserved(next);
        if extend(question, found, done, Some(mark)) {
            return extend(question, found, done, since);
        }
        found.truncate(mark);
        done.truncate(before);
        from = place + 1;
    }
    false
}
