// The order in which a plain search makes atoms rows.
use crate::atom::{PatternAtom, Term};
use std::alloc::{AllocError, Global};

/// Into how many heaps atoms are put: by how many of their numbers are known, and those of which all are known.
const HEAPS: usize = 12;

/// An atom that is left: how many of its terms have no number yet, how many have one, and whether it is in the order.
#[derive(Clone, Copy)]
struct Left {
    unknown: usize,
    known: usize,
    is_placed: bool,
}

/// Atoms in an order in which each has a variable of an earlier one, as far as that goes: first those of which all numbers are
/// known, and else those with the most. It is a matter of time alone.
#[derive(Drop)]
struct Linked {
    order: Vec<usize>,
    left: Vec<Left>,
    is_met: Vec<bool>,
    atoms_of: Vec<Vec<usize>>,
    heaps: Vec<Vec<usize>>,
    first: usize,
}

// Whether the number of a term is known, if the variables that were met have one.
fn is_known(is_met: &[bool], term: Term) -> bool {
    match term {
        Term::Number(_) => true,
        Term::Variable(variable) => match is_met.get(variable as usize) {
            None => false,
            Some(met) => *met,
        },
    }
}

// An atom with these terms.
fn left_of(is_met: &[bool], terms: &[Term]) -> Left {
    let mut known = 0;
    for place in 0..terms.len() {
        if is_known(is_met, terms[place]) && known <= place {
            known += 1;
        }
    }
    Left {
        unknown: terms.len().saturating_sub(known),
        known,
        is_placed: false,
    }
}

// The heap of an atom.
fn heap_of(left: Left) -> usize {
    if left.unknown == 0 {
        return HEAPS - 1;
    }
    left.known.min(HEAPS - 2)
}

// Whether the atom at a place is not in the order yet.
fn is_left(left: &[Left], place: usize) -> bool {
    match left.get(place) {
        None => false,
        Some(atom) => !atom.is_placed,
    }
}

// The last atom of a heap that is not in the order yet. It leaves the heap with those above it.
fn pop_left(heap: &mut Vec<usize>, left: &[Left]) -> Option<usize> {
    let above = heap
        .iter()
        .rev()
        .position(|place| is_left(left, *place))
        .unwrap_or(heap.len());
    heap.truncate(heap.len().saturating_sub(above));
    heap.pop()
}

/// In how many atoms a variable stands.
pub(crate) fn count_of(atoms_of: &[Vec<usize>], variable: u32) -> usize {
    match atoms_of.get(variable as usize) {
        None => 0,
        Some(atoms) => atoms.len(),
    }
}

// Lists, all empty.
fn empty_lists(alloc: Global, count: usize) -> Result<Vec<Vec<usize>>, AllocError> {
    let mut lists = Vec::with_capacity(alloc, count)?;
    for _ in 0..count {
        lists.push(Vec::new(alloc))?;
    }
    Ok(lists)
}

// Which variables are known.
fn known_ones(alloc: Global, known: &[Option<u32>]) -> Result<Vec<bool>, AllocError> {
    let mut all = Vec::with_capacity(alloc, known.len())?;
    for number in known {
        all.push(number.is_some())?;
    }
    Ok(all)
}

impl Linked {
    // Notes an atom, and puts it into its heap if all its numbers are known.
    fn note(&mut self, atom: &PatternAtom, place: usize) -> Result<(), AllocError> {
        for term in atom.terms.items() {
            if let Term::Variable(variable) = term {
                if let Some(atoms) = self.atoms_of.get_mut(*variable as usize) {
                    atoms.push(place)?;
                }
            }
        }
        let left = left_of(&self.is_met, atom.terms.items());
        self.left.push(left)?;
        if left.unknown == 0 {
            self.put(place, left)?;
        }
        Ok(())
    }

    // Puts an atom into its heap.
    fn put(&mut self, place: usize, left: Left) -> Result<(), AllocError> {
        if let Some(heap) = self.heaps.get_mut(heap_of(left)) {
            heap.push(place)?;
        }
        Ok(())
    }

    // One number more of an atom is known.
    fn raise(&mut self, place: usize) -> Result<(), AllocError> {
        if let Some(left) = self.left.get_mut(place) {
            left.unknown = left.unknown.saturating_sub(1);
            left.known = left.known.saturating_add(1);
            let raised = *left;
            if !raised.is_placed {
                self.put(place, raised)?;
            }
        }
        Ok(())
    }

    // The last of the atoms of a variable that were not raised yet.
    fn pop_of(&mut self, variable: u32) -> Option<usize> {
        self.atoms_of.get_mut(variable as usize)?.pop()
    }

    // A variable is met: its number is known in all its atoms.
    fn meet(&mut self, variable: u32) -> Result<(), AllocError> {
        if let Some(true) = self.is_met.get(variable as usize) {
            return Ok(());
        }
        if let Some(met) = self.is_met.get_mut(variable as usize) {
            *met = true;
        }
        for _ in 0..count_of(&self.atoms_of, variable) {
            if let Some(place) = self.pop_of(variable) {
                self.raise(place)?;
            }
        }
        Ok(())
    }

    // An atom of the highest heap that has one that is left.
    fn next_linked(&mut self) -> Option<usize> {
        let left = &self.left;
        self.heaps
            .iter_mut()
            .rev()
            .find_map(|heap| pop_left(heap, left))
    }

    // The first atom that is left.
    fn next_first(&mut self) -> Option<usize> {
        let left = &self.left;
        let place = (self.first..left.len()).find(|place| is_left(left, *place))?;
        self.first = place;
        Some(place)
    }

    // The atom that comes next, if one is left.
    fn next(&mut self) -> Option<usize> {
        match self.next_linked() {
            Some(place) => Some(place),
            None => self.next_first(),
        }
    }

    // Puts an atom at the end.
    fn place(&mut self, atom: &PatternAtom, place: usize) -> Result<(), AllocError> {
        if let Some(left) = self.left.get_mut(place) {
            left.is_placed = true;
        }
        self.order.push(place)?;
        for term in atom.terms.items() {
            if let Term::Variable(variable) = term {
                self.meet(*variable)?;
            }
        }
        Ok(())
    }
}

/// The places of atoms in such an order.
///
/// # Errors
///
/// `AllocError` if there is no memory.
pub(crate) fn linked_order(
    alloc: Global,
    atoms: &[PatternAtom],
    known: &[Option<u32>],
) -> Result<Vec<usize>, AllocError> {
    let mut linked = Linked {
        order: Vec::with_capacity(alloc, atoms.len())?,
        left: Vec::with_capacity(alloc, atoms.len())?,
        is_met: known_ones(alloc, known)?,
        atoms_of: empty_lists(alloc, known.len())?,
        heaps: empty_lists(alloc, HEAPS)?,
        first: 0,
    };
    for place in 0..atoms.len() {
        linked.note(&atoms[place], place)?;
    }
    place_each(&mut linked, atoms)?;
    Ok(linked.order)
}

// Puts each atom into the order.
fn place_each(linked: &mut Linked, atoms: &[PatternAtom]) -> Result<(), AllocError> {
    for _ in 0..atoms.len() {
        if let Some(place) = linked.next() {
            if let Some(atom) = atoms.get(place) {
                linked.place(atom, place)?;
            }
        }
    }
    Ok(())
}
