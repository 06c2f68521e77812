// What can still be chosen for the atoms that are left, found by looking at them two by two.
ghost use Rattle.std.specs.Prelude.{◌≡◌, ◌<◌, false, true, IfOk, List, [], length};
ghost use Rattle.dx_base.specs.Members.{◌∈◌, Each, behind};
ghost use Rattle.dx_model.specs.declared.rules.Atom.{Atom as AtomValue};
ghost use Rattle.dx_model.specs.declared.covers.Meeting.{Meeting as MeetingValue};
ghost use Rattle.dx_model.specs.declared.rules.Rule.{Rule as RuleValue};
ghost use Rattle.dx_cover.specs.Pairs.{Disagree, IsChoice, IsNarrowing, IsShared, IsWithin};
ghost use Rattle.dx_cover.specs.Partners.{IsExcluded};
ghost use Rattle.dx_cover.specs.Search.{MeetInWidths, maps_under};

use crate::cells::is_same_cell;
use crate::partners::never_meets;
use crate::search::{has_met, is_allowed};
use dx_model::{Atom, Meeting};
use std::alloc::{AllocError, Global};

/// A part of a search: for each atom of the rest one of the others is chosen, after these meetings.
#[derive(Drop)]
pub(crate) struct Part<'a> {
    pub rest: &'a [Atom],
    pub others: &'a [Atom],
    pub bound: &'a [Meeting],
}

/// An atom of the rest, and which of the others may still be chosen for it.
#[derive(Drop)]
pub(crate) struct Choice<'a> {
    pub atom: &'a Atom,
    pub left: Vec<&'a Atom>,
}

/// A place of an atom, and a place of another atom with the same cell.
#[derive(Drop)]
pub(crate) struct Place {
    pub own: usize,
    pub its: usize,
}

/// What has become of all choices.
pub(crate) enum Round<'a> {
    /// Nothing is left for some atom.
    NoneLeft,
    /// All are as they were.
    Same,
    /// These are left.
    Fewer(Vec<Choice<'a>>),
}

/// The places of the cells that have met one.
fn met_places(alloc: Global, atom: &Atom, bound: &[Meeting]) -> Result<Vec<usize>, AllocError>
    ensures { IfOk result (λ places. Each places.items (λ p. p < length atom.now.cells)) }
{
    let cells = atom.cells.items();
    let mut places = Vec::new(alloc);
    for place in 0..cells.len() {
        if has_met(&cells[place], bound) {
            places.push(place)?;
        }
    }
    Ok(places)
}

/// Whether the other atom can't be chosen at all: a cell may not meet its cell.
fn is_forbidden(atom: &Atom, other: &Atom) -> bool
    ensures { result ≡ true → (bound : List MeetingValue) → IsExcluded bound atom.now other.now }
{
    let cells = atom.cells.items();
    let others = other.cells.items();
    cells
        .iter()
        .zip(others)
        .any(|(cell, met)| !is_allowed(cell, met))
}

/// Whether the other atom can't be chosen any more: a cell may not meet its cell, or one in these places has met another.
fn is_excluded_at(atom: &Atom, other: &Atom, places: &[usize], bound: &[Meeting]) -> bool
    requires width { length atom.now.cells ≡ length other.now.cells }
    requires within { Each places.now (λ p. p < length atom.now.cells) }
    ensures { result ≡ true → IsExcluded bound.now atom.now other.now }
{
    if is_forbidden(atom, other) {
        return true;
    }
    let cells = atom.cells.items();
    let others = other.cells.items();
    places.iter().any(|place| never_meets(&cells[*place], &others[*place], bound))
}

/// The atom, with those of the others that the meetings don't exclude.
fn choice_of<'a>(alloc: Global, atom: &'a Atom, part: &Part<'a>) -> Result<Choice<'a>, AllocError>
    requires own { atom.now ∈ part.now.rest.now }
    requires widths { MeetInWidths part.now.rest.now part.now.others.now }
    ensures { IfOk result (IsChoice part.now) }
{
    let met = met_places(alloc, atom, part.bound)?;
    let mut left = Vec::new(alloc);
    for other in part.others {
        if atom.table == other.table && !is_excluded_at(atom, other, &met, part.bound) {
            left.push(other)?;
        }
    }
    Ok(Choice { atom, left })
}

/// Each atom of the rest, with those of the others that the meetings don't exclude.
fn first_choices<'a>(alloc: Global, part: &Part<'a>) -> Result<Vec<Choice<'a>>, AllocError>
    requires widths { MeetInWidths part.now.rest.now part.now.others.now }
    ensures { IfOk result (λ all. Each all.items (IsChoice part.now)) }
{
    let mut all = Vec::new(alloc);
    for atom in part.rest {
        all.push(choice_of(alloc, atom, part)?)?;
    }
    Ok(all)
}

/// The places at which two atoms have the same cell, if it has met none.
fn shared_places(
    alloc: Global,
    atom: &Atom,
    next: &Atom,
    bound: &[Meeting],
) -> Result<Vec<Place>, AllocError>
    ensures { IfOk result (λ places. Each places.items (IsShared atom.now next.now)) }
{
    let own_cells = atom.cells.items();
    let its_cells = next.cells.items();
    let mut places = Vec::new(alloc);
    for own in 0..own_cells.len() {
        for its in 0..its_cells.len() {
            if is_same_cell(&own_cells[own], &its_cells[its]) && !has_met(&own_cells[own], bound) {
                places.push(Place { own, its })?;
            }
        }
    }
    Ok(places)
}

/// Whether two choices have the same cells in these places.
fn agree(places: &[Place], chosen: &Atom, next: &Atom) -> bool
    requires { Each places.now (IsWithin chosen.now next.now) }
    ensures { result ≡ false → Disagree places.now chosen.now next.now }
{
    let own_cells = chosen.cells.items();
    let its_cells = next.cells.items();
    places.iter().all(|place| is_same_cell(&own_cells[place.own], &its_cells[place.its]))
}

/// Whether one of those that are left agrees with what is chosen.
fn is_supported(places: &[Place], chosen: &Atom, left: &[&Atom]) -> bool
    requires { Each (behind left.now) (λ next. Each places.now (IsWithin chosen.now next)) }
    ensures { result ≡ false → Each (behind left.now) (Disagree places.now chosen.now) }
{
    left.iter().any(|next| agree(places, chosen, next))
}

/// The choice without those that agree with none of those that are left for another atom.
fn narrow<'a>(
    alloc: Global,
    choice: Choice<'a>,
    by: &Choice<'_>,
    part: &Part<'_>,
) -> Result<Choice<'a>, AllocError>
    requires own { IsChoice part.now choice }
    requires other { IsChoice part.now by.now }
    ensures { IfOk result (IsChoice part.now) }
{
    let places = shared_places(alloc, choice.atom, by.atom, part.bound)?;
    if places.is_empty() {
        return Ok(choice);
    }
    let mut left = Vec::new(alloc);
    for chosen in &choice.left {
        if is_supported(&places, chosen, &by.left) {
            left.push(*chosen)?;
        }
    }
    Ok(Choice {
        atom: choice.atom,
        left,
    })
}

/// The choice without those that agree with none of those that are left for one of the atoms.
fn narrow_by_all<'a>(
    alloc: Global,
    choice: &Choice<'a>,
    all: &[Choice<'_>],
    part: &Part<'_>,
) -> Result<Choice<'a>, AllocError>
    requires own { IsChoice part.now choice.now }
    requires others { Each all.now (IsChoice part.now) }
    ensures { IfOk result (IsChoice part.now) }
{
    let mut left = Vec::new(alloc);
    left.extend_from_slice(&choice.left)?;
    let mut narrower = Choice {
        atom: choice.atom,
        left,
    };
    for by in all {
        narrower = narrow(alloc, narrower, by, part)?;
    }
    Ok(narrower)
}

/// Narrows each choice once.
fn narrow_all<'a>(
    alloc: Global,
    all: &[Choice<'a>],
    part: &Part<'_>,
) -> Result<Round<'a>, AllocError>
    requires { Each all.now (IsChoice part.now) }
    ensures { IfOk result (IsNarrowing part.now) }
{
    let mut next = Vec::new(alloc);
    let mut is_same = true;
    for choice in all {
        let narrower = narrow_by_all(alloc, choice, all, part)?;
        if narrower.left.is_empty() {
            return Ok(Round::NoneLeft);
        }
        is_same &= narrower.left.len() == choice.left.len();
        next.push(narrower)?;
    }
    if is_same {
        return Ok(Round::Same);
    }
    Ok(Round::Fewer(next))
}

/// Whether something is left for each atom after the choices have been narrowed as often as there are atoms, or until
/// nothing changes. If not, no cell map begins with these meetings.
pub(crate) fn have_choices(alloc: Global, part: &Part<'_>) -> Result<bool, AllocError>
    requires { MeetInWidths part.now.rest.now part.now.others.now }
    ensures { IfOk result (λ b. b ≡ false
        → (i : RuleValue) → maps_under i part.now.bound.now part.now.rest.now part.now.others.now ≡ []) }
{
    let mut all = first_choices(alloc, part)?;
    for _round in 0..part.rest.len() {
        match narrow_all(alloc, &all, part)? {
            Round::NoneLeft => return Ok(false),
            Round::Same => return Ok(true),
            Round::Fewer(fewer) => all = fewer,
        }
    }
    Ok(true)
}
