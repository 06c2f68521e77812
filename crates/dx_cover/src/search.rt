ghost use Rattle.std.specs.Prelude.{◌≡◌, ◌≤◌, ◌++◌, IfOk, IsTrue, OnOk, false, List, [], ◌∷◌, length, map};
ghost use Rattle.std.specs.List.{list_all, list_any};
ghost use Rattle.dx_model.specs.declared.rules.Atom.{Atom as AtomValue};
ghost use Rattle.dx_model.specs.declared.rules.Rule.{Rule as RuleValue};
ghost use Rattle.dx_model.specs.declared.rules.Cell.TheVariants.{Var as VarCell, Ex as ExCell};
ghost use Rattle.dx_model.specs.Covers.{below, first_met, is_cell_map, map_of, may_meet, meet, same_cell, same_cells, used_maps};
ghost use Rattle.dx_model.specs.Fitting.{AgreeInWidths, IsRule};
ghost use Rattle.dx_cover.specs.Search.{MapsSeen, MeetInWidths, found_after, has_met_in, maps_under, agrees_with_one};
ghost use Rattle.dx_cover.specs.States.{IsSearch, IsTrueFor, last, same_state, state_of};

use crate::cells::is_same_cell;
use crate::pairs::{Part, have_choices};
use crate::partners::{have_partners, is_excluded};
use crate::problem::Problem;
use crate::states::{Search, State, is_known, make_state, remember};
use crate::variables::{existentials, exported};
use dx_base::Items;
use dx_model::{Atom, Cell, CellMap, Meeting, Rule, copy_cell};
use std::alloc::{AllocError, Global};

/// With more dead states than these, a search looks at the atoms two by two.
const FEW_DEAD: usize = 32;

/// Whether a cell may meet another.
pub(crate) fn is_allowed(cell: &Cell, met: &Cell) -> bool
    ensures { result ≡ may_meet cell.now met.now }
{
    match (cell, met) {
        (Cell::Var(_), Cell::Ex(_)) => false,
        (Cell::Lit(_), _) => is_same_cell(cell, met),
        _ => true,
    }
}

/// Whether what a cell meets first is this cell.
pub(crate) fn first_is(cell: &Cell, meetings: &[Meeting], met: &Cell) -> bool
    ensures { result ≡ same_cell (first_met cell.now meetings.now) met.now }
{
    for meeting in meetings {
        if is_same_cell(cell, &meeting.cell) {
            return is_same_cell(&meeting.met, met);
        }
    }
    is_same_cell(cell, met)
}

/// Whether each cell may meet what it meets, and meets the same wherever it stands.
pub(crate) fn make_map(meetings: &[Meeting]) -> bool
    ensures { result ≡ is_cell_map meetings.now }
{
    meetings.iter().all(|meeting| {
        first_is(&meeting.cell, meetings, &meeting.met) && is_allowed(&meeting.cell, &meeting.met)
    })
}

/// Whether two rows of cells are one.
pub(crate) fn are_same_cells(a: &[Cell], b: &[Cell]) -> bool
    ensures { result ≡ same_cells a.now b.now }
{
    if a.len() != b.len() {
        return false;
    }
    a.iter()
        .zip(b)
        .all(|(cell, other)| is_same_cell(cell, other))
}

/// Whether one of the maps agrees with this one on the exported variables.
pub(crate) fn is_seen(found: &[CellMap], map: &CellMap) -> bool
    ensures { result ≡ agrees_with_one found.now map.now }
{
    found.iter().any(|other| are_same_cells(other.exported.items(), map.exported.items()))
}

// The meeting of two cells.
fn meeting_of(cell: &Cell, met: &Cell) -> Result<Meeting, AllocError>
    ensures { IfOk result (λ m. m ≡ record { cell = cell.now; met = met.now }) }
{
    Ok(Meeting {
        cell: copy_cell(cell)?,
        met: copy_cell(met)?,
    })
}

/// Adds the meetings of two rows of cells.
pub(crate) fn add_meetings(
    bound: &mut Vec<Meeting>,
    cells: &[Cell],
    others: &[Cell],
) -> Result<(), AllocError>
    requires { length cells.now ≡ length others.now }
    ensures { OnOk result (bound.new.items ≡ bound.old.items ++ meet cells.now others.now) }
{
    for i in 0..cells.len() {
        bound.push(meeting_of(&cells[i], &others[i])?)?;
    }
    Ok(())
}

/// The cell that a cell meets first.
pub(crate) fn met_first(cell: &Cell, meetings: &[Meeting]) -> Result<Cell, AllocError>
    ensures { IfOk result (λ c. c ≡ first_met cell.now meetings.now) }
{
    for meeting in meetings {
        if is_same_cell(cell, &meeting.cell) {
            return copy_cell(&meeting.met);
        }
    }
    copy_cell(cell)
}

/// What the variables meet first.
pub(crate) fn images(
    alloc: Global,
    variables: &[u32],
    meetings: &[Meeting],
) -> Result<Vec<Cell>, AllocError>
    ensures { IfOk result (λ v. v.items ≡ map (λ x. first_met (VarCell x) meetings.now) variables.now) }
{
    let mut images = Vec::new(alloc);
    for variable in variables {
        images.push(met_first(&Cell::Var(*variable), meetings)?)?;
    }
    Ok(images)
}

/// What the first existential variables meet first.
pub(crate) fn existential_images(
    alloc: Global,
    count: u32,
    meetings: &[Meeting],
) -> Result<Vec<Cell>, AllocError>
    ensures { IfOk result (λ v. v.items ≡ map (λ x. first_met (ExCell x) meetings.now) (below count)) }
{
    let mut images = Vec::new(alloc);
    for variable in 0..count {
        images.push(met_first(&Cell::Ex(variable), meetings)?)?;
    }
    Ok(images)
}

/// The cell map that these meetings make.
pub(crate) fn map_made(
    alloc: Global,
    problem: &Problem<'_>,
    meetings: &[Meeting],
) -> Result<CellMap, AllocError>
    ensures { IfOk result (λ m. m ≡ map_of problem.now.rule.now meetings.now) }
{
    let exported = images(alloc, problem.variables.as_slice(), meetings)?;
    let existential = existential_images(alloc, problem.existential, meetings)?;
    Ok(CellMap {
        exported: Items::from_vec(exported),
        existential: Items::from_vec(existential),
    })
}

/// Adds a map, if none agrees with it on the exported variables.
pub(crate) fn add_map(found: &mut Vec<CellMap>, map: CellMap) -> Result<(), AllocError>
    requires { length found.old.items ≤ 15 }
    ensures { OnOk result (found.new.items ≡ found_after found.old.items (map ∷ [])) }
{
    if !is_seen(found.as_slice(), &map) {
        found.push(map)?;
    }
    Ok(())
}

// Adds the cell map that these meetings make, if none agrees with it on the exported variables.
fn add_map_made(
    alloc: Global,
    problem: &Problem<'_>,
    meetings: &[Meeting],
    found: &mut Vec<CellMap>,
) -> Result<(), AllocError>
    requires { length found.old.items ≤ 15 }
    ensures { OnOk result (found.new.items ≡ found_after found.old.items (map_of problem.now.rule.now meetings.now ∷ [])) }
{
    let map = map_made(alloc, problem, meetings)?;
    add_map(found, map)?;
    Ok(())
}

/// Whether a cell has met one.
pub(crate) fn has_met(cell: &Cell, meetings: &[Meeting]) -> bool
    ensures { result ≡ has_met_in meetings.now cell.now }
{
    meetings
        .iter()
        .any(|meeting| is_same_cell(cell, &meeting.cell))
}

/// Whether each of the variables has met a cell.
pub(crate) fn have_met(variables: &[u32], meetings: &[Meeting]) -> bool
    ensures { result ≡ list_all (λ x. has_met_in meetings.now (VarCell x)) variables.now }
{
    variables
        .iter()
        .all(|variable| has_met(&Cell::Var(*variable), meetings))
}

/// Whether it is known that all cell maps that begin with these meetings agree with one that is found.
pub(crate) fn is_done(
    alloc: Global,
    problem: &Problem<'_>,
    bound: &[Meeting],
    found: &[CellMap],
) -> Result<bool, AllocError>
    ensures { IfOk result (λ b. IsTrue b → MapsSeen problem.now.rule.now bound.now found.now) }
{
    if !have_met(problem.variables.as_slice(), bound) {
        return Ok(false);
    }
    let map = map_made(alloc, problem, bound)?;
    Ok(is_seen(found, &map))
}

/// What is known of a part of the search before it is gone through.
pub(crate) enum Outlook {
    /// There is no cell map.
    NoMap,
    /// Its cell maps add nothing to those that are found.
    NothingNew,
    /// There may be new ones.
    Open,
}

// Whether the state that has met these cells and has the rest before it is one of these.
fn is_remembered(
    alloc: Global,
    with_exported: bool,
    rest: &[Atom],
    bound: &[Meeting],
    states: &[State],
) -> Result<bool, AllocError>
    ensures { IfOk result (λ b. b ≡ list_any (same_state (state_of with_exported rest.now bound.now)) states.now) }
{
    let state = make_state(alloc, with_exported, rest, bound)?;
    Ok(is_known(&state, states))
}

/// What is known of the cell maps that begin with these meetings.
pub(crate) fn look_ahead(
    alloc: Global,
    problem: &Problem<'_>,
    rest: &[Atom],
    bound: &[Meeting],
    search: &Search,
) -> Result<Outlook, AllocError>
    requires last { rest.now ≡ last (length rest.now) problem.now.rule.now.conclusion }
    ensures { IfOk result (λ k. (others : List AtomValue) → IsSearch problem.now.rule.now others search.now
        → IsTrueFor k problem.now.rule.now bound.now rest.now others search.now.found.items) }
{
    if search.found.len() == 16 {
        return Ok(Outlook::NothingNew);
    }
    if !make_map(bound) {
        return Ok(Outlook::NoMap);
    }
    if is_done(alloc, problem, bound, search.found.as_slice())? {
        return Ok(Outlook::NothingNew);
    }
    let is_dead = is_remembered(alloc, false, rest, bound, search.dead.as_slice())?;
    if is_dead {
        return Ok(Outlook::NoMap);
    }
    let is_gone = is_remembered(alloc, true, rest, bound, search.gone.as_slice())?;
    if is_gone {
        return Ok(Outlook::NothingNew);
    }
    Ok(Outlook::Open)
}

/// Whether it can be seen that no cell map begins with these meetings: by the atoms one by one, and two by two if there are
/// many dead states.
fn is_hopeless(
    alloc: Global,
    rest: &[Atom],
    others: &[Atom],
    bound: &[Meeting],
    dead: usize,
) -> Result<bool, AllocError>
    requires { MeetInWidths rest.now others.now }
    ensures { IfOk result (λ b. IsTrue b → (i : RuleValue) → maps_under i bound.now rest.now others.now ≡ []) }
{
    if !have_partners(rest, others, bound) {
        return Ok(true);
    }
    if dead <= FEW_DEAD {
        return Ok(false);
    }
    let part = Part {
        rest,
        others,
        bound,
    };
    let any = have_choices(alloc, &part)?;
    Ok(!any)
}

/// Finds the cell maps that begin with these meetings, and choose for each of the rest one of the others: false if there is
/// none.
#[cycle(extend)]
pub(crate) fn extend(
    problem: &Problem<'_>,
    rest: &[Atom],
    bound: &mut Vec<Meeting>,
    search: &mut Search,
) -> Result<bool, AllocError>
    requires widths { MeetInWidths rest.now problem.now.others.now }
    requires last { rest.now ≡ last (length rest.now) problem.now.rule.now.conclusion }
    requires memory { IsSearch problem.now.rule.now problem.now.others.now search.old }
    ensures bound { OnOk result (bound.new.items ≡ bound.old.items) }
    ensures memory { OnOk result (IsSearch problem.now.rule.now problem.now.others.now search.new) }
    ensures found { OnOk result (search.new.found.items
        ≡ found_after search.old.found.items (maps_under problem.now.rule.now bound.old.items rest.now problem.now.others.now)) }
    ensures none { IfOk result (λ any. any ≡ false → maps_under problem.now.rule.now bound.old.items rest.now problem.now.others.now ≡ []) }
{
    match look_ahead(problem.alloc, problem, rest, bound.as_slice(), search)? {
        Outlook::NoMap => return Ok(false),
        Outlook::NothingNew => return Ok(true),
        Outlook::Open => {}
    }
    let hopeless = is_hopeless(
        problem.alloc,
        rest,
        problem.others,
        bound.as_slice(),
        search.dead.len(),
    )?;
    if hopeless {
        return Ok(false);
    }
    match rest.split_first() {
        None => {
            add_map_made(problem.alloc, problem, bound.as_slice(), &mut search.found)?;
            Ok(true)
        }
        Some((first, after)) => {
            let any = extend_by_choice(problem, first, after, bound, search)?;
            remember(problem.alloc, rest, bound.as_slice(), any, search)?;
            Ok(any)
        }
    }
}

/// Finds the cell maps that begin with these meetings, and choose for the first atom each of the others in turn, and for each
/// of those after it one of the others: false if there is none.
#[cycle(extend)]
pub(crate) fn extend_by_choice(
    problem: &Problem<'_>,
    first: &Atom,
    after: &[Atom],
    bound: &mut Vec<Meeting>,
    search: &mut Search,
) -> Result<bool, AllocError>
    requires widths { MeetInWidths (first.now ∷ after.now) problem.now.others.now }
    requires last { after.now ≡ last (length after.now) problem.now.rule.now.conclusion }
    requires memory { IsSearch problem.now.rule.now problem.now.others.now search.old }
    ensures bound { OnOk result (bound.new.items ≡ bound.old.items) }
    ensures memory { OnOk result (IsSearch problem.now.rule.now problem.now.others.now search.new) }
    ensures found { OnOk result (search.new.found.items
        ≡ found_after search.old.found.items (maps_under problem.now.rule.now bound.old.items (first.now ∷ after.now) problem.now.others.now)) }
    ensures none { IfOk result (λ any. any ≡ false
        → maps_under problem.now.rule.now bound.old.items (first.now ∷ after.now) problem.now.others.now ≡ []) }
{
    let start = bound.len();
    let mut any = false;
    for other in problem.others {
        if first.table == other.table && !is_excluded(first, other, bound.as_slice()) {
            let cells = first.cells.items();
            add_meetings(bound, cells, other.cells.items())?;
            any |= extend(problem, after, bound, search)?;
            bound.truncate(start);
        }
    }
    Ok(any)
}

/// The used cell maps from rule i to rule j, in order.
///
/// # Errors
///
/// `AllocError` if there is no memory.
pub fn cover(alloc: Global, i: &Rule, j: &Rule) -> Result<Vec<CellMap>, AllocError>
    requires rule { IsRule i.now }
    requires widths { AgreeInWidths (i.now.conclusion ++ j.now.conclusion) }
    ensures { IfOk result (λ v. v.items ≡ used_maps i.now j.now) }
{
    let problem = Problem {
        alloc,
        rule: i,
        others: j.conclusion.items(),
        variables: exported(alloc, i)?,
        existential: existentials(i),
    };
    let rest = i.conclusion.items();
    let mut bound = Vec::new(alloc);
    let mut search = Search {
        found: Vec::new(alloc),
        gone: Vec::new(alloc),
        dead: Vec::new(alloc),
    };
    extend(&problem, rest, &mut bound, &mut search)?;
    Ok(search.found)
}
