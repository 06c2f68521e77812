// States of the search for cell maps, and the memory of those that it has gone through.
ghost use Rattle.std.specs.Prelude.{◌≡◌, IfOk, OnOk, cond, false, true};
ghost use Rattle.std.specs.List.{list_any};
ghost use Rattle.dx_model.specs.Covers.{same_cell};
ghost use Rattle.dx_cover.specs.States.{counts, remembered, same_meetings, same_state, stands_in, state_of};

use crate::cells::is_same_cell;
use dx_base::Items;
use dx_model::{Atom, Cell, CellMap, Meeting, copy_cell};
use std::alloc::{AllocError, Global};

/// How many states are remembered.
const MOST_STATES: usize = 4096;

/// A state of the search: how many atoms are left, and the meetings that count for them.
#[derive(Drop)]
pub(crate) struct State {
    pub left: usize,
    pub meetings: Items<Meeting>,
}

/// What a search has found, and the states that it has gone through: those that add nothing more, and the dead ones, below
/// which there is no cell map.
#[derive(Drop)]
pub(crate) struct Search {
    pub found: Vec<CellMap>,
    pub gone: Vec<State>,
    pub dead: Vec<State>,
}

/// Whether a cell is one of these.
pub(crate) fn is_among(cell: &Cell, cells: &[Cell]) -> bool
    ensures { result ≡ list_any (same_cell cell.now) cells.now }
{
    cells.iter().any(|other| is_same_cell(cell, other))
}

/// Whether a cell stands in these atoms.
pub(crate) fn is_in(cell: &Cell, rest: &[Atom]) -> bool
    ensures { result ≡ stands_in rest.now cell.now }
{
    rest.iter().any(|atom| is_among(cell, atom.cells.items()))
}

/// Whether a cell counts for the rest: it stands there, or is an exported variable if those count.
pub(crate) fn is_counted(exported: bool, rest: &[Atom], cell: &Cell) -> bool
    ensures { result ≡ counts exported rest.now cell.now }
{
    match cell {
        Cell::Var(_) => exported || is_in(cell, rest),
        _ => is_in(cell, rest),
    }
}

/// The state of a search that has met these cells and has the rest before it, with or without the exported variables.
pub(crate) fn make_state(
    alloc: Global,
    exported: bool,
    rest: &[Atom],
    bound: &[Meeting],
) -> Result<State, AllocError>
    ensures { IfOk result (λ s. s ≡ state_of exported rest.now bound.now) }
{
    let mut meetings = Items::new(alloc);
    for meeting in bound {
        if is_counted(exported, rest, &meeting.cell) {
            let cell = copy_cell(&meeting.cell)?;
            let met = copy_cell(&meeting.met)?;
            meetings.push(Meeting { cell, met })?;
        }
    }
    Ok(State {
        left: rest.len(),
        meetings,
    })
}

/// Whether two rows of meetings are one.
pub(crate) fn are_same_meetings(a: &[Meeting], b: &[Meeting]) -> bool
    ensures { result ≡ same_meetings a.now b.now }
{
    if a.len() != b.len() {
        return false;
    }
    a.iter().zip(b).all(|(meeting, other)| {
        is_same_cell(&meeting.cell, &other.cell) && is_same_cell(&meeting.met, &other.met)
    })
}

/// Whether two states are one.
pub(crate) fn is_same_state(a: &State, b: &State) -> bool
    ensures { result ≡ same_state a.now b.now }
{
    a.left == b.left && are_same_meetings(a.meetings.items(), b.meetings.items())
}

/// Whether a state is one of these.
pub(crate) fn is_known(state: &State, states: &[State]) -> bool
    ensures { result ≡ list_any (same_state state.now) states.now }
{
    states.iter().any(|other| is_same_state(state, other))
}

/// Adds a state to these, if there is room.
pub(crate) fn add_state(states: &mut Vec<State>, state: State) -> Result<(), AllocError>
    ensures { OnOk result (states.new.items ≡ remembered states.old.items state) }
{
    if states.len() < MOST_STATES {
        states.push(state)?;
    }
    Ok(())
}

/// Remembers the state that a search has gone through, and whether there may be a cell map below it.
pub(crate) fn remember(
    alloc: Global,
    rest: &[Atom],
    bound: &[Meeting],
    any: bool,
    search: &mut Search,
) -> Result<(), AllocError>
    ensures found { OnOk result (search.new.found.items ≡ search.old.found.items) }
    ensures gone { OnOk result (search.new.gone.items
        ≡ cond any (remembered search.old.gone.items (state_of true rest.now bound.now)) search.old.gone.items) }
    ensures dead { OnOk result (search.new.dead.items
        ≡ cond any search.old.dead.items (remembered search.old.dead.items (state_of false rest.now bound.now))) }
{
    let state = make_state(alloc, any, rest, bound)?;
    if any {
        add_state(&mut search.gone, state)
    } else {
        add_state(&mut search.dead, state)
    }
}
