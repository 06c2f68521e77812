// Room for a search, reserved before it.
ghost use Rattle.std.specs.Prelude.{◌≡◌, ◌↔◌, ◌<◌, ◌≤◌, ℕ, IfOk, IsTrue, length, vec_capacity};
ghost use Rattle.dx_base.specs.Members.{◌∈◌, Each};
ghost use Rattle.dx_model.specs.declared.rules.Cell.TheVariants.{Ex};
ghost use Rattle.dx_model.specs.Rules.{PlacesSatisfied, cells_of, exported};
ghost use Rattle.dx_model.specs.Fitting.{AtomsFitWidths};
ghost use Rattle.dx_instance.specs.Stored.{facts, widths};
ghost use Rattle.dx_holds.specs.Rooms.{FitsRoom};
ghost use Rattle.dx_holds.specs.Searching.{HasRoomForAtoms};
ghost use Rattle.dx_holds.specs.Questions.{CanHold};

use crate::matching::Found;
use crate::question::Question;
use crate::searching::extend;
use dx_instance::Instance;
use dx_model::{Atom, Cell, Places, Rule};
use std::alloc::{AllocError, Global};
use std::marker::Model;

/// Room to look whether rules are satisfied. A contract sees for how many atoms of a conclusion, and for how many existential
/// variables.
#[derive(Drop)]
pub struct Room {
    atoms: u64,
    existentials: u64,
    found: Vec<Found>,
    done: Vec<usize>,
}

impl Model for Room {
    ghost use Rattle.std.specs.Prelude.{◌≤◌, vec_capacity};
    ghost use Rattle.dx_holds.specs.Rooms.{Size};

    ghost Value = { Size };

    ghost view = { λ r. record { atoms = r.atoms; existentials = r.existentials } };

    ghost invariant = { λ r. (r.atoms ≤ vec_capacity r.done) × (r.existentials ≤ vec_capacity r.found) };
}

/// The greater of two numbers.
fn greater(a: u64, b: u64) -> u64
    ensures first { a ≤ result }
    ensures second { b ≤ result }
{
    if a < b { b } else { a }
}

/// A number above the existential variables of cells, and not below another.
fn above_cells(start: u64, cells: &[Cell]) -> u64
    ensures start { start ≤ result }
    ensures above { (v : ℕ) → Ex v ∈ cells.now → v < result }
{
    let mut above = start;
    for cell in cells {
        if let Cell::Ex(variable) = cell {
            above = greater(above, *variable as u64 + 1);
        }
    }
    above
}

/// A number above the existential variables of atoms.
fn above_atoms(atoms: &[Atom]) -> u64
    ensures { (v : ℕ) → Ex v ∈ cells_of atoms.now → v < result }
{
    let mut above = 0;
    for atom in atoms {
        above = above_cells(above, atom.cells.items());
    }
    above
}

/// Whether there are values with which all atoms are facts.
fn completes(question: &Question, found: &mut Vec<Found>, done: &mut Vec<usize>) -> bool
    requires { HasRoomForAtoms question.now.atoms.now found.old done.old }
    ensures found_capacity { vec_capacity found.new ≡ vec_capacity found.old }
    ensures done_capacity { vec_capacity done.new ≡ vec_capacity done.old }
    ensures value { IsTrue result ↔ CanHold question.now }
{
    found.clear();
    done.clear();
    extend(question, found, done, None)
}

impl Room {
    /// Room for each of these rules.
    ///
    /// # Errors
    ///
    /// `AllocError` if there is no memory.
    pub fn reserve(alloc: Global, rules: &[Rule]) -> Result<Room, AllocError>
        ensures { IfOk result (λ room. Each rules.now (FitsRoom room)) }
    {
        let mut atoms = 0;
        let mut existentials = 0;
        for rule in rules {
            atoms = greater(atoms, rule.conclusion.len());
            existentials = greater(existentials, above_atoms(rule.conclusion.items()));
        }
        let found = Vec::with_capacity(alloc, existentials as usize)?;
        let done = Vec::with_capacity(alloc, atoms as usize)?;
        Ok(Room {
            atoms,
            existentials,
            found,
            done,
        })
    }
}

/// Whether each of a rule's places is satisfied: for each tuple of exported texts there are values for the existential variables
/// with which all of the conclusion is in the target. It takes no memory.
pub fn satisfied(rule: &Rule, places: &Places, target: &Instance, room: &mut Room) -> bool
    requires conclusion { AtomsFitWidths (widths target.now) rule.now.conclusion }
    requires tuples { Each places.now.tuples (λ t. length t ≡ length (exported rule.now)) }
    requires room { FitsRoom room.old rule.now }
    ensures room { room.new ≡ room.old }
    ensures value { IsTrue result ↔ PlacesSatisfied rule.now places.now.tuples (facts target.now) }
{
    let atoms = rule.conclusion.items();
    for place in 0..places.tuples.len() {
        let question = Question {
            atoms,
            tuple: places.tuples.tuple(place),
            target,
        };
        if !completes(&question, &mut room.found, &mut room.done) {
            return false;
        }
    }
    true
}
