// How often a rule mentions its variables.
ghost use Rattle.std.specs.Prelude.{◌≡◌, ◌++◌, ◌∷◌, ◌-◌, ◌^◌, [], List, IfOk, flat_map, map, length, min};
ghost use Rattle.std.specs.Bool.{OnFalse, OnTrue};
ghost use Rattle.dx_model.specs.declared.rules.Cell.{Cell};
ghost use Rattle.dx_model.specs.declared.rules.Cell.TheVariants.{Var};
ghost use Rattle.dx_model.specs.declared.rules.Derived.{Derived};
ghost use Rattle.dx_model.specs.declared.rules.Rule.{Rule};
ghost use Rattle.dx_model.specs.Rules.{cells_of};
ghost use Rattle.dx_used.specs.Used.{IsIdle, mentions};
ghost use Rattle.dx_used.specs.Counting.{CountsCells, CellHasPlace};

use dx_model::{Atom, Cell, Derived, Rule};
use std::alloc::{AllocError, Global};

// One mention more of a variable, if there is a place for it.
fn add_mention(counts: &mut [u8], variable: u32)
    ensures counts { (cells : List Cell) → CountsCells cells counts.old → CountsCells (cells ++ Var variable ∷ []) counts.new }
{
    let place = variable as usize;
    if place < counts.len() && counts[place] < 2 {
        counts[place] += 1;
    }
}

// The mention of a cell, if it is a variable.
fn add_cell(counts: &mut [u8], cell: &Cell)
    ensures counts { (before : List Cell) → CountsCells before counts.old → CountsCells (before ++ cell.now ∷ []) counts.new }
{
    if let Cell::Var(variable) = cell {
        add_mention(counts, *variable);
    }
}

// The mentions of cells.
fn add_cells(counts: &mut [u8], cells: &[Cell])
    ensures counts { (before : List Cell) → CountsCells before counts.old → CountsCells (before ++ cells.now) counts.new }
{
    for cell in cells {
        add_cell(counts, cell);
    }
}

// The mentions of the cells of atoms.
fn add_atoms(counts: &mut [u8], atoms: &[Atom])
    ensures counts { (before : List Cell) → CountsCells before counts.old → CountsCells (before ++ cells_of atoms.now) counts.new }
{
    for atom in atoms {
        add_cells(counts, atom.cells.items());
    }
}

// The mentions of variables.
fn add_variables(counts: &mut [u8], variables: &[u32])
    ensures counts { (before : List Cell) → CountsCells before counts.old → CountsCells (before ++ map Var variables.now) counts.new }
{
    for variable in variables {
        add_mention(counts, *variable);
    }
}

// The mentions of the arguments of conversions.
fn add_arguments(counts: &mut [u8], conversions: &[Derived])
    ensures counts { (before : List Cell) → CountsCells before counts.old
        → CountsCells (before ++ flat_map (λ (e : Derived). map Var e.args) conversions.now) counts.new }
{
    for conversion in conversions {
        add_variables(counts, conversion.args.items());
    }
}

// The mentions of a rule, if there are none yet.
fn add_rule(counts: &mut [u8], rule: &Rule)
    ensures counts { CountsCells [] counts.old → CountsCells (mentions rule.now) counts.new }
{
    add_atoms(counts, rule.premise.items());
    add_atoms(counts, rule.conclusion.items());
    add_arguments(counts, rule.derived.items());
}

// How many cells atoms have, or the greatest number if they have more.
fn cells_in(atoms: &[Atom]) -> usize
    ensures { result ≡ min (length (cells_of atoms.now)) (2 ^ 64 - 1) }
{
    let mut count = 0usize;
    for atom in atoms {
        count = count.saturating_add(atom.cells.items().len());
    }
    count
}

/// How often a rule mentions each variable, up to two times. There are as many places as the premise has cells, and so one for
/// each of its variables if these are numbered by first appearance.
///
/// # Errors
///
/// `AllocError` if there is no memory.
pub(crate) fn mentions_of(alloc: Global, rule: &Rule) -> Result<Vec<u8>, AllocError>
    ensures counts { IfOk result (λ counts. CountsCells (mentions rule.now) counts.items) }
    ensures places { IfOk result (λ counts. length counts.items ≡ min (length (cells_of rule.now.premise)) (2 ^ 64 - 1)) }
{
    let mut counts = vec![in alloc; 0u8; cells_in(rule.premise.items())]?;
    add_rule(&mut counts, rule);
    Ok(counts)
}

/// Whether a cell is a variable that the rule mentions once, by its counts. Of a variable that has no place in the counts it is
/// not said.
pub(crate) fn is_idle(counts: &[u8], cell: &Cell) -> bool
    ensures idle { OnTrue result ((d : Rule) → CountsCells (mentions d) counts.now → IsIdle d cell.now) }
    ensures asks { OnFalse result ((d : Rule) → CountsCells (mentions d) counts.now → CellHasPlace (length counts.now) cell.now
        → ¬ IsIdle d cell.now) }
{
    match cell {
        Cell::Var(variable) => counts.get(*variable as usize) == Some(&1),
        _ => false,
    }
}
