// Conclusions are planned: which number stands where.
ghost use Rattle.std.specs.Prelude.{◌≡◌, ◌<◌, ℕ, IfOk, length};
ghost use Rattle.std.specs.Bool.{OnTrue};
ghost use Rattle.std.specs.List.{AllZip};
ghost use Rattle.std.specs.declared.cmp.Ordering.TheVariants.{Less};
ghost use Rattle.dx_base.specs.Members.{◌∈◌, Each};
ghost use Rattle.dx_model.specs.Values.{value_cmp};
ghost use Rattle.dx_model.specs.declared.rules.Cell.TheVariants.{Var};
ghost use Rattle.dx_instance.specs.Numbers.{Extends, value_of};
ghost use Rattle.dx_tgd.specs.Planned.{NumbersOfNulls, IsVariableColumn, IsCellPlan, IsPlannedAtom};

use crate::planned::{NumberedPlaces, PlannedAtom, PlannedCell};
use dx_instance::{NullId, Symbols, Value};
use dx_model::{Atom, Cell};
use std::alloc::{AllocError, Global};
use std::cmp::Ordering;

// Whether the value is known to be above all symbols.
fn is_above(symbols: &Symbols, value: &Value) -> bool
    ensures { OnTrue result (Each symbols.now (λ v. value_cmp v value.now ≡ Less)) }
{
    if !symbols.is_ordered() {
        return false;
    }
    let count = symbols.len();
    if count == 0 {
        return true;
    }
    match symbols.value(count - 1).order(value) {
        Ordering::Less => true,
        _ => false,
    }
}

// The number of the value, which goes last if it is new. Values that ascend stay in order.
fn number_for(symbols: &mut Symbols, value: Value) -> Result<u32, AllocError>
    ensures within { IfOk result (λ n. n < length symbols.new) }
    ensures number { IfOk result (λ n. value_of symbols.new n ≡ value) }
    ensures grows { Extends symbols.old symbols.new }
{
    if is_above(symbols, &value) {
        return Ok(symbols.push_greater(value)? as u32);
    }
    Ok(symbols.intern(value)? as u32)
}

// The numbers of the nulls of an existential variable, by place.
fn null_numbers(
    alloc: Global,
    symbols: &mut Symbols,
    rule: u32,
    variable: u32,
    places: u32,
) -> Result<Vec<u32>, AllocError>
    ensures nulls { IfOk result (λ v. NumbersOfNulls symbols.new rule variable places v.items) }
    ensures grows { Extends symbols.old symbols.new }
{
    let mut numbers = Vec::with_capacity(alloc, places as usize)?;
    symbols.make_room(u64::from(places));
    for place in 0..places {
        let null = NullId {
            rule,
            var: variable,
            row: place,
        };
        numbers.push(number_for(symbols, Value::Null(null))?)?;
    }
    Ok(numbers)
}

// The column of a variable.
fn column_of(variables: &[u32], x: u32) -> usize
    requires { x ∈ variables.now }
    ensures { IsVariableColumn variables.now x result }
{
    for i in 0..variables.len() {
        if variables[i] == x {
            return i;
        }
    }
    unreachable!()
}

// The plan of a cell.
fn planned_cell(
    alloc: Global,
    cell: &Cell,
    at: &NumberedPlaces<'_>,
    symbols: &mut Symbols,
) -> Result<PlannedCell, AllocError>
    requires listed { (x : ℕ) → cell.now ≡ Var x → x ∈ at.now.variables.now }
    ensures planned { IfOk result (λ p. IsCellPlan symbols.new at.now.rule at.now.variables.now at.now.places p cell.now) }
    ensures grows { Extends symbols.old symbols.new }
{
    match cell {
        Cell::Var(x) => Ok(PlannedCell::Column(column_of(at.variables, *x))),
        Cell::Ex(v) => {
            let numbers = null_numbers(alloc, symbols, at.rule, *v, at.places)?;
            Ok(PlannedCell::Nulls(numbers))
        }
        Cell::Lit(text) => {
            let number = number_for(symbols, Value::Const(text.copy()?))?;
            Ok(PlannedCell::Fixed(number))
        }
    }
}

// The plans of cells.
fn planned_cells(
    alloc: Global,
    cells: &[Cell],
    at: &NumberedPlaces<'_>,
    symbols: &mut Symbols,
) -> Result<Vec<PlannedCell>, AllocError>
    requires listed { (x : ℕ) → Var x ∈ cells.now → x ∈ at.now.variables.now }
    ensures planned { IfOk result (λ v. AllZip
        (IsCellPlan symbols.new at.now.rule at.now.variables.now at.now.places) v.items cells.now) }
    ensures grows { Extends symbols.old symbols.new }
{
    let mut planned = Vec::new(alloc);
    for cell in cells {
        planned.push(planned_cell(alloc, cell, at, symbols)?)?;
    }
    Ok(planned)
}

/// The plans of a conclusion's atoms. Literals and nulls that are new go last in the symbols.
pub(crate) fn planned_atoms(
    alloc: Global,
    atoms: &[Atom],
    at: &NumberedPlaces<'_>,
    symbols: &mut Symbols,
) -> Result<Vec<PlannedAtom>, AllocError>
    requires listed { Each atoms.now (λ a. (x : ℕ) → Var x ∈ a.cells → x ∈ at.now.variables.now) }
    ensures planned { IfOk result (λ v. AllZip
        (IsPlannedAtom symbols.new at.now.rule at.now.variables.now at.now.places) v.items atoms.now) }
    ensures grows { Extends symbols.old symbols.new }
{
    let mut planned = Vec::new(alloc);
    for atom in atoms {
        let cells = planned_cells(alloc, atom.cells.items(), at, symbols)?;
        planned.push(PlannedAtom {
            table: atom.table,
            cells,
        })?;
    }
    Ok(planned)
}
