// Cells that hold the values of existential variables, and the rows that atoms can be.
ghost use Rattle.std.specs.Prelude.{◌≡◌, ◌↔◌, ◌<◌, ◌+◌, ◌^◌, [], ◌∷◌, ℕ, IsTrue, IfSome, MatchOption, length, vec_capacity};
ghost use Rattle.dx_base.specs.Members.{◌∈◌};
ghost use Rattle.dx_model.specs.declared.values.Value.{Value as AnyValue};
ghost use Rattle.dx_model.specs.declared.values.Value.TheVariants.{Const};
ghost use Rattle.dx_model.specs.declared.rules.Cell.TheVariants.{Ex, Var};
ghost use Rattle.dx_model.specs.Rules.{cells_of};
ghost use Rattle.dx_instance.specs.Stored.{rows_of};
ghost use Rattle.dx_instance.specs.Places.{value_at};
ghost use Rattle.dx_holds.specs.Searching.{FoundCells, ExtendsFound, HasCellAt, HasRoomForCells, IsVariableCell, found_variables};
ghost use Rattle.dx_holds.specs.Questions.{FindsRow, HasValue, IsNextMatch, NowhereFrom, SaysRow, Settles, TakesValue};

use crate::question::Question;
use crate::texts::text_for;
use dx_base::Text;
use dx_instance::Instance;
use dx_model::{Atom, Cell, Value, copy_value};
use std::slice::from_ref;

/// An existential variable, and a cell that holds its value.
#[derive(Clone, Copy)]
pub struct Found {
    pub variable: u32,
    pub table: u32,
    pub place: u32,
    pub column: u32,
}

/// Where the variable was found, if it was.
pub(crate) fn found_at(found: &[Found], variable: u32) -> Option<Found>
    ensures { MatchOption result (¬ (variable ∈ found_variables found.now)) (λ b. (b ∈ found.now) × (b.variable ≡ variable)) }
{
    found
        .iter()
        .find(|entry| entry.variable == variable)
        .copied()
}

/// A copy of the value, which takes no memory. None if its text has too many owners.
fn shared(value: &Value) -> Option<Value>
    ensures { IfSome result (λ v. v ≡ value.now) }
{
    match copy_value(value) {
        Ok(copy) => Some(copy),
        Err(_) => None,
    }
}

/// The text as a value, which takes no memory. None if it has too many owners.
fn shared_text(text: &Text) -> Option<Value>
    ensures { IfSome result (λ v. v ≡ Const text.now) }
{
    match text.copy() {
        Ok(copy) => Some(Value::Const(copy)),
        Err(_) => None,
    }
}

/// Whether a variable or a literal has this value. An existential variable has none.
fn shows(question: &Question, cell: &Cell, value: &Value) -> bool
    requires { (x : ℕ) → cell.now ≡ Var x → Var x ∈ cells_of question.now.atoms.now }
    ensures { (values : ℕ → AnyValue) → ((v : ℕ) → ¬ (cell.now ≡ Ex v)) → IsTrue result ↔ HasValue question.now cell.now value.now values }
{
    match (cell, value) {
        (Cell::Var(x), Value::Const(text)) => {
            text_for(question.atoms, question.tuple, *x).is(text)
        }
        (Cell::Lit(said), Value::Const(text)) => said.is(text),
        _ => false,
    }
}

/// Gives the variable the value of the cell, if it can have it.
fn meet_variable(target: &Instance, found: &mut Vec<Found>, cell: Found) -> bool
    requires cell { IsVariableCell target.now cell }
    requires good { FoundCells target.now (vec_capacity found.old) found.old.items }
    requires below { cell.variable < vec_capacity found.old }
    ensures capacity { vec_capacity found.new ≡ vec_capacity found.old }
    ensures cases { Settles result target.now found.old found.new (TakesValue target.now cell) }
{
    let value = target.cell(cell.table, cell.place, cell.column);
    if let Some(entry) = found_at(found.as_slice(), cell.variable) {
        return target
            .cell(entry.table, entry.place, entry.column)
            .is(value);
    }
    found.push_reserved(cell);
    true
}

/// A cell of an instance, by its table, its place and its column.
#[derive(Clone, Copy)]
struct CellPlace {
    table: u32,
    place: u32,
    column: u32,
}

/// Gives the atom's cell the value of a cell of the target, if it can have it.
fn meet_cell(question: &Question, found: &mut Vec<Found>, cell: &Cell, at: CellPlace) -> bool
    requires known { cell.now ∈ cells_of question.now.atoms.now }
    requires stands { HasCellAt question.now.target.now at.table at.place at.column }
    requires ready { HasRoomForCells question.now.target.now (cell.now ∷ []) found.old }
    ensures capacity { vec_capacity found.new ≡ vec_capacity found.old }
    ensures cases { Settles result question.now.target.now found.old found.new
        (HasValue question.now cell.now (value_at question.now.target.now at.table at.place at.column)) }
{
    let target = question.target;
    match cell {
        Cell::Ex(variable) => meet_variable(
            target,
            found,
            Found {
                variable: *variable,
                table: at.table,
                place: at.place,
                column: at.column,
            },
        ),
        _ => shows(question, cell, target.cell(at.table, at.place, at.column)),
    }
}

/// Gives the atom's cells the values of the row at a place, if they can have them.
fn meet_row(question: &Question, found: &mut Vec<Found>, atom: &Atom, place: u32) -> bool
    requires atom { atom.now ∈ question.now.atoms.now }
    requires place { place < length (rows_of question.now.target.now atom.now.table) }
    requires ready { HasRoomForCells question.now.target.now atom.now.cells found.old }
    ensures capacity { vec_capacity found.new ≡ vec_capacity found.old }
    ensures cases { Settles result question.now.target.now found.old found.new (SaysRow question.now atom.now place) }
{
    prove!(atom.table < question.target.tables());
    let cells = atom.cells.items();
    for column in 0..question.target.width(atom.table) {
        let cell = &cells[column as usize];
        let at = CellPlace {
            table: atom.table,
            place,
            column,
        };
        if !meet_cell(question, found, cell, at) {
            return false;
        }
    }
    true
}

/// The value of a cell, if it is known: its text, or the value of an existential variable that was found. It takes no memory.
/// None too if a text has too many owners.
fn known_value(question: &Question, found: &[Found], cell: &Cell) -> Option<Value>
    requires known { (x : ℕ) → cell.now ≡ Var x → Var x ∈ cells_of question.now.atoms.now }
    requires good { (n : ℕ) × FoundCells question.now.target.now n found.now }
    ensures { IfSome result (λ v. (values : ℕ → AnyValue) → ExtendsFound question.now.target.now found.now values
        → HasValue question.now cell.now v values) }
{
    let target = question.target;
    match cell {
        Cell::Ex(variable) => match found_at(found, *variable) {
            Some(entry) => shared(target.cell(entry.table, entry.place, entry.column)),
            None => None,
        },
        Cell::Var(x) => shared_text(text_for(question.atoms, question.tuple, *x)),
        Cell::Lit(text) => shared_text(text),
    }
}

/// The least place from `from` on whose row agrees with the atom in the first column that is known.
fn candidate(question: &Question, found: &[Found], atom: &Atom, from: u32) -> Option<u32>
    requires atom { atom.now ∈ question.now.atoms.now }
    requires good { (n : ℕ) × FoundCells question.now.target.now n found.now }
    ensures { MatchOption result (NowhereFrom question.now found.now atom.now from) (IsNextMatch question.now found.now atom.now from) }
{
    let target = question.target;
    let cells = atom.cells.items();
    for column in 0..target.width(atom.table) {
        if let Some(value) = known_value(question, found, &cells[column as usize]) {
            return target.with_columns(atom.table, from_ref(&column), from_ref(&value), from);
        }
    }
    target.with_columns(atom.table, &[], &[], from)
}

/// The least place from `from` on whose row the atom can be, and the variables that are found there.
pub(crate) fn next_place(
    question: &Question,
    found: &mut Vec<Found>,
    atom: &Atom,
    from: u32,
) -> Option<u32>
    requires atom { atom.now ∈ question.now.atoms.now }
    requires ready { HasRoomForCells question.now.target.now atom.now.cells found.old }
    ensures capacity { vec_capacity found.new ≡ vec_capacity found.old }
    ensures small { IfSome result (λ p. p + 1 < 2 ^ 32) }
    ensures cases { MatchOption result
        ((found.new.items ≡ found.old.items) × NowhereFrom question.now found.old.items atom.now from)
        (λ p. IsNextMatch question.now found.old.items atom.now from p × FindsRow question.now found.old found.new atom.now p) }
{
    prove!(atom.table < question.target.tables());
    let mark = found.len();
    let mut next = from;
    while let Some(place) = candidate(question, found.as_slice(), atom, next) {
        if meet_row(question, found, atom, place) {
            return Some(place);
        }
        found.truncate(mark);
        next = place + 1;
    }
    None
}
