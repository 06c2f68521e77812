// Cells that hold the values of nulls.
ghost use Rattle.std.specs.Prelude.{◌≡◌, ◌↔◌, [], ◌∷◌, IsTrue};
ghost use Rattle.dx_model.specs.Instances.{nulls_in};
ghost use Rattle.dx_hom.specs.Narrowing.{Allows, HasRoomForNulls, IsCellAt, IsGood, FitsRowAt, IsNullCell, MeetsNull, MeetsRow, MeetsValue};

use crate::bindings::Bindings;
use crate::goal::Goal;
use dx_instance::NullMap;
use dx_model::{NullId, Value};

/// A null, and a cell that holds its value.
#[derive(Clone, Copy)]
pub struct Found {
    pub null: NullId,
    pub table: u32,
    pub place: u32,
    pub column: u32,
}

/// The place of a row.
#[derive(Clone, Copy)]
pub(crate) struct Spot {
    pub table: u32,
    pub place: u32,
}

// Whether the null may have this value.
fn allows(fixed: &NullMap, null: NullId, value: &Value) -> bool
    ensures { IsTrue result ↔ Allows fixed.now null value.now }
{
    match fixed.get(&null) {
        None => true,
        Some(other) => other.is(value),
    }
}

/// Gives the null the value of the cell, if it can have it.
pub(crate) fn meet_null(found: &mut Bindings, goal: &Goal<'_>, cell: Found) -> bool
    requires cell { IsNullCell goal.now.into.now cell }
    requires good { IsGood goal.now.into.now goal.now.fixed.now found.old.cells }
    requires room { HasRoomForNulls found.old (cell.null ∷ []) }
    ensures room { found.new.room ≡ found.old.room }
    ensures cases { MeetsNull goal.now.into.now goal.now.fixed.now cell found.old found.new result }
{
    let into = goal.into;
    let value = into.cell(cell.table, cell.place, cell.column);
    if let Some(entry) = found.find(cell.null) {
        return into.cell(entry.table, entry.place, entry.column).is(value);
    }
    if !allows(goal.fixed, cell.null, value) {
        return false;
    }
    found.push(cell);
    true
}

/// Gives the value the value in a column of a row, if it can have it.
pub(crate) fn meet_value(
    found: &mut Bindings,
    goal: &Goal<'_>,
    value: &Value,
    spot: Spot,
    column: u32,
) -> bool
    requires cell { IsCellAt goal.now.into.now spot.table spot.place column }
    requires good { IsGood goal.now.into.now goal.now.fixed.now found.old.cells }
    requires room { HasRoomForNulls found.old (nulls_in (value.now ∷ [])) }
    ensures room { found.new.room ≡ found.old.room }
    ensures cases { MeetsValue goal.now.into.now goal.now.fixed.now value.now spot.table spot.place column found.old found.new result }
{
    let table = spot.table;
    let place = spot.place;
    match value {
        Value::Const(_) => value.is(goal.into.cell(table, place, column)),
        Value::Null(null) => {
            let cell = Found {
                null: *null,
                table,
                place,
                column,
            };
            meet_null(found, goal, cell)
        }
    }
}

/// Gives the row the values of the row at a place, if it can have them.
pub(crate) fn meet_row(found: &mut Bindings, goal: &Goal<'_>, row: &[Value], spot: Spot) -> bool
    requires row { FitsRowAt goal.now.into.now row.now spot.table spot.place }
    requires good { IsGood goal.now.into.now goal.now.fixed.now found.old.cells }
    requires room { HasRoomForNulls found.old (nulls_in row.now) }
    ensures room { found.new.room ≡ found.old.room }
    ensures cases { MeetsRow goal.now.into.now goal.now.fixed.now row.now spot.table spot.place found.old found.new result }
{
    for column in 0..goal.into.width(spot.table) {
        let value = &row[column as usize];
        if !meet_value(found, goal, value, spot, column) {
            return false;
        }
    }
    true
}
