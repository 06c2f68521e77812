// The first key or dependency that does not hold.
ghost use Rattle.std.specs.Prelude.{◌≡◌, ◌<◌, ℕ, IfOk, MatchOption, length};
ghost use Rattle.dx_base.specs.Members.{◌∈◌};
ghost use Rattle.dx_model.specs.Tables.{KeysHold};
ghost use Rattle.dx_schema.specs.Tables.{model_tables, schema_widths};
ghost use Rattle.dx_instance.specs.Stored.{facts, rows_of, table_at, widths};
ghost use Rattle.dx_holds.specs.Columns.{RowsAgree, RowsDetermine};
ghost use Rattle.dx_fails.specs.Shown.{AllIn, ColumnsWithin, IsFirstApart, IsViolation, IsBrokenIn, IsBrokenKey};

use crate::determining::{Determines, all_columns, determinations};
use dx_instance::Instance;
use dx_schema::Schema;
use std::alloc::{AllocError, Global};

/// A table and a determination of it that do not hold: two rows, by their places, the lesser first, agree on its left and differ in
/// a column of its right. A table's keys come first, and then its dependencies.
#[derive(Clone, Copy, Debug)]
pub struct BrokenKey {
    pub table: u32,
    pub key: u32,
    pub left: u32,
    pub right: u32,
    pub column: u32,
}

// Two rows of a table, by their places, and a column in which they differ.
#[derive(Clone, Copy)]
struct Apart {
    left: u32,
    right: u32,
    column: u32,
}

// The first of these columns in which two rows of a table differ.
fn differing(instance: &Instance, table: u32, columns: &[u32], left: u32, right: u32) -> Option<u32>
    requires columns { (c : ℕ) → c ∈ columns.now → c < (table_at instance.now table).width }
    requires left { left < length (rows_of instance.now table) }
    requires right { right < length (rows_of instance.now table) }
    ensures { MatchOption result (RowsAgree instance.now table left columns.now table columns.now right)
        (IsFirstApart instance.now table columns.now left right) }
{
    for column in columns {
        let value = instance.cell(table, left, *column);
        if !instance.cell(table, right, *column).is(value) {
            return Some(*column);
        }
    }
    None
}

// Two rows that agree on the left and differ in a column of the right: the second is the first of its table that differs there from
// the first row that has what it has on the left.
fn apart_in(
    instance: &Instance,
    table: u32,
    columns: &Determines<'_>,
) -> Result<Option<Apart>, AllocError>
    requires table { table < length instance.now }
    requires columns { ColumnsWithin (table_at instance.now table).width columns.now }
    ensures { IfOk result (λ o. MatchOption o (RowsDetermine instance.now table columns.now.left.now columns.now.right.now)
        (IsViolation instance.now table columns.now.left.now columns.now.right.now)) }
{
    let firsts = instance.firsts(table, columns.left)?;
    for place in 0..instance.count(table) {
        let first = firsts[place as usize];
        if let Some(column) = differing(instance, table, columns.right, first, place) {
            return Ok(Some(Apart {
                left: first,
                right: place,
                column,
            }));
        }
    }
    Ok(None)
}

// The first determination of a table that does not hold.
fn broken_in(
    alloc: Global,
    schema: &Schema,
    instance: &Instance,
    table: u32,
) -> Result<Option<BrokenKey>, AllocError>
    requires widths { widths instance.now ≡ schema_widths schema.now }
    requires table { table < length instance.now }
    ensures { IfOk result (λ o. MatchOption o (AllIn (model_tables schema.now) instance.now table)
        (IsBrokenIn (model_tables schema.now) instance.now table)) }
{
    // The call tells what holds of the tables of each schema.
    prove!((schema.tables() as u64) < 1 << 32);
    let all = all_columns(alloc, instance.width(table))?;
    let found = determinations(alloc, schema, table, &all)?;
    for key in 0..found.len() {
        let columns = found[key];
        if let Some(apart) = apart_in(instance, table, &columns)? {
            return Ok(Some(BrokenKey {
                table,
                key: key as u32,
                left: apart.left,
                right: apart.right,
                column: apart.column,
            }));
        }
    }
    Ok(None)
}

/// The first table and determination that do not hold, with two rows that agree on its left and a column of its right in which they
/// differ. It goes once through the rows for each determination, whatever stands in them.
///
/// # Errors
///
/// `AllocError` if there is no memory.
pub fn first_broken_key(
    alloc: Global,
    schema: &Schema,
    instance: &Instance,
) -> Result<Option<BrokenKey>, AllocError>
    requires { widths instance.now ≡ schema_widths schema.now }
    ensures { IfOk result (λ o. MatchOption o (KeysHold (model_tables schema.now) (facts instance.now))
        (IsBrokenKey (model_tables schema.now) instance.now)) }
{
    for table in 0..instance.tables() {
        if let Some(broken) = broken_in(alloc, schema, instance, table)? {
            return Ok(Some(broken));
        }
    }
    Ok(None)
}
