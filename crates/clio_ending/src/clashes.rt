// The names of a clash, and its text.
ghost use Rattle.std.specs.Prelude.{◌≡◌, ◌++◌, [], IfOk, OnOk, codes, map, string_bytes};
ghost use Rattle.dx_tokens.specs.Quoted.{quoted};
ghost use Rattle.dx_rule_text.specs.Printed.{table_name as table_text};
ghost use Rattle.clio_ending.specs.Ending.{column_text, left_columns, named_clash};
ghost use Rattle.clio_ending.specs.Message.{clash_text, text_in};

use crate::ending::Refusal;
use dx_base::{Items, Text};
use dx_instance::{Row, Value};
use dx_keys::Clash;
use dx_rule_text::push_string;
use dx_schema::Schema;
use dx_schema_text::push_names;
use std::alloc::{AllocError, Global};

// The name of a table, and the empty text if there is no such table.
fn table_named(alloc: Global, schema: &Schema, table: u32) -> Result<Text, AllocError>
    ensures { IfOk result (λ t. t ≡ table_text schema.now table) }
{
    if table < schema.tables() {
        schema.name(table).copy()
    } else {
        Text::from_str(alloc, "")
    }
}

// The name of a column, and the empty text if there is no such column.
fn column_named(alloc: Global, schema: &Schema, table: u32, column: u32) -> Result<Text, AllocError>
    ensures { IfOk result (λ t. t ≡ column_text schema.now table column) }
{
    if table < schema.tables() && column < schema.width(table) {
        schema.column_name(table, column).copy()
    } else {
        Text::from_str(alloc, "")
    }
}

// The columns on the left of a determination, and none if there is no such determination. Dependencies come after keys.
fn left_of(schema: &Schema, table: u32, number: u32) -> &[u32]
    ensures { result.now ≡ left_columns schema.now table number }
{
    if table >= schema.tables() {
        return &[];
    }
    let keys = schema.keys_of(table);
    let place = number as usize;
    if place < keys.len() {
        return keys[place].columns.items();
    }
    match schema.deps_of(table).get(place - keys.len()) {
        Some(dep) => dep.columns.items(),
        None => &[],
    }
}

// The names of columns of a table.
fn columns_named(
    alloc: Global,
    schema: &Schema,
    table: u32,
    columns: &[u32],
) -> Result<Items<Text>, AllocError>
    ensures { IfOk result (λ names. names ≡ map (column_text schema.now table) columns.now) }
{
    let mut names = Items::new(alloc);
    for column in columns {
        names.push(column_named(alloc, schema, table, *column)?)?;
    }
    Ok(names)
}

/// The refusal of a clash, with the names that the target has; the empty text if it has no such table or column.
///
/// # Errors
///
/// `AllocError` if there is no memory.
pub fn named_clash(alloc: Global, clash: Clash, target: &Schema) -> Result<Refusal, AllocError>
    ensures { IfOk result (λ r. r ≡ named_clash target.now clash) }
{
    let table = table_named(alloc, target, clash.table)?;
    let columns = left_of(target, clash.table, clash.key);
    let key = columns_named(alloc, target, clash.table, columns)?;
    let column = column_named(alloc, target, clash.table, clash.column)?;
    Ok(Refusal::Clash {
        clash,
        table,
        key,
        column,
    })
}

// The text in a column of a row as a string.
fn push_text(row: &Row, column: u32, out: &mut String) -> Result<(), AllocError>
    ensures { OnOk result (string_bytes out.new ≡ string_bytes out.old ++ quoted (text_in row.now column)) }
{
    match row.items().get(column as usize) {
        Some(Value::Const(text)) => push_string(text.as_str(), out),
        _ => push_string("", out),
    }
}

/// What is printed of a clash.
pub(crate) fn clash_text(
    alloc: Global,
    clash: &Clash,
    table: &Text,
    key: &[Text],
    column: &Text,
) -> Result<String, AllocError>
    ensures { IfOk result (λ s. string_bytes s ≡ codes "clash: " ++ clash_text clash.now table.now key.now column.now) }
{
    let mut names = String::new(alloc);
    push_names(key, &mut names)?;
    let mut left = String::new(alloc);
    push_text(&clash.left, clash.column, &mut left)?;
    let mut right = String::new(alloc);
    push_text(&clash.right, clash.column, &mut right)?;
    format!(in alloc; "clash: table {table}, key ({names}): {left} and {right} in column {column}")
}
