// The text of steps that match a rule.
ghost use Rattle.std.specs.Prelude.{◌≡◌, ◌++◌, OnOk, codes, map, string_bytes};
ghost use Rattle.dx_script_text.specs.Print.{call_text, cell_ref_text, equal_text, item_text, match_text, texts_from, parted, select_text, source_alias_text, value_text, where_clause_text};

use crate::print_names::push_name;
use dx_base::{Items, Text};
use dx_script::{CellRef, Equal, Select};
use std::alloc::AllocError;
use std::fmt::Write;

// A cell of an alias.
fn push_cell(cell: &CellRef, out: &mut String) -> Result<(), AllocError>
    ensures { OnOk result (string_bytes out.new ≡ string_bytes out.old ++ cell_ref_text cell.now) }
{
    write!(out, "a{}.", cell.alias)?;
    push_name(&cell.column, out)
}

// Cells, parted by a comma and a space.
fn push_cells(cells: &[CellRef], out: &mut String) -> Result<(), AllocError>
    ensures { OnOk result (string_bytes out.new ≡ string_bytes out.old ++ parted (codes ", ") (map cell_ref_text cells.now)) }
{
    let Some((cell, others)) = cells.split_first() else {
        return Ok(());
    };
    push_cell(cell, out)?;
    for other in others {
        out.push_str(", ")?;
        push_cell(other, out)?;
    }
    Ok(())
}

// A conversion of cells.
fn push_call(name: &Text, args: &Items<CellRef>, out: &mut String) -> Result<(), AllocError>
    ensures { OnOk result (string_bytes out.new ≡ string_bytes out.old ++ call_text name.now args.now) }
{
    push_name(name, out)?;
    out.push_str("(")?;
    push_cells(args.items(), out)?;
    out.push_str(")")?;
    Ok(())
}

// A cell, or a conversion of cells.
fn push_value(value: &Select, out: &mut String) -> Result<(), AllocError>
    ensures { OnOk result (string_bytes out.new ≡ string_bytes out.old ++ value_text value.now) }
{
    match value {
        Select::Cell(cell) => push_cell(cell, out),
        Select::Call { name, args } => push_call(name, args, out),
    }
}

// The selected column with this number.
fn push_item(number: u64, value: &Select, out: &mut String) -> Result<(), AllocError>
    ensures { OnOk result (string_bytes out.new ≡ string_bytes out.old ++ item_text number value.now) }
{
    push_value(value, out)?;
    write!(out, " AS c{number}")?;
    Ok(())
}

// The selected columns, or 1 if there are none.
fn push_select(select: &[Select], out: &mut String) -> Result<(), AllocError>
    ensures { OnOk result (string_bytes out.new ≡ string_bytes out.old ++ select_text select.now) }
{
    let Some((first, others)) = select.split_first() else {
        out.push_str("1")?;
        return Ok(());
    };
    push_item(0, first, out)?;
    let mut number = 0u64;
    for other in others {
        number += 1;
        out.push_str(", ")?;
        push_item(number, other, out)?;
    }
    Ok(())
}

// The source table with this alias.
fn push_source(number: u64, table: &Text, out: &mut String) -> Result<(), AllocError>
    ensures { OnOk result (string_bytes out.new ≡ string_bytes out.old ++ source_alias_text number table.now) }
{
    out.push_str("source.")?;
    push_name(table, out)?;
    write!(out, " AS a{number}")?;
    Ok(())
}

// The source tables, parted by a comma and a space.
fn push_sources(sources: &[Text], out: &mut String) -> Result<(), AllocError>
    ensures { OnOk result (string_bytes out.new ≡ string_bytes out.old ++ parted (codes ", ")
        (texts_from source_alias_text 0 sources.now)) }
{
    let Some((first, others)) = sources.split_first() else {
        return Ok(());
    };
    push_source(0, first, out)?;
    let mut number = 0u64;
    for other in others {
        number += 1;
        out.push_str(", ")?;
        push_source(number, other, out)?;
    }
    Ok(())
}

// Two cells that are equal.
fn push_equal(equal: &Equal, out: &mut String) -> Result<(), AllocError>
    ensures { OnOk result (string_bytes out.new ≡ string_bytes out.old ++ equal_text equal.now) }
{
    push_cell(&equal.left, out)?;
    out.push_str(" = ")?;
    push_cell(&equal.right, out)
}

// What is equal, after WHERE. Nothing if there is nothing.
fn push_where(equal: &[Equal], out: &mut String) -> Result<(), AllocError>
    ensures { OnOk result (string_bytes out.new ≡ string_bytes out.old ++ where_clause_text (map equal_text equal.now)) }
{
    let Some((first, others)) = equal.split_first() else {
        return Ok(());
    };
    out.push_str(" WHERE ")?;
    push_equal(first, out)?;
    for other in others {
        out.push_str(" AND ")?;
        push_equal(other, out)?;
    }
    Ok(())
}

/// Appends a step that matches a rule.
pub(crate) fn push_match(
    rule: u32,
    select: &[Select],
    sources: &[Text],
    equal: &[Equal],
    out: &mut String,
) -> Result<(), AllocError>
    ensures { OnOk result (string_bytes out.new ≡ string_bytes out.old ++ match_text rule select.now sources.now equal.now) }
{
    write!(out, "CREATE TABLE m{rule} AS SELECT DISTINCT ")?;
    push_select(select, out)?;
    out.push_str(" FROM ")?;
    push_sources(sources, out)?;
    push_where(equal, out)?;
    out.push_str(";\n")?;
    Ok(())
}
