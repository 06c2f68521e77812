// The text of steps that insert facts.
ghost use Rattle.std.specs.Prelude.{◌≡◌, ◌++◌, OnOk, codes, map, string_bytes};
ghost use Rattle.dx_script_text.specs.Print.{insert_text, out_text, parted, table_letter};

use crate::print_names::{push_name, push_quoted};
use dx_base::Text;
use dx_script::Out;
use std::alloc::AllocError;
use std::fmt::Write;

// A cell of a fact of a rule.
fn push_cell(rule: u32, cell: &Out, out: &mut String) -> Result<(), AllocError>
    ensures { OnOk result (string_bytes out.new ≡ string_bytes out.old ++ out_text rule cell.now) }
{
    match cell {
        Out::Column(number) => {
            write!(out, "m.c{number}")?;
            Ok(())
        }
        Out::Literal(text) => push_quoted(text.as_str(), out),
        Out::Skolem(variable) => {
            write!(out, "SKOLEM({rule}, {variable}, m.place)")?;
            Ok(())
        }
    }
}

// The cells of a fact, parted by a comma and a space.
fn push_cells(rule: u32, cells: &[Out], out: &mut String) -> Result<(), AllocError>
    ensures { OnOk result (string_bytes out.new ≡ string_bytes out.old ++ parted (codes ", ") (map (out_text rule) cells.now)) }
{
    let Some((first, others)) = cells.split_first() else {
        return Ok(());
    };
    push_cell(rule, first, out)?;
    for other in others {
        out.push_str(", ")?;
        push_cell(rule, other, out)?;
    }
    Ok(())
}

// The letter of a keep table or of a match table.
fn letter(kept: bool) -> &'static str
    ensures { result.now ≡ table_letter kept }
{
    if kept { "k" } else { "m" }
}

/// Appends a step that inserts facts.
pub(crate) fn push_insert(
    table: &Text,
    rule: u32,
    kept: bool,
    cells: &[Out],
    out: &mut String,
) -> Result<(), AllocError>
    ensures { OnOk result (string_bytes out.new ≡ string_bytes out.old ++ insert_text table.now rule kept cells.now) }
{
    out.push_str("INSERT INTO target.")?;
    push_name(table, out)?;
    out.push_str(" SELECT ")?;
    push_cells(rule, cells, out)?;
    out.push_str(" FROM ")?;
    out.push_str(letter(kept))?;
    write!(out, "{rule} AS m;\n")?;
    Ok(())
}
