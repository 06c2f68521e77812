// The text of scripts.
ghost use Rattle.std.specs.Prelude.{◌≡◌, ◌++◌, IfOk, OnOk, codes, map, string_bytes};
ghost use Rattle.dx_script_text.specs.Printable.{IsPrintableScript};
ghost use Rattle.dx_script_text.specs.Texts.{IsScriptText};
ghost use Rattle.dx_script_text.specs.Print.{create_text, declared_text, parted, script_text, step_text};

use crate::print_inserts::push_insert;
use crate::print_keeps::push_keep;
use crate::print_matches::push_match;
use crate::print_names::push_name;
use dx_base::Text;
use dx_script::{Script, Step};
use std::alloc::{AllocError, Global};

// A column of a target table.
fn push_declared(column: &Text, out: &mut String) -> Result<(), AllocError>
    ensures { OnOk result (string_bytes out.new ≡ string_bytes out.old ++ declared_text column.now) }
{
    push_name(column, out)?;
    out.push_str(" TEXT")?;
    Ok(())
}

// The columns of a target table, parted by a comma and a space.
fn push_columns(columns: &[Text], out: &mut String) -> Result<(), AllocError>
    ensures { OnOk result (string_bytes out.new ≡ string_bytes out.old ++ parted (codes ", ") (map declared_text columns.now)) }
{
    let Some((first, others)) = columns.split_first() else {
        return Ok(());
    };
    push_declared(first, out)?;
    for other in others {
        out.push_str(", ")?;
        push_declared(other, out)?;
    }
    Ok(())
}

// A step that makes a target table.
fn push_create(table: &Text, columns: &[Text], out: &mut String) -> Result<(), AllocError>
    ensures { OnOk result (string_bytes out.new ≡ string_bytes out.old ++ create_text table.now columns.now) }
{
    out.push_str("CREATE TABLE target.")?;
    push_name(table, out)?;
    out.push_str(" (")?;
    push_columns(columns, out)?;
    out.push_str(");\n")?;
    Ok(())
}

fn push_step(step: &Step, out: &mut String) -> Result<(), AllocError>
    ensures { OnOk result (string_bytes out.new ≡ string_bytes out.old ++ step_text step.now) }
{
    match step {
        Step::Create { table, columns } => push_create(table, columns.items(), out),
        Step::MatchRows {
            rule,
            select,
            sources,
            equal,
        } => push_match(*rule, select.items(), sources.items(), equal.items(), out),
        Step::KeepRows { rule, unless } => push_keep(*rule, unless.items(), out),
        Step::InsertRows {
            table,
            rule,
            kept,
            cells,
        } => push_insert(table, *rule, *kept, cells.items(), out),
    }
}

/// Prints a script, each step with a line feed behind it: in a line of its own, if no literal has a line feed. The text is
/// read as this script, if it is printable: if every name is one, no list that the grammar wants is empty, and there are no
/// more columns and aliases than numbers.
///
/// # Errors
///
/// `AllocError` if there is no memory.
pub fn print_script(alloc: Global, script: &Script) -> Result<Text, AllocError>
    ensures text { IfOk result (λ t. t ≡ script_text script.now) }
    ensures read_again { IfOk result (λ t. IsPrintableScript script.now → IsScriptText t script.now) }
{
    let mut out = String::new(alloc);
    for step in script.steps.items() {
        push_step(step, &mut out)?;
    }
    Text::from_string(alloc, out)
}
