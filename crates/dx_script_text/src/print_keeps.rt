// The text of steps that keep matches of a rule.
ghost use Rattle.std.specs.Prelude.{◌≡◌, ◌++◌, OnOk, codes, map, string_bytes};
ghost use Rattle.dx_script_text.specs.Print.{keep_text, parted, test_text, unless_text, where_clause_text};

use crate::print_names::push_quoted;
use dx_script::{Test, Unless};
use std::alloc::AllocError;
use std::fmt::Write;

// A test of a partner.
fn push_test(test: &Test, out: &mut String) -> Result<(), AllocError>
    ensures { OnOk result (string_bytes out.new ≡ string_bytes out.old ++ test_text test.now) }
{
    match test {
        Test::Columns { other, own } => {
            write!(out, "n.c{other} = m.c{own}")?;
            Ok(())
        }
        Test::Literal { own, text } => {
            write!(out, "m.c{own} = ")?;
            push_quoted(text.as_str(), out)
        }
    }
}

// The tests of a partner, after WHERE. Nothing if there is none.
fn push_tests(tests: &[Test], out: &mut String) -> Result<(), AllocError>
    ensures { OnOk result (string_bytes out.new ≡ string_bytes out.old ++ where_clause_text (map test_text tests.now)) }
{
    let Some((first, others)) = tests.split_first() else {
        return Ok(());
    };
    out.push_str(" WHERE ")?;
    push_test(first, out)?;
    for other in others {
        out.push_str(" AND ")?;
        push_test(other, out)?;
    }
    Ok(())
}

// No partner in the match table of a rule.
fn push_unless(unless: &Unless, out: &mut String) -> Result<(), AllocError>
    ensures { OnOk result (string_bytes out.new ≡ string_bytes out.old ++ unless_text unless.now) }
{
    write!(out, "NOT EXISTS (SELECT * FROM m{} AS n", unless.rule)?;
    push_tests(unless.tests.items(), out)?;
    out.push_str(")")?;
    Ok(())
}

// Partners, parted by AND.
fn push_all(all: &[Unless], out: &mut String) -> Result<(), AllocError>
    ensures { OnOk result (string_bytes out.new ≡ string_bytes out.old ++ parted (codes " AND ") (map unless_text all.now)) }
{
    let Some((first, others)) = all.split_first() else {
        return Ok(());
    };
    push_unless(first, out)?;
    for other in others {
        out.push_str(" AND ")?;
        push_unless(other, out)?;
    }
    Ok(())
}

/// Appends a step that keeps matches of a rule.
pub(crate) fn push_keep(rule: u32, unless: &[Unless], out: &mut String) -> Result<(), AllocError>
    ensures { OnOk result (string_bytes out.new ≡ string_bytes out.old ++ keep_text rule unless.now) }
{
    write!(
        out,
        "CREATE TABLE k{rule} AS SELECT * FROM m{rule} AS m WHERE "
    )?;
    push_all(unless, out)?;
    out.push_str(";\n")?;
    Ok(())
}
