// The text of derived variables.
ghost use Rattle.std.specs.Prelude.{◌≡◌, ◌++◌, ◌≤◌, ◌^◌, OnOk, map, max, string_bytes};
ghost use Rattle.dx_base.specs.Members.{◌∈◌};
ghost use Rattle.dx_model.specs.Rules.{after_cells, cells_of};
ghost use Rattle.dx_funcs.specs.Names.{conversion_name};
ghost use Rattle.dx_funcs.specs.Serving.{offered};
ghost use Rattle.dx_rule_text.specs.Printed.{AllListed, derived_text, separated, variable_text, where_text};

use dx_base::{Items, Text};
use dx_funcs::{Host, Meaning};
use dx_model::{Atom, Cell, Derived};
use std::alloc::AllocError;
use std::fmt::Write;

// The number after the variables of cells, which is no less than `least`.
fn after_cells(cells: &[Cell], least: u64) -> u64
    requires { least ≤ 2 ^ 32 }
    ensures number { result ≡ max least (after_cells cells.now) }
    ensures low { result ≤ 2 ^ 32 }
{
    let mut next = least;
    for cell in cells {
        if let Cell::Var(number) = cell {
            next = next.max(u64::from(*number) + 1);
        }
    }
    next
}

// The number after the variables of atoms.
pub fn after_atoms(atoms: &[Atom]) -> u64
    ensures number { result ≡ after_cells (cells_of atoms.now) }
    ensures low { result ≤ 2 ^ 32 }
{
    let mut next = 0;
    for atom in atoms {
        next = after_cells(atom.cells.items(), next);
    }
    next
}

fn push_variable(number: u64, out: &mut String) -> Result<(), AllocError>
    ensures { OnOk result (string_bytes out.new ≡ string_bytes out.old ++ variable_text number) }
{
    write!(out, "x{number}")?;
    Ok(())
}

// Variables, parted by a comma and a space.
fn push_variables(numbers: &[u32], out: &mut String) -> Result<(), AllocError>
    ensures { OnOk result (string_bytes out.new ≡ string_bytes out.old ++ separated (map variable_text numbers.now)) }
{
    let Some((number, others)) = numbers.split_first() else {
        return Ok(());
    };
    push_variable(u64::from(*number), out)?;
    for other in others {
        out.push_str(", ")?;
        push_variable(u64::from(*other), out)?;
    }
    Ok(())
}

fn push_derived<F: Fn(u32, &Items<Text>) -> Result<Text, AllocError>, M: Meaning>(
    derived: &Derived,
    number: u64,
    host: &Host<F, M>,
    out: &mut String,
) -> Result<(), AllocError>
    requires { derived.now.code ∈ map (λ c. c.code) (offered host.now) }
    ensures { OnOk result (string_bytes out.new
        ≡ string_bytes out.old ++ derived_text (conversion_name (offered host.now)) number derived.now) }
{
    push_variable(number, out)?;
    out.push_str(" = ")?;
    out.push_str(host.by_code(derived.code).name.as_str())?;
    out.push_str("(")?;
    push_variables(derived.args.items(), out)?;
    out.push_str(")")?;
    Ok(())
}

// Derived variables after `where`, of which the first has the number `first`. Nothing if there are none.
pub fn push_where<F: Fn(u32, &Items<Text>) -> Result<Text, AllocError>, M: Meaning>(
    derived: &[Derived],
    first: u64,
    host: &Host<F, M>,
    out: &mut String,
) -> Result<(), AllocError>
    requires listed { AllListed (offered host.now) derived.now }
    requires first { first ≤ 2 ^ 32 }
    ensures { OnOk result (string_bytes out.new
        ≡ string_bytes out.old ++ where_text (conversion_name (offered host.now)) first derived.now) }
{
    let Some((variable, others)) = derived.split_first() else {
        return Ok(());
    };
    out.push_str(" where ")?;
    push_derived(variable, first, host, out)?;
    let mut number = first;
    for other in others {
        number += 1;
        out.push_str(", ")?;
        push_derived(other, number, host, out)?;
    }
    Ok(())
}
