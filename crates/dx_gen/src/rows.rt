// The rows of the demo.
ghost use Rattle.std.specs.Prelude.{◌≡◌, ◌++◌, IfOk, OnOk, string_bytes};
ghost use Rattle.dx_gen.specs.Demo.{dept_record, dept_text, emp_record, emp_text, phone_record, phone_text, town};

use std::alloc::{AllocError, Global};
use std::fmt::Write;

fn push_town(number: u32, out: &mut String) -> Result<(), AllocError>
    ensures { OnOk result (string_bytes out.new ≡ string_bytes out.old ++ town number) }
{
    if number % 2 != 0 {
        write!(out, "Town {number}")?;
    }
    Ok(())
}

fn push_dept(number: u32, out: &mut String) -> Result<(), AllocError>
    ensures { OnOk result (string_bytes out.new ≡ string_bytes out.old ++ dept_record number) }
{
    write!(out, "d{number},")?;
    push_town(number, out)?;
    out.push_str("\n")?;
    Ok(())
}

fn push_emp(number: u32, out: &mut String) -> Result<(), AllocError>
    ensures { OnOk result (string_bytes out.new ≡ string_bytes out.old ++ emp_record number) }
{
    let name = number % 50;
    let dept = number % 10;
    write!(out, "e{number},\"Name, {name}\",d{dept}\n")?;
    Ok(())
}

fn push_phone(number: u32, out: &mut String) -> Result<(), AllocError>
    ensures { OnOk result (string_bytes out.new ≡ string_bytes out.old ++ phone_record number) }
{
    if number % 4 == 0 {
        write!(out, "e{number},555-{number}\n")?;
    }
    Ok(())
}

/// The text of the departments, of which there are ten.
pub fn dept_text(alloc: Global) -> Result<String, AllocError>
    ensures { IfOk result (λ s. string_bytes s ≡ dept_text) }
{
    let mut out = String::from_str(alloc, "dname,city\n")?;
    for number in 0..10 {
        push_dept(number, &mut out)?;
    }
    Ok(out)
}

/// The text of so many employees.
pub fn emp_text(alloc: Global, employees: u32) -> Result<String, AllocError>
    ensures { IfOk result (λ s. string_bytes s ≡ emp_text employees) }
{
    let mut out = String::from_str(alloc, "eid,name,dname\n")?;
    for number in 0..employees {
        push_emp(number, &mut out)?;
    }
    Ok(out)
}

/// The text of their telephones.
pub fn phone_text(alloc: Global, employees: u32) -> Result<String, AllocError>
    ensures { IfOk result (λ s. string_bytes s ≡ phone_text employees) }
{
    let mut out = String::from_str(alloc, "eid,num\n")?;
    for number in 0..employees {
        push_phone(number, &mut out)?;
    }
    Ok(out)
}
