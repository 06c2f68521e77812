// The demo files.
ghost use Rattle.std.specs.Prelude.{◌≡◌, ◌≤◌, IfOk, string_bytes};
ghost use Rattle.dx_base.specs.Entries.{entries_of, entry_of};
ghost use Rattle.dx_gen.specs.Demo.{demo};

use crate::mapping::mapping_text;
use crate::rows::{dept_text, emp_text, phone_text};
use dx_base::{File, Text};
use std::alloc::{AllocError, Global};

/// The most employees of a demo.
pub const EMPLOYEES: u32 = 100_000;

fn file(alloc: Global, name: &str, text: String) -> Result<File, AllocError>
    ensures { IfOk result (λ f. entry_of f ≡ (name.now, string_bytes text)) }
{
    Ok(File {
        name: Text::from_str(alloc, name)?,
        bytes: text.into_bytes(),
    })
}

/// The demo files for this number of employees: the mapping, the departments, the employees and their telephones.
///
/// # Errors
///
/// `AllocError` if there is no memory.
pub fn demo_files(alloc: Global, number: u32) -> Result<Vec<File>, AllocError>
    requires some { 1 ≤ number }
    requires few { number ≤ EMPLOYEES }
    ensures { IfOk result (λ files. entries_of files.items ≡ demo number) }
{
    let mut files = Vec::new(alloc);
    files.push(file(alloc, "mapping.clio", mapping_text(alloc)?)?)?;
    files.push(file(alloc, "dept.csv", dept_text(alloc)?)?)?;
    files.push(file(alloc, "emp.csv", emp_text(alloc, number)?)?)?;
    files.push(file(alloc, "phone.csv", phone_text(alloc, number)?)?)?;
    Ok(files)
}
