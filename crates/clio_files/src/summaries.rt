// The summary of files, their bytes, and the files alone.
ghost use Rattle.std.specs.Prelude.{◌≡◌, ◌++◌, IfOk, codes, map, string_bytes};
ghost use Rattle.std.specs.Fmt.{decimal};
ghost use Rattle.dx_base.specs.Entries.{entries_of};
ghost use Rattle.clio_files.specs.Files.{contents_of, files_of, printed_view, summary_of};

use crate::printed::Printed;
use dx_base::File;
use std::alloc::{AllocError, Global};

// The line of the summary for a file.
fn line(alloc: Global, printed: &Printed) -> Result<String, AllocError>
    ensures { IfOk result (λ s. string_bytes s ≡ printed.now.file.name ++ (codes " " ++ (decimal printed.now.count ++ codes "\n"))) }
{
    let name = &printed.file.name;
    let count = printed.count;
    format!(in alloc; "{name} {count}\n")
}

/// The summary: a line for each file.
///
/// # Errors
///
/// Out of memory.
pub fn summary(alloc: Global, printed: &[Printed]) -> Result<Vec<u8>, AllocError>
    ensures { IfOk result (λ text. text.items ≡ summary_of (map printed_view printed.now)) }
{
    let mut text = Vec::new(alloc);
    for one in printed {
        text.extend_from_slice(line(alloc, one)?.as_bytes())?;
    }
    Ok(text)
}

/// The bytes of the files, one after the other.
///
/// # Errors
///
/// Out of memory.
pub fn contents(alloc: Global, printed: &[Printed]) -> Result<Vec<u8>, AllocError>
    ensures { IfOk result (λ text. text.items ≡ contents_of (map printed_view printed.now)) }
{
    let mut text = Vec::new(alloc);
    for one in printed {
        text.extend_from_slice(one.file.bytes.as_slice())?;
    }
    Ok(text)
}

/// The files alone.
///
/// # Errors
///
/// Out of memory.
pub fn into_files(alloc: Global, printed: Vec<Printed>) -> Result<Vec<File>, AllocError>
    ensures { IfOk result (λ files. entries_of files.items ≡ files_of (map printed_view printed.items)) }
{
    let mut files = Vec::new(alloc);
    for one in printed {
        files.push(one.file)?;
    }
    Ok(files)
}
