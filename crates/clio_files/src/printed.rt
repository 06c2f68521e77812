// A file that is printed.
ghost use Rattle.std.specs.Prelude.{◌≡◌, IfOk};
ghost use Rattle.clio_files.specs.Files.{printed_view};

use dx_base::{File, Text};
use std::alloc::{AllocError, Global};

/// A file, and how many things are in it, as its kind counts them: rules, steps of a script, the records under a header, or
/// the objects of a document.
#[derive(Drop)]
pub struct Printed {
    pub file: File,
    pub count: u64,
}

impl Printed {
    /// The file of this name and this text.
    pub(crate) fn of_text(
        alloc: Global,
        name: &str,
        text: &Text,
        count: u64,
    ) -> Result<Printed, AllocError>
        ensures { IfOk result (λ p. printed_view p ≡ record { name = name.now; bytes = text.now; count = count }) }
    {
        Ok(Printed {
            file: File {
                name: Text::from_str(alloc, name)?,
                bytes: Vec::from_slice(alloc, text.bytes())?,
            },
            count,
        })
    }
}
