// The names of given files.
ghost use Rattle.std.specs.Prelude.{◌≡◌, IfOk};
ghost use Rattle.clio_given.specs.Given.{given_name};

use clio_source::file_name;
use dx_base::Text;
use std::alloc::{AllocError, Global};

/// The name of a table's given file.
///
/// # Errors
///
/// `AllocError` if there is no memory.
pub(crate) fn given_name(alloc: Global, table: &Text) -> Result<Text, AllocError>
    ensures { IfOk result (λ name. name ≡ given_name table.now) }
{
    file_name(alloc, "given/", table)
}
