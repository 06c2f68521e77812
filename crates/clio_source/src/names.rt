// The names of a schema's files.
ghost use Rattle.std.specs.Prelude.{◌≡◌, ◌++◌, IfOk};
ghost use Rattle.clio_source.specs.Source.{csv_name, json_name};

use dx_base::Text;
use std::alloc::{AllocError, Global};

/// The name of a table's file, with this in front of it.
///
/// # Errors
///
/// Out of memory.
pub fn file_name(alloc: Global, front: &str, table: &Text) -> Result<Text, AllocError>
    ensures { IfOk result (λ name. name ≡ front.now ++ csv_name table.now) }
{
    Text::from_string(alloc, format!(in alloc; "{front}{table}.csv")?)
}

/// The name of the file of a root with its inner sets.
///
/// # Errors
///
/// Out of memory.
pub fn json_file_name(alloc: Global, root: &Text) -> Result<Text, AllocError>
    ensures { IfOk result (λ name. name ≡ json_name root.now) }
{
    Text::from_string(alloc, format!(in alloc; "{root}.json")?)
}
