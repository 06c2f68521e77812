// The roots of a target as documents.
ghost use Rattle.std.specs.Prelude.{◌≡◌, ◌<◌, IfOk, OnOk, length, map};
ghost use Rattle.dx_schema.specs.Tables.{schema_widths, tables_of};
ghost use Rattle.dx_instance.specs.Stored.{IsSorting, widths};
ghost use Rattle.clio_source.specs.Source.{roots};
ghost use Rattle.clio_files.specs.Files.{printed_view};
ghost use Rattle.clio_files.specs.Nested.{IsRootFile};
ghost use Rattle.clio_files.specs.Printing.{AddsRoots};

use crate::printed::Printed;
use clio_source::json_file_name;
use dx_instance::Instance;
use dx_json::nest_sorted;
use dx_schema::Schema;
use std::alloc::{AllocError, Global};

// The file of a root of the target: its document is made of the target's rows in order.
fn root_file(
    alloc: Global,
    schema: &Schema,
    target: &Instance,
    sorted: &mut Instance,
    root: u32,
) -> Result<Printed, AllocError>
    requires root { root < length (tables_of schema.now) }
    requires widths { widths target.now ≡ schema_widths schema.now }
    requires sorted { IsSorting target.now sorted.old }
    ensures file { IfOk result (λ p. IsRootFile schema.now target.now root (printed_view p)) }
    ensures same { sorted.new ≡ sorted.old }
{
    let text = nest_sorted(alloc, sorted, schema, root)?;
    let name = json_file_name(alloc, schema.name(root))?;
    let rows = target.count(root);
    Printed::of_text(alloc, name.as_str(), &text, u64::from(rows))
}

/// Adds the file of each root of the target, in order.
pub(crate) fn push_roots(
    alloc: Global,
    schema: &Schema,
    target: &Instance,
    files: &mut Vec<Printed>,
) -> Result<(), AllocError>
    requires { widths target.now ≡ schema_widths schema.now }
    ensures { OnOk result (AddsRoots schema.now target.now (roots schema.now) (map printed_view files.old.items)
        (map printed_view files.new.items)) }
{
    let mut sorted = target.sorted()?;
    let mut root = 0;
    for tree in schema.trees() {
        prove!(root < schema.tables());
        files.push(root_file(alloc, schema, target, &mut sorted, root)?)?;
        root += 1 + tree.inner.count();
    }
    Ok(())
}
