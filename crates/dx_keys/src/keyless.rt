// What is made of an instance if no table has a key or a dependency: nothing changes.
ghost use Rattle.std.specs.Prelude.{◌≡◌, ◌<◌, ◌↔◌, [], List, IfOk, IsTrue, length};
ghost use Rattle.dx_base.specs.Members.{Each};
ghost use Rattle.dx_model.specs.Tables.{IsKeyed, Table as ModelTable};
ghost use Rattle.dx_schema.specs.Tables.{determinations_of, schema_table, tables_of};
ghost use Rattle.dx_instance.specs.Stored.{facts};
ghost use Rattle.dx_keys.specs.Answers.{IsChased};

use crate::answers::Chased;
use dx_instance::{Instance, NullMap};
use dx_schema::Schema;
use std::alloc::{AllocError, Global};

/// Whether a table has neither a key nor a dependency.
fn is_free(schema: &Schema, table: u32) -> bool
    requires { table < length (tables_of schema.now) }
    ensures { IsTrue result ↔ (determinations_of (schema_table schema.now table) ≡ []) }
{
    schema.keys_of(table).is_empty() && schema.deps_of(table).is_empty()
}

/// Whether no table has a key or a dependency.
pub(crate) fn has_no_determinations(schema: &Schema) -> bool
    ensures { IsTrue result ↔ Each (tables_of schema.now) (λ t. determinations_of t ≡ []) }
{
    (0..schema.tables()).all(|table| is_free(schema, table))
}

/// The chase of an instance in which keys hold.
///
/// # Errors
///
/// `AllocError` if there is no memory.
pub(crate) fn unchanged(alloc: Global, instance: Instance) -> Result<Chased, AllocError>
    ensures { (schema : List ModelTable) → IsKeyed schema (facts instance) → IfOk result (IsChased schema instance) }
{
    let map = NullMap::new(alloc);
    let instance = instance.into_sorted()?;
    Ok(Chased { instance, map })
}
