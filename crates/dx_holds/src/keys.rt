// Whether keys and dependencies hold.
ghost use Rattle.std.specs.Prelude.{◌≡◌, ◌↔◌, ◌<◌, ℕ, IsTrue, length};
ghost use Rattle.dx_base.specs.Members.{◌∈◌, Each};
ghost use Rattle.dx_model.specs.Tables.{KeysHold};
ghost use Rattle.dx_schema.specs.Tables.{model_tables, schema_widths, schema_table};
ghost use Rattle.dx_instance.specs.Stored.{facts, rows_of, table_at, widths};
ghost use Rattle.dx_holds.specs.Columns.{IsFirstLike, RowsAgree, RowsDetermine, RowsDiffer, TableHolds};

use crate::columns::Seen;
use dx_instance::Instance;
use dx_schema::Schema;

/// The least place whose row has in these columns what the row at a place has.
fn first_like(instance: &Instance, table: u32, columns: &[u32], place: u32) -> u32
    requires table { table < length instance.now }
    requires columns { (c : ℕ) → c ∈ columns.now → c < (table_at instance.now table).width }
    requires place { place < length (rows_of instance.now table) }
    ensures { IsFirstLike instance.now table columns.now place result }
{
    let row = Seen {
        instance,
        table,
        place,
        columns,
    };
    match row.next_like(table, columns, 0) {
        Some(first) => first,
        None => unreachable!(),
    }
}

/// Whether a row is the first of those that have the same values in these columns as it has.
fn is_first_like(instance: &Instance, table: u32, columns: &[u32], place: u32) -> bool
    requires table { table < length instance.now }
    requires columns { (c : ℕ) → c ∈ columns.now → c < (table_at instance.now table).width }
    requires place { place < length (rows_of instance.now table) }
    ensures { IsTrue result ↔ IsFirstLike instance.now table columns.now place place }
{
    first_like(instance, table, columns, place) == place
}

/// Whether no two rows of the table have the same values in these columns.
fn differ_in(instance: &Instance, table: u32, columns: &[u32]) -> bool
    requires table { table < length instance.now }
    requires columns { (c : ℕ) → c ∈ columns.now → c < (table_at instance.now table).width }
    ensures { IsTrue result ↔ RowsDiffer instance.now table columns.now }
{
    (0..instance.count(table)).all(|place| is_first_like(instance, table, columns, place))
}

/// Whether a row has in the columns on the right what the first row has that has its values in those on the left.
fn agrees_with_first(
    instance: &Instance,
    table: u32,
    left: &[u32],
    right: &[u32],
    place: u32,
) -> bool
    requires table { table < length instance.now }
    requires left { (c : ℕ) → c ∈ left.now → c < (table_at instance.now table).width }
    requires right { (c : ℕ) → c ∈ right.now → c < (table_at instance.now table).width }
    requires place { place < length (rows_of instance.now table) }
    ensures { (first : ℕ) × IsFirstLike instance.now table left.now place first
        × (IsTrue result ↔ RowsAgree instance.now table first right.now table right.now place) }
{
    let first = Seen {
        instance,
        table,
        place: first_like(instance, table, left, place),
        columns: right,
    };
    first.agrees(table, right, place)
}

/// Whether rows of the table that have the same values in the columns on the left have the same in those on the right. Each
/// row is compared with the first that has its values on the left.
fn determine(instance: &Instance, table: u32, left: &[u32], right: &[u32]) -> bool
    requires table { table < length instance.now }
    requires left { (c : ℕ) → c ∈ left.now → c < (table_at instance.now table).width }
    requires right { (c : ℕ) → c ∈ right.now → c < (table_at instance.now table).width }
    ensures { IsTrue result ↔ RowsDetermine instance.now table left.now right.now }
{
    (0..instance.count(table)).all(|place| agrees_with_first(instance, table, left, right, place))
}

/// Whether the keys of one table hold.
fn table_keys_hold(schema: &Schema, instance: &Instance, table: u32) -> bool
    requires widths { widths instance.now ≡ schema_widths schema.now }
    requires table { table < length instance.now }
    ensures { IsTrue result ↔ Each (schema_table schema.now table).keys (λ k. RowsDiffer instance.now table k.columns) }
{
    prove!(table < schema.tables());
    schema
        .keys_of(table)
        .iter()
        .all(|key| differ_in(instance, table, key.columns.items()))
}

/// Whether the dependencies of one table hold.
fn table_deps_hold(schema: &Schema, instance: &Instance, table: u32) -> bool
    requires widths { widths instance.now ≡ schema_widths schema.now }
    requires table { table < length instance.now }
    ensures { IsTrue result ↔ Each (schema_table schema.now table).deps (λ d. RowsDetermine instance.now table d.columns d.decides) }
{
    prove!(table < schema.tables());
    schema.deps_of(table).iter().all(|dep| determine(
        instance,
        table,
        dep.columns.items(),
        dep.decides.items(),
    ))
}

/// Whether the keys and the dependencies of one table hold.
fn table_holds(schema: &Schema, instance: &Instance, table: u32) -> bool
    requires widths { widths instance.now ≡ schema_widths schema.now }
    requires table { table < length instance.now }
    ensures { IsTrue result ↔ TableHolds instance.now table (schema_table schema.now table) }
{
    table_keys_hold(schema, instance, table) && table_deps_hold(schema, instance, table)
}

/// Whether the keys and the dependencies of a schema hold in an instance: two rows of a table that agree on the columns of a
/// key are one, and two that agree on the left of a dependency agree on its right. It takes no memory. An index of a column of
/// each key, and of the left of each dependency, makes it fast, if few rows have a value of it in common.
pub fn keys_hold(schema: &Schema, instance: &Instance) -> bool
    requires { widths instance.now ≡ schema_widths schema.now }
    ensures { IsTrue result ↔ KeysHold (model_tables schema.now) (facts instance.now) }
{
    (0..instance.tables()).all(|table| table_holds(schema, instance, table))
}
