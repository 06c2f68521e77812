// Tables and columns by names that are there.
ghost use Rattle.std.specs.Prelude.{◌≡◌, ◌<◌, ◌≤◌, length};
ghost use Rattle.dx_base.specs.declared.limits.TheConstants.{COLUMNS};
ghost use Rattle.dx_base.specs.Members.{◌∈◌};
ghost use Rattle.dx_schema.specs.Names.{table_names_of};
ghost use Rattle.dx_schema.specs.Tables.{tables_of};
ghost use Rattle.dx_script.specs.Names.{column_named, table_named, table_names, table_numbered};
ghost use Rattle.dx_eval.specs.Variables.{width_named};

use dx_base::Text;
use dx_schema::Schema;

/// The number of the table of this name.
pub(crate) fn table_number(schema: &Schema, name: &Text) -> u32
    requires { name.now ∈ table_names (table_names_of schema.now) }
    ensures number { result ≡ table_named (table_names_of schema.now) name.now }
    ensures there { result < length (tables_of schema.now) }
{
    match schema.table_named(name) {
        Some(number) => {
            // The call tells that names tell the tables apart.
            prove!(number < schema.tables());
            number
        }
        None => unreachable!(),
    }
}

/// How many columns the table of this name has.
pub(crate) fn table_width(schema: &Schema, name: &Text) -> u32
    requires { name.now ∈ table_names (table_names_of schema.now) }
    ensures width { result ≡ width_named (table_names_of schema.now) name.now }
    ensures few { result ≤ COLUMNS }
{
    schema.width(table_number(schema, name))
}

/// The number of the column of this name in the table of this name.
pub(crate) fn column_number(schema: &Schema, table: &Text, name: &Text) -> u32
    requires table { table.now ∈ table_names (table_names_of schema.now) }
    requires column { name.now ∈ (table_numbered (table_names_of schema.now) (table_named (table_names_of schema.now) table.now)).columns }
    ensures { result ≡ column_named (table_names_of schema.now) (table_named (table_names_of schema.now) table.now) name.now }
{
    let number = table_number(schema, table);
    // The call tells that names tell the columns apart.
    prove!(number < schema.tables());
    match schema.column_named(number, name) {
        Some(number) => number,
        None => unreachable!(),
    }
}
