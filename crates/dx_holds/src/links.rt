// Whether links hold.
ghost use Rattle.std.specs.Prelude.{◌≡◌, ◌↔◌, ◌<◌, IsTrue, length};
ghost use Rattle.dx_base.specs.Members.{Each};
ghost use Rattle.dx_model.specs.Tables.{LinksHold};
ghost use Rattle.dx_schema.specs.Tables.{model_tables, schema_widths, schema_table};
ghost use Rattle.dx_instance.specs.Stored.{facts, rows_of, table_at, widths};
ghost use Rattle.dx_holds.specs.Columns.{LinkFitsInstance, RowLeads, RowsLead};

use crate::columns::Seen;
use dx_instance::Instance;
use dx_model::Link;
use dx_schema::Schema;

/// Whether one row of the table has the row that the link names.
fn has_target(instance: &Instance, table: u32, link: &Link, place: u32) -> bool
    requires table { table < length instance.now }
    requires fits { LinkFitsInstance instance.now (table_at instance.now table).width link.now }
    requires place { place < length (rows_of instance.now table) }
    ensures { IsTrue result ↔ RowLeads instance.now table link.now place }
{
    let row = Seen {
        instance,
        table,
        place,
        columns: link.from.items(),
    };
    row.next_like(link.table, link.to.items(), 0).is_some()
}

/// Whether each row of the table has the row that the link names.
fn leads(instance: &Instance, table: u32, link: &Link) -> bool
    requires table { table < length instance.now }
    requires fits { LinkFitsInstance instance.now (table_at instance.now table).width link.now }
    ensures { IsTrue result ↔ RowsLead instance.now table link.now }
{
    (0..instance.count(table)).all(|place| has_target(instance, table, link, place))
}

/// Whether the links of one table hold.
fn table_links_hold(schema: &Schema, instance: &Instance, table: u32) -> bool
    requires widths { widths instance.now ≡ schema_widths schema.now }
    requires table { table < length instance.now }
    ensures { IsTrue result ↔ Each (schema_table schema.now table).links (RowsLead instance.now table) }
{
    prove!(table < schema.tables());
    schema
        .links_of(table)
        .iter()
        .all(|link| leads(instance, table, link))
}

/// Whether the links of a schema hold in an instance: each row has the rows that its links name. It takes no memory. An
/// index of a column that each link leads to makes it fast, if few rows have a value of it in common.
pub fn links_hold(schema: &Schema, instance: &Instance) -> bool
    requires { widths instance.now ≡ schema_widths schema.now }
    ensures { IsTrue result ↔ LinksHold (model_tables schema.now) (facts instance.now) }
{
    (0..instance.tables()).all(|table| table_links_hold(schema, instance, table))
}
