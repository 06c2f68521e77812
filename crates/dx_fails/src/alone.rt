// The first link that does not hold.
ghost use Rattle.std.specs.Prelude.{◌≡◌, ◌<◌, IfOk, MatchOption, length};
ghost use Rattle.dx_model.specs.Tables.{LinksHold};
ghost use Rattle.dx_schema.specs.Tables.{model_tables, schema_widths};
ghost use Rattle.dx_instance.specs.Stored.{facts, table_at, widths};
ghost use Rattle.dx_holds.specs.Columns.{LinkFitsInstance};
ghost use Rattle.dx_fails.specs.Shown.{AllLead, IsAloneOrNone, IsLoneIn, IsLoneRow, IsWidth};

use crate::shadows::{shadow_of, shadows};
use dx_instance::Instance;
use dx_model::Link;
use dx_schema::Schema;
use std::alloc::{AllocError, Global};

/// A table and a link of it that do not hold: a row, by its place, lacks the row that the link names.
#[derive(Clone, Copy, Debug)]
pub struct LoneRow {
    pub table: u32,
    pub link: u32,
    pub place: u32,
}

// The first row of a table that lacks the row that the link names.
fn first_alone(
    alloc: Global,
    instance: &Instance,
    table: u32,
    link: &Link,
) -> Result<Option<u32>, AllocError>
    requires table { table < length instance.now }
    requires fits { LinkFitsInstance instance.now (table_at instance.now table).width link.now }
    requires wide { IsWidth (length link.now.from) }
    ensures { IfOk result (IsAloneOrNone instance.now table link.now) }
{
    let named = shadows(alloc, instance, link.table, link.to.items())?;
    for place in 0..instance.count(table) {
        let row = shadow_of(alloc, instance, table, link.from.items(), place)?;
        if !named.contains(0, &row) {
            return Ok(Some(place));
        }
    }
    Ok(None)
}

// The first link of a table that does not hold.
fn alone_in(
    alloc: Global,
    schema: &Schema,
    instance: &Instance,
    table: u32,
) -> Result<Option<LoneRow>, AllocError>
    requires widths { widths instance.now ≡ schema_widths schema.now }
    requires table { table < length instance.now }
    ensures { IfOk result (λ o. MatchOption o (AllLead (model_tables schema.now) instance.now table)
        (IsLoneIn (model_tables schema.now) instance.now table)) }
{
    // The call tells what holds of the tables of each schema.
    prove!((schema.tables() as u64) < 1 << 32);
    let links = schema.links_of(table);
    for i in 0..links.len() {
        if let Some(place) = first_alone(alloc, instance, table, &links[i])? {
            return Ok(Some(LoneRow {
                table,
                link: i as u32,
                place,
            }));
        }
    }
    Ok(None)
}

/// The first table and link that do not hold, with a row that lacks the row that the link names. It goes once through the rows
/// of both tables for each link, whatever stands in them.
///
/// # Errors
///
/// `AllocError` if there is no memory.
pub fn first_lone_row(
    alloc: Global,
    schema: &Schema,
    instance: &Instance,
) -> Result<Option<LoneRow>, AllocError>
    requires { widths instance.now ≡ schema_widths schema.now }
    ensures { IfOk result (λ o. MatchOption o (LinksHold (model_tables schema.now) (facts instance.now))
        (IsLoneRow (model_tables schema.now) instance.now)) }
{
    for table in 0..instance.tables() {
        if let Some(lone) = alone_in(alloc, schema, instance, table)? {
            return Ok(Some(lone));
        }
    }
    Ok(None)
}
