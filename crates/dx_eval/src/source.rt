// What match steps read.
ghost use Rattle.std.specs.Prelude.{◌≡◌};
ghost use Rattle.dx_schema.specs.Tables.{schema_widths};
ghost use Rattle.dx_instance.specs.Shown.{shown_tables};
ghost use Rattle.dx_instance.specs.Stored.{widths};

use dx_funcs::Host;
use dx_instance::Numbers;
use dx_schema::Schema;

/// The rows of a source, its schema, and what computes the conversions of a script.
#[derive(Drop)]
pub(crate) struct Source<'a, 'n, F, M> {
    pub(crate) schema: &'a Schema,
    pub(crate) rows: &'a Numbers<'n>,
    pub(crate) host: &'a Host<F, M>,
    ghost wide: { widths (shown_tables rows.now.symbols rows.now.tables) ≡ schema_widths schema.now },
}
