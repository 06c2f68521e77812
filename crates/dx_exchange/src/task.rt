// Rows and rules that targets are asked for.
ghost use Rattle.std.specs.Prelude.{◌≡◌, ◌<◌, ◌-◌, ◌^◌};
ghost use Rattle.dx_schema.specs.Tables.{schema_widths};
ghost use Rattle.dx_instance.specs.Stored.{widths};

use dx_funcs::Host;
use dx_instance::Instance;
use dx_model::Rule;
use dx_schema::Schema;

/// Source rows, and the rules between two schemas that say what their targets are.
#[derive(Drop)]
pub struct Task<'a, F, M> {
    /// The rules.
    pub rules: &'a [Rule],
    /// The schema of the rows.
    pub source: &'a Schema,
    /// The schema of the targets.
    pub target: &'a Schema,
    /// The source rows.
    pub rows: &'a Instance,
    /// What computes the conversions of the rules.
    pub host: &'a Host<F, M>,
    /// How many cells the canonical instance may have.
    pub limit: u64,
    pub ghost rows_fit: { widths rows.now ≡ schema_widths source.now },
    pub ghost few_cells: { limit < 2 ^ 32 - 1 },
}
