// The schemas between which rules are tested, and how.
ghost use Rattle.std.specs.Prelude.{◌<◌, ◌-◌, ◌^◌};

use dx_base::Text;
use dx_schema::Schema;

/// The schemas between which rules are tested, and how.
#[derive(Clone, Copy)]
pub struct Between<'a> {
    /// The schema of premises.
    pub source: &'a Schema,
    /// The schema of conclusions.
    pub target: &'a Schema,
    /// What the texts of variables begin with.
    pub prefix: &'a Text,
    /// How many canonical cells there may be on a frozen premise.
    pub limit: u64,
    pub ghost few_cells: { limit < 2 ^ 32 - 1 },
}
