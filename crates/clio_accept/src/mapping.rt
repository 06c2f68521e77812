// Mappings.
use dx_base::Items;
use dx_lines::Condition;
use dx_model::Rule;
use dx_schema::Schema;

/// What a mapping text defines: the schemas of its two sides, the conditions on the rows of the source, and the rules between
/// the two.
#[derive(Drop)]
pub struct Mapping {
    pub source: Schema,
    pub target: Schema,
    pub conditions: Items<Condition>,
    pub rules: Items<Rule>,
}
