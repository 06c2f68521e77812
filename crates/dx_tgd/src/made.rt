// What rules make of source rows.
use crate::rule_matches::RuleMatches;
use dx_instance::Instance;

/// What rules make of source rows.
#[derive(Drop)]
pub struct Made {
    /// The facts.
    pub instance: Instance,
    /// The rows of each rule.
    pub matches: RuleMatches,
}
