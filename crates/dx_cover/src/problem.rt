// What a search for cell maps looks for.
ghost use Rattle.std.specs.Prelude.{◌≡◌};
ghost use Rattle.dx_model.specs.Rules.{cells_of, exported};
ghost use Rattle.dx_model.specs.Covers.{after_existential};

use dx_model::{Atom, Rule};
use std::alloc::Global;

/// Cell maps from a rule are looked for, which choose among the others for each atom of its conclusion. The exported
/// variables of the rule, ascending, and how many existential ones it has. What the search makes is put into `alloc`.
#[derive(Drop)]
pub(crate) struct Problem<'a> {
    pub alloc: Global,
    pub rule: &'a Rule,
    pub others: &'a [Atom],
    pub variables: Vec<u32>,
    pub existential: u32,
    ghost ascending: { variables.items ≡ exported rule.now },
    ghost counted: { existential ≡ after_existential (cells_of rule.now.conclusion) },
}
