// Patterns that share no variable.
ghost use Rattle.std.specs.Prelude.{◌↔◌, ℕ, IsTrue};
ghost use Rattle.dx_base.specs.Members.{◌∈◌};
ghost use Rattle.dx_joins.specs.Joining.{variables_of_patterns};
ghost use Rattle.dx_joins.specs.Products.{ShareNone};

use crate::pattern::Pattern;
use crate::premise::stands_in;

// Whether one of these variables stands in one of the patterns.
fn one_stands_in(variables: &[u32], patterns: &[Pattern]) -> bool
    ensures { IsTrue result ↔ ((x : ℕ) × (x ∈ variables.now) × (x ∈ variables_of_patterns patterns.now)) }
{
    variables.iter().any(|x| stands_in(*x, patterns))
}

/// Whether no variable of the first patterns stands in the others.
pub(crate) fn are_apart(first: &[Pattern], others: &[Pattern]) -> bool
    ensures { IsTrue result ↔ ShareNone first.now others.now }
{
    !others
        .iter()
        .any(|pattern| one_stands_in(&pattern.variables, first))
}
