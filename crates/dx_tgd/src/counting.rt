// How many matches a limit on canonical cells leaves room for.
ghost use Rattle.std.specs.Prelude.{◌≡◌, ◌<◌, ◌^◌, length};
ghost use Rattle.dx_model.specs.Rules.{cells_of};

use dx_model::Rule;

/// How many cells the conclusion of a rule has.
pub(crate) fn conclusion_cells(rule: &Rule) -> u64
    requires { length (cells_of rule.now.conclusion) < 2 ^ 32 }
    ensures { result ≡ length (cells_of rule.now.conclusion) }
{
    let mut count = 0;
    for atom in rule.conclusion.items() {
        count += atom.cells.len();
    }
    count
}
