// The closing of a rule.
ghost use Rattle.std.specs.Prelude.{◌≡◌, ◌≤◌, ◌<◌, List, IfOk, IfErr, length};
ghost use Rattle.dx_base.specs.Members.{Each};
ghost use Rattle.dx_model.specs.declared.rules.Atom.{Atom as AtomRow};
ghost use Rattle.dx_model.specs.Solutions.{AtomFits, IsClosed};
ghost use Rattle.dx_model.specs.Fitting.{AreNumbered};
ghost use Rattle.dx_schema.specs.Tables.{model_tables};
ghost use Rattle.dx_closing.specs.declared.fault.CloseFault.TheVariants.{TooWide};
ghost use Rattle.dx_closing.specs.Closing.{IsClosing, IsClosingOf};

use crate::fault::CloseFault;
use crate::growing::Growing;
use crate::links::follow_atom;
use crate::variables::above_all;
use dx_base::limits::{OCCURRENCES, TABLES};
use dx_model::Rule;
use dx_schema::Schema;
use std::alloc::Global;

/// The closing of a rule along the links of the target: its conclusion with an atom more for each link of an atom that
/// none served.
///
/// # Errors
///
/// `TooWide`: each closing of the conclusion has more than 64 atoms. `Memory` if there is no memory.
pub fn close(alloc: Global, rule: Rule, target: &Schema) -> Result<Rule, CloseFault>
    requires fits { Each rule.conclusion (AtomFits (model_tables target.now)) }
    requires numbered { AreNumbered rule.conclusion }
    ensures closing { IfOk result (λ e. IsClosingOf (model_tables target.now) rule e) }
    ensures narrow { IfOk result (λ e. length e.conclusion ≤ OCCURRENCES) }
    ensures closed { IfOk result (λ e. IsClosed (model_tables target.now) e) }
    ensures numbered { IfOk result (λ e. AreNumbered e.conclusion) }
    ensures wide { IfErr result (λ e. e ≡ TooWide
        → (E : List AtomRow) → IsClosing (model_tables target.now) rule.conclusion E → OCCURRENCES < length E) }
{
    let Rule {
        premise,
        derived,
        conclusion,
    } = rule;
    if conclusion.len() > OCCURRENCES {
        return Err(CloseFault::TooWide);
    }
    // Not the number is wanted, but what the call ensures of the tables of each schema.
    prove!(target.tables() as u64 <= TABLES);
    let next = above_all(conclusion.items());
    let mut growing = Growing {
        atoms: conclusion,
        next,
    };
    let mut place = 0;
    'atoms: while place < growing.atoms.items().len() {
        follow_atom(alloc, target, &mut growing, place)?;
        place += 1;
    }
    Ok(Rule {
        premise,
        derived,
        conclusion: growing.atoms,
    })
}
