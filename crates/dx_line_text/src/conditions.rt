// Conditions, by the numbers of what they name.
ghost use Rattle.std.specs.Prelude.{◌≡◌, ◌⊎◌, None, Some, IfErr, IfOk, OnOk};
ghost use Rattle.dx_base.specs.Members.{Each};
ghost use Rattle.dx_schema.specs.Tables.{model_tables};
ghost use Rattle.dx_funcs.specs.Judging.{tested};
ghost use Rattle.dx_tokens.specs.declared.faults.TextFault.TheVariants.{Memory};
ghost use Rattle.dx_lines.specs.Limits.{IsSchemaColumn};
ghost use Rattle.dx_line_text.specs.Answers.{AnswersOrFault};
ghost use Rattle.dx_line_text.specs.Naming.{name_fault};
ghost use Rattle.dx_line_text.specs.Conditions.{condition_fault, condition_of, conditions_fault, conditions_of, test_code, test_names, ConditionIsListed};

use crate::places::read_place;
use dx_base::{Items, Text};
use dx_funcs::{Meaning, Tests};
use dx_lines::Condition;
use dx_schema::Schema;
use dx_schema_text::OnlyText;
use dx_tokens::{TextFault, TextKind};
use std::alloc::{AllocError, Global};

// The code of the row test that a condition names.
fn read_test<P, M>(tests: &Tests<P, M>, condition: &OnlyText) -> Result<u32, TextFault>
where
    P: Fn(u32, &Text) -> Result<bool, AllocError>,
    M: Meaning,
    ensures { AnswersOrFault result (test_code (tested tests.now) condition.now.test)
        (name_fault (test_names (tested tests.now)) condition.now.test condition.now.test_place) }
{
    let Some(test) = tests.find(&condition.test) else {
        return Err(TextFault::At {
            place: condition.test_place,
            kind: TextKind::UnknownName,
        });
    };
    Ok(test.code)
}

// A condition.
fn read_condition<P, M>(
    condition: &OnlyText,
    source: &Schema,
    tests: &Tests<P, M>,
) -> Result<Condition, TextFault>
where
    P: Fn(u32, &Text) -> Result<bool, AllocError>,
    M: Meaning,
    ensures { AnswersOrFault result (condition_of source.now (tested tests.now) condition.now)
        (condition_fault source.now (tested tests.now) condition.now) }
{
    let place = read_place(source, &condition.place)?;
    let code = read_test(tests, condition)?;
    Ok(Condition { place, code })
}

/// The conditions, by the numbers of the sets and columns of the source and by the codes of the row tests that they name.
///
/// # Errors
///
/// `At` with the first fault in the order of the text, which is always `UnknownName`: condition by condition a set of this
/// name isn't there, or a column of the set, or no row test of this name is listed. `Memory` if there is no memory, which
/// may come at any point.
pub fn read_conditions<P, M>(
    alloc: Global,
    conditions: &[OnlyText],
    source: &Schema,
    tests: &Tests<P, M>,
) -> Result<Items<Condition>, TextFault>
where
    P: Fn(u32, &Text) -> Result<bool, AllocError>,
    M: Meaning,
    ensures conditions { IfOk result (λ cs. cs ≡ conditions_of source.now (tested tests.now) conditions.now) }
    ensures none { OnOk result (conditions_fault source.now (tested tests.now) conditions.now ≡ None) }
    ensures fault { IfErr result (λ e. (e ≡ Memory) ⊎ (conditions_fault source.now (tested tests.now) conditions.now ≡ Some e)) }
    ensures columns { IfOk result (λ cs. Each cs (λ c. IsSchemaColumn (model_tables source.now) c.place)) }
    ensures listed { IfOk result (λ cs. Each cs (ConditionIsListed (tested tests.now))) }
{
    let mut read = Items::new(alloc);
    for condition in conditions {
        read.push(read_condition(condition, source, tests)?)?;
    }
    Ok(read)
}
