// What cells say at a place of a rule.
ghost use Rattle.std.specs.Prelude.{◌≡◌, IfOk};
ghost use Rattle.dx_model.specs.declared.values.Value.TheVariants.{Null as NullValue};
ghost use Rattle.dx_model.specs.Rules.{cell_value, text_of};
ghost use Rattle.dx_instance.specs.Ranks.{text_of_value};
ghost use Rattle.dx_joins.specs.Shown.{AllTexts, texts_of};

use crate::matched::Matched;
use dx_base::Text;
use dx_model::{Cell, NullId, Value};
use std::alloc::{AllocError, Global};

/// A copy of the text of a value; the empty text for a null.
fn text_copy(alloc: Global, value: &Value) -> Result<Text, AllocError>
    ensures { IfOk result (λ t. t ≡ text_of_value value.now) }
{
    match value {
        Value::Const(text) => text.copy(),
        Value::Null(_) => Text::from_str(alloc, ""),
    }
}

/// The text of a variable; the empty text if it has none.
fn text_for(
    alloc: Global,
    matches: &Matched<'_>,
    variables: &[u32],
    row: &[u32],
    variable: u32,
) -> Result<Text, AllocError>
    requires { AllTexts matches.now.symbols row.now }
    ensures { IfOk result (λ t. t ≡ text_of variables.now (texts_of matches.now.symbols row.now) variable) }
{
    for i in 0..variables.len().min(row.len()) {
        if variable == variables[i] {
            return text_copy(alloc, matches.value(row[i]));
        }
    }
    Text::from_str(alloc, "")
}

/// The value that a cell says at a place of a rule, with the texts of the variables in a row.
pub(crate) fn value_said(
    alloc: Global,
    matches: &Matched<'_>,
    variables: &[u32],
    row: &[u32],
    rule: u32,
    place: u32,
    cell: &Cell,
) -> Result<Value, AllocError>
    requires { AllTexts matches.now.symbols row.now }
    ensures { IfOk result (λ v. v ≡ cell_value (text_of variables.now (texts_of matches.now.symbols row.now))
        (λ x. NullValue (record { rule = rule; var = x; row = place })) cell.now) }
{
    match cell {
        Cell::Var(x) => Ok(Value::Const(text_for(alloc, matches, variables, row, *x)?)),
        Cell::Ex(var) => Ok(Value::Null(NullId {
            rule,
            var: *var,
            row: place,
        })),
        Cell::Lit(text) => Ok(Value::Const(text.copy()?)),
    }
}
