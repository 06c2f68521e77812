// The values whose texts the fields of a table are.
ghost use Rattle.std.specs.Prelude.{◌≡◌, List, IfOk, IfErr, MatchBool, MatchOption, length};
ghost use Rattle.std.specs.List.{AllZip};
ghost use Rattle.dx_base.specs.Members.{Each};
ghost use Rattle.dx_model.specs.declared.values.Value.{Value as Cell};
ghost use Rattle.dx_instance.specs.Numbers.{Extends};
ghost use Rattle.dx_instance.specs.Shown.{NumbersBelow, Shows};
ghost use Rattle.clio_given.specs.declared.values.NoValues.TheVariants.{Memory};
ghost use Rattle.clio_given.specs.Given.{IsNoRow, IsValueOf};
ghost use Rattle.clio_given.specs.Reading.{ShowsFields, IsNoValueFault};

use dx_base::no_number_left;
use dx_instance::{Gathered, Row, Rows, Value, value_read};
use std::alloc::{AllocError, AllocFailed, Global};

/// Why fields have no values: the record of this number is the first with a field that is no value's text.
#[derive(Clone, Copy, Debug)]
pub(crate) enum NoValues {
    Record(u64),
    Memory,
}

impl From<AllocError> for NoValues {
    ghost from_gives = { λ _ e. e ≡ Memory };

    fn from(_: AllocError) -> Self {
        NoValues::Memory
    }
}

impl<T: Drop> From<AllocFailed<T>> for NoValues {
    ghost from_gives = { λ _ e. e ≡ Memory };

    fn from(_: AllocFailed<T>) -> Self {
        NoValues::Memory
    }
}

// The value whose text a field is, if it is one.
fn value_of(alloc: Global, field: &Value) -> Result<Option<Value>, AllocError>
    ensures { IfOk result (λ o. MatchOption o ((v : Cell) → ¬ (IsValueOf field.now v)) (IsValueOf field.now)) }
{
    match field {
        Value::Const(text) => value_read(alloc, text),
        Value::Null(_) => Ok(None),
    }
}

// Puts the numbers of the values of fields in place of what `numbers` has. Says whether each field has one.
fn number_row(
    alloc: Global,
    fields: &[Value],
    symbols: &mut Gathered,
    numbers: &mut Vec<u32>,
) -> Result<bool, AllocError>
    ensures values { IfOk result (λ whole. MatchBool whole
        ((row : List Cell) × AllZip IsValueOf fields.now row × Shows symbols.new numbers.new.items row) (IsNoRow fields.now)) }
    ensures grows { Extends symbols.old symbols.new }
{
    numbers.clear();
    for field in fields {
        let Some(value) = value_of(alloc, field)? else {
            return Ok(false);
        };
        let number = symbols.put(value)?;
        numbers.push(number as u32)?;
    }
    Ok(true)
}

/// The rows of the values of rows of fields, as numbers of symbols.
///
/// # Errors
///
/// `Record` with the first record, of those that are numbered from 1 on, with a field that is no value's text. `Memory` if there is no
/// memory.
pub(crate) fn rows_of(
    alloc: Global,
    width: u32,
    records: &[Row],
    symbols: &mut Gathered,
) -> Result<Rows, NoValues>
    requires wide { Each records.now (λ fields. length fields ≡ width) }
    ensures rows { IfOk result (ShowsFields records.now symbols.new) }
    ensures width { IfOk result (λ rows. rows.width ≡ width) }
    ensures below { IfOk result (λ rows. Each rows.rows (NumbersBelow (length symbols.new))) }
    ensures grows { Extends symbols.old symbols.new }
    ensures fault { IfErr result (IsNoValueFault records.now) }
{
    let Ok(count) = u32::try_from(records.len()) else {
        return Err(NoValues::from(no_number_left(records.len() as u64)));
    };
    let mut rows = Rows::new(alloc, width);
    let mut numbers = Vec::new(alloc);
    for place in 0..count {
        if !number_row(
            alloc,
            records[place as usize].items(),
            symbols,
            &mut numbers,
        )? {
            return Err(NoValues::Record(u64::from(place) + 1));
        }
        rows.push(&numbers)?;
    }
    Ok(rows)
}
