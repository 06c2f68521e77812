// Where a value may stand among values in order. A hint may be wrong: it costs time then and nothing else.
ghost use Rattle.std.specs.Prelude.{◌≡◌, ℕ, List, IfOk, length};
ghost use Rattle.dx_model.specs.declared.values.Value.TheVariants.{Const};

use dx_model::{NullId, Value};
use std::alloc::{AllocError, Global};

// Above the first bytes of every text.
const NULLS: u64 = 0xf8 << 56;

// A number that mostly compares as the null.
fn null_hint(null: &NullId) -> u64 {
    let rule = u64::from(null.rule.min(255)) << 48;
    let var = u64::from(null.var.min(65_535)) << 32;
    NULLS | rule | var | u64::from(null.row)
}

/// A number that mostly compares as the value, of which `key` compares as the first eight bytes if it is a constant.
pub(crate) fn hint_of(key: u64, value: &Value) -> u64
    ensures constant { (text : List ℕ) → value.now ≡ Const text → result ≡ key }
{
    match value {
        Value::Const(_) => key,
        Value::Null(null) => null_hint(null),
    }
}

/// The hints of values with their keys.
///
/// # Errors
///
/// `AllocError` if there is no memory.
pub(crate) fn hints_of(
    alloc: Global,
    keys: &[(u64, u32)],
    values: &[Value],
) -> Result<Vec<u64>, AllocError>
    requires { length values.now ≡ length keys.now }
    ensures many { IfOk result (λ hints. length hints.items ≡ length keys.now) }
{
    let mut hints = Vec::with_capacity(alloc, keys.len())?;
    for (key, value) in keys.iter().zip(values) {
        hints.push(hint_of(key.0, value))?;
    }
    Ok(hints)
}
