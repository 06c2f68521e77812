// From numbers back to values.
ghost use Rattle.std.specs.Prelude.{◌≡◌, ◌<◌, IfOk, length, map};
ghost use Rattle.dx_base.specs.Members.{Each};
ghost use Rattle.dx_model.specs.Tables.{cell};
ghost use Rattle.dx_instance.specs.NullMaps.{pairs_of};
ghost use Rattle.dx_instance.specs.Numbers.{ValuesAscend};
ghost use Rattle.dx_instance.specs.Shown.{PartsFit, NumberRowsFit, renumbered, shown_tables};
ghost use Rattle.dx_instance.specs.Stored.{IsSorting};
ghost use Rattle.dx_chase.specs.Joins.{nth};
ghost use Rattle.dx_keys.specs.Numbers.{NumberRoots, null_map_of, null_of, steps_of};

use dx_base::Items;
use dx_chase::Step;
use dx_instance::{Instance, NullId, NullMap, Row, Rows, Symbols, Value, copy_value};
use dx_model::NullPair;
use std::alloc::{AllocError, Global};

// The null under a number.
fn null_at(symbols: &Symbols, number: u32) -> NullId
    requires { number < length symbols.now }
    ensures { result ≡ null_of (cell symbols.now number) }
{
    match symbols.value(number as u64) {
        Value::Null(null) => *null,
        Value::Const(_) => NullId {
            rule: 0,
            var: 0,
            row: 0,
        },
    }
}

/// What becomes of each null: the value at the root of its number.
///
/// # Errors
///
/// `AllocError` if there is no memory.
pub fn read_map(alloc: Global, symbols: &Symbols, roots: &[u32]) -> Result<NullMap, AllocError>
    requires ascend { ValuesAscend symbols.now }
    requires roots { NumberRoots symbols.now roots.now }
    ensures { IfOk result (λ m. pairs_of m ≡ null_map_of symbols.now roots.now) }
{
    let mut map = NullMap::new(alloc);
    let count = symbols.len() as u32;
    for number in 0..count {
        let root = roots[number as usize];
        if root == number {
            continue;
        }
        let value = copy_value(symbols.value(root as u64))?;
        map.set(null_at(symbols, number), value)?;
    }
    Ok(map)
}

/// The steps, by values.
///
/// # Errors
///
/// `AllocError` if there is no memory.
pub fn read_steps(
    alloc: Global,
    symbols: &Symbols,
    steps: &[Step],
) -> Result<Items<NullPair>, AllocError>
    requires { Each steps.now (λ s. (s.greater < length symbols.now) × (s.lesser < length symbols.now)) }
    ensures { IfOk result (λ all. all ≡ steps_of symbols.now steps.now) }
{
    let mut all = Vec::with_capacity(alloc, steps.len())?;
    for step in steps {
        all.push(NullPair {
            null: null_at(symbols, step.greater),
            value: copy_value(symbols.value(step.lesser as u64))?,
        })?;
    }
    Ok(Items::from_vec(all))
}

/// A row of the values at the roots of numbers.
///
/// # Errors
///
/// `AllocError` if there is no memory.
pub fn read_row(
    alloc: Global,
    symbols: &Symbols,
    roots: &[u32],
    numbers: &[u32],
) -> Result<Row, AllocError>
    requires roots { NumberRoots symbols.now roots.now }
    requires numbers { Each numbers.now (λ v. v < length symbols.now) }
    ensures { IfOk result (λ row. row ≡ map (cell symbols.now) (map (nth roots.now) numbers.now)) }
{
    let mut row = Row::new(alloc);
    for number in numbers {
        let root = roots[*number as usize];
        row.push(copy_value(symbols.value(root as u64))?)?;
    }
    Ok(row)
}

// The rows of tables, which go, each number at its root.
fn at_roots(alloc: Global, roots: &[u32], tables: Vec<Rows>) -> Result<Vec<Rows>, AllocError>
    requires { Each tables.items (NumberRowsFit (length roots.now)) }
    ensures { IfOk result (λ all. all.items ≡ map (renumbered roots.now) tables.items) }
{
    let mut all = Vec::new(alloc);
    for rows in &tables {
        all.push(rows.renumbered(alloc, roots)?)?;
    }
    Ok(all)
}

/// An instance of the rows, each number at its root.
///
/// # Errors
///
/// `AllocError` if there is no memory.
pub fn read_image(
    alloc: Global,
    symbols: Symbols,
    roots: &[u32],
    tables: Vec<Rows>,
) -> Result<Instance, AllocError>
    requires roots { NumberRoots symbols roots.now }
    requires fit { PartsFit symbols tables.items }
    ensures { IfOk result (IsSorting (shown_tables symbols (map (renumbered roots.now) tables.items))) }
{
    let all = at_roots(alloc, roots, tables)?;
    Instance::from_rows(alloc, symbols, all)
}
