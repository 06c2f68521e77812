// The key chase of an instance.
ghost use Rattle.std.specs.Prelude.{◌≡◌, List, IfErr, IfOk, map};
ghost use Rattle.dx_schema.specs.Forest.{Forest};
ghost use Rattle.dx_schema.specs.Tables.{model_tables, schema_widths};
ghost use Rattle.dx_instance.specs.NullMaps.{pairs_of};
ghost use Rattle.dx_instance.specs.Numbers.{ValuesAscend};
ghost use Rattle.dx_instance.specs.Shown.{PartsFit, renumbered, shown_tables};
ghost use Rattle.dx_instance.specs.Stored.{IsSorting, TableRows, widths};
ghost use Rattle.dx_keys.specs.Answers.{IsChased, IsChaseFault};
ghost use Rattle.dx_keys.specs.Numbers.{AnswersBy, NumberRoots, IsNumbered, IsNumberedInstance, null_map_of};

use crate::answers::Chased;
use crate::clashes::read_clash;
use crate::fault::ChaseFault;
use crate::keyless::{has_no_determinations, unchanged};
use crate::numbering::{Numbering, number};
use crate::reading::{read_image, read_map};
use crate::tables::number_tables;
use dx_base::Items;
use dx_chase::{NumberTable, RowsChased, chase_rows};
use dx_instance::Instance;
use dx_schema::Schema;
use std::alloc::{AllocError, Global};

// What the roots of numbers say of an instance: what becomes of its nulls, and of it.
fn read_chased(alloc: Global, numbering: Numbering, roots: &[u32]) -> Result<Chased, AllocError>
    requires ascend { ValuesAscend numbering.symbols }
    requires roots { NumberRoots numbering.symbols roots.now }
    requires fit { PartsFit numbering.symbols numbering.tables.items }
    ensures map { IfOk result (λ c. pairs_of c.map ≡ null_map_of numbering.symbols roots.now) }
    ensures image { IfOk result (λ c. IsSorting (shown_tables numbering.symbols
        (map (renumbered roots.now) numbering.tables.items)) c.instance) }
{
    let Numbering {
        symbols,
        constants: _,
        tables,
    } = numbering;
    let map = read_map(alloc, &symbols, roots)?;
    let instance = read_image(alloc, symbols, roots, tables)?;
    Ok(Chased { instance, map })
}

// What each number becomes. What was demanded goes.
fn roots_of(found: RowsChased<'_, '_>) -> Items<u32>
    ensures { result ≡ found.entry.chased.roots }
{
    let chased = found.chased;
    chased.roots
}

// What the numbers of the values of an instance become, by its rows of these; or the clash.
fn chase_numbered(
    alloc: Global,
    numbering: &Numbering,
    rows: &[NumberTable<'_>],
) -> Result<Items<u32>, ChaseFault>
    requires { (schema : Forest) × (I : List TableRows) × IsNumberedInstance schema I numbering.now rows.now }
    ensures roots { IfOk result (NumberRoots numbering.now.symbols) }
    ensures ok { (schema : Forest) (I : List TableRows) → IsNumberedInstance schema I numbering.now rows.now
        → IfOk result (λ roots. AnswersBy (model_tables schema) I numbering.now roots) }
    ensures fault { (schema : Forest) (I : List TableRows) → IsNumberedInstance schema I numbering.now rows.now
        → IfErr result (IsChaseFault (model_tables schema) I) }
{
    let count = numbering.symbols.len() as u32;
    let found = chase_rows(alloc, rows, count, numbering.constants)?;
    match found.chased.clash {
        Some(place) => {
            let clash = read_clash(alloc, &numbering.symbols, rows, &found, place)?;
            Err(ChaseFault::Clash(clash))
        }
        None => Ok(roots_of(found)),
    }
}

// What the numbers of the values of an instance become. What is demanded of the rows is needed no more after it.
fn chase_by(alloc: Global, schema: &Schema, numbering: &Numbering) -> Result<Items<u32>, ChaseFault>
    requires { (I : List TableRows) × IsNumbered schema.now I numbering.now }
    ensures roots { IfOk result (NumberRoots numbering.now.symbols) }
    ensures ok { (I : List TableRows) → IsNumbered schema.now I numbering.now
        → IfOk result (λ roots. AnswersBy (model_tables schema.now) I numbering.now roots) }
    ensures fault { (I : List TableRows) → IsNumbered schema.now I numbering.now → IfErr result (IsChaseFault (model_tables schema.now) I) }
{
    let rows = number_tables(alloc, schema, &numbering.tables)?;
    chase_numbered(alloc, numbering, &rows)
}

// The chase by the numbers of values.
fn chase_numbers(alloc: Global, instance: Instance, schema: &Schema) -> Result<Chased, ChaseFault>
    requires { widths instance ≡ schema_widths schema.now }
    ensures ok { IfOk result (IsChased (model_tables schema.now) instance) }
    ensures fault { IfErr result (IsChaseFault (model_tables schema.now) instance) }
{
    // The calls tell what holds of the tables of each instance, and of those of each schema.
    prove!((instance.tables() as u64) < 1 << 32);
    prove!((schema.tables() as u64) < 1 << 32);
    let numbering = number(alloc, instance)?;
    let roots = chase_by(alloc, schema, &numbering)?;
    Ok(read_chased(alloc, numbering, roots.items())?)
}

/// Lets nulls of an instance become other values of it, as its keys ask: a null becomes the constant that it has to be equal
/// to, or else the least null.
///
/// # Errors
///
/// `Clash` exactly if no instance in which keys hold receives a homomorphism from the instance. `Memory` at any point.
pub fn chase(alloc: Global, instance: Instance, schema: &Schema) -> Result<Chased, ChaseFault>
    requires { widths instance ≡ schema_widths schema.now }
    ensures ok { IfOk result (IsChased (model_tables schema.now) instance) }
    ensures fault { IfErr result (IsChaseFault (model_tables schema.now) instance) }
{
    if !has_no_determinations(schema) {
        return chase_numbers(alloc, instance, schema);
    }
    // The call tells what holds of the tables of each instance.
    prove!((instance.tables() as u64) < 1 << 32);
    Ok(unchanged(alloc, instance)?)
}
