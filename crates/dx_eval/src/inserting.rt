// What insert steps make of the places that keep steps leave.
ghost use Rattle.std.specs.Prelude.{◌≡◌, ◌↔◌, ◌<◌, List, IfOk, OnOk, Bool, length, map};
ghost use Rattle.dx_base.specs.Members.{◌∈◌, Each};
ghost use Rattle.dx_base.specs.Texts.{Text as AnyText};
ghost use Rattle.dx_model.specs.declared.facts.Fact.{Fact as AnyFact};
ghost use Rattle.dx_schema.specs.Names.{table_names_of};
ghost use Rattle.dx_schema.specs.Tables.{schema_widths};
ghost use Rattle.dx_instance.specs.Numbers.{Extends};
ghost use Rattle.dx_instance.specs.Shown.{NumbersBelow, shown_row};
ghost use Rattle.dx_instance.specs.Stored.{facts, widths};
ghost use Rattle.dx_joins.specs.Shown.{AllTexts, texts_of};
ghost use Rattle.dx_tgd.specs.Gained.{GainsFacts};
ghost use Rattle.dx_tgd.specs.Planned.{StandsAs, built};
ghost use Rattle.dx_tgd.specs.Texts.{tuples_in};
ghost use Rattle.dx_script.specs.declared.form.Out.{Out as AnyOut};
ghost use Rattle.dx_script.specs.declared.form.Step.TheVariants.{InsertRows};
ghost use Rattle.dx_script.specs.Meaning.{IsInserted, inserted};
ghost use Rattle.dx_eval.specs.Inserting.{CellsFitTable, HasNoFacts, InsertStands, OutStands, StepsStand, facts_by, placed_fact};

use crate::keeping::stay_places;
use crate::names::table_number;
use crate::rule_tables::RuleTables;
use dx_base::no_number_left;
use dx_instance::{NullId, Rows, Value};
use dx_schema::Schema;
use dx_script::{Out, Step};
use dx_tgd::Builder;
use std::alloc::{AllocError, Global};

// A place of a rule's match table, and the row there.
#[derive(Clone, Copy)]
struct RulePlace<'a> {
    rule: u32,
    place: u32,
    row: &'a [u32],
}

// The number of what an insert puts into a column for a place.
fn number_of(out: &Out, at: &RulePlace<'_>, target: &mut Builder) -> Result<u32, AllocError>
    requires stands { OutStands (length at.now.row.now) out.now }
    requires texts { AllTexts target.old.symbols at.now.row.now }
    ensures number { IfOk result (λ n. StandsAs target.new.symbols n
        (inserted at.now.rule at.now.place (texts_of target.old.symbols at.now.row.now) out.now)) }
    ensures grows { Extends target.old.symbols target.new.symbols }
    ensures same { built target.new ≡ built target.old }
{
    match out {
        Out::Column(column) => Ok(at.row[*column as usize]),
        Out::Literal(text) => target.number(Value::Const(text.copy()?)),
        Out::Skolem(variable) => target.number(Value::Null(NullId {
            rule: at.rule,
            var: *variable,
            row: at.place,
        })),
    }
}

// Puts the numbers of what an insert makes of a place in the buffer.
fn fill(
    cells: &[Out],
    at: &RulePlace<'_>,
    buffer: &mut Vec<u32>,
    target: &mut Builder,
) -> Result<(), AllocError>
    requires stand { Each cells.now (OutStands (length at.now.row.now)) }
    requires texts { AllTexts target.old.symbols at.now.row.now }
    ensures below { OnOk result (NumbersBelow (length target.new.symbols) buffer.new.items) }
    ensures shown { OnOk result (shown_row target.new.symbols buffer.new.items
        ≡ map (inserted at.now.rule at.now.place (texts_of target.old.symbols at.now.row.now)) cells.now) }
    ensures grows { Extends target.old.symbols target.new.symbols }
    ensures same { built target.new ≡ built target.old }
{
    buffer.clear();
    for cell in cells {
        buffer.push(number_of(cell, at, target)?)?;
    }
    Ok(())
}

// Some places of a rule's match table.
#[derive(Clone, Copy)]
struct RulePlaces<'a> {
    rule: u32,
    rows: &'a Rows,
    places: &'a [u32],
    ghost within: { Each places.now (λ k. k < length rows.now.rows) },
}

// Adds what an insert step makes of these places.
fn insert_places(
    alloc: Global,
    cells: &[Out],
    table: u32,
    at: &RulePlaces<'_>,
    target: &mut Builder,
) -> Result<(), AllocError>
    requires cells { CellsFitTable (built target.old) table at.now.rows.now.width cells.now }
    requires texts { Each at.now.rows.now.rows (AllTexts target.old.symbols) }
    ensures grows { OnOk result (Extends target.old.symbols target.new.symbols) }
    ensures gained { OnOk result (GainsFacts (built target.old) (built target.new)
        (map (placed_fact table at.now.rule (map (texts_of target.old.symbols) at.now.rows.now.rows) cells.now) at.now.places.now)) }
{
    let mut buffer = Vec::new(alloc);
    for place in at.places {
        let one = RulePlace {
            rule: at.rule,
            place: *place,
            row: at.rows.row(*place),
        };
        fill(cells, &one, &mut buffer, target)?;
        let count = target.count(table);
        if count == u32::MAX {
            return Err(no_number_left(u64::from(count)));
        }
        target.add(table, &buffer)?;
    }
    Ok(())
}

// Adds what the insert steps of a rule make of these places.
fn insert_rule(
    alloc: Global,
    steps: &[Step],
    schema: &Schema,
    at: &RulePlaces<'_>,
    target: &mut Builder,
) -> Result<(), AllocError>
    requires stand { (table : AnyText) (kept : Bool) (cells : List AnyOut) → InsertRows table at.now.rule kept cells ∈ steps.now
        → InsertStands (table_names_of schema.now) at.now.rows.now.width table cells }
    requires texts { Each at.now.rows.now.rows (AllTexts target.old.symbols) }
    requires widths { widths (built target.old) ≡ schema_widths schema.now }
    ensures grows { OnOk result (Extends target.old.symbols target.new.symbols) }
    ensures gained { OnOk result (GainsFacts (built target.old) (built target.new)
        (facts_by (table_names_of schema.now) steps.now at.now.rule
        (map (texts_of target.old.symbols) at.now.rows.now.rows) at.now.places.now)) }
{
    for step in steps {
        if let Step::InsertRows {
            table,
            rule: number,
            cells,
            ..
        } = step
        {
            if *number == at.rule {
                let table = table_number(schema, table);
                insert_places(alloc, cells.items(), table, at, target)?;
            }
        }
    }
    Ok(())
}

/// Adds what the insert steps make of the places of all rules.
///
/// # Errors
///
/// `AllocError` if there is no memory, or numbers run out.
pub(crate) fn insert_all(
    alloc: Global,
    steps: &[Step],
    schema: &Schema,
    tables: &[Rows],
    target: &mut Builder,
) -> Result<(), AllocError>
    requires texts { Each tables.now (λ t. Each t.rows (AllTexts target.old.symbols)) }
    requires steps { StepsStand (table_names_of schema.now) steps.now tables.now }
    requires empty { HasNoFacts (schema_widths schema.now) (built target.old) }
    ensures widths { OnOk result (widths (built target.new) ≡ schema_widths schema.now) }
    ensures facts { OnOk result ((f : AnyFact) → (f ∈ facts (built target.new))
        ↔ IsInserted (table_names_of schema.now) steps.now (tuples_in target.old.symbols tables.now) f) }
{
    if tables.len() > u32::MAX as usize {
        return Err(no_number_left(tables.len() as u64));
    }
    for rule in 0..tables.len() {
        let own = RuleTables {
            rule: rule as u32,
            tables,
            symbols: target.symbols(),
        };
        let places = stay_places(alloc, steps, &own)?;
        let at = RulePlaces {
            rule: rule as u32,
            rows: &tables[rule],
            places: &places,
        };
        insert_rule(alloc, steps, schema, &at, target)?;
    }
    Ok(())
}
