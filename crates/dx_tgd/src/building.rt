// The canonical instance of rows of numbers.
ghost use Rattle.std.specs.Prelude.{◌≡◌, ℕ, IfOk, OnOk, length, map};
ghost use Rattle.dx_base.specs.Members.{◌≈◌, Each};
ghost use Rattle.dx_model.specs.Values.{RowsAscend};
ghost use Rattle.dx_model.specs.Rules.{at_places, canonical};
ghost use Rattle.dx_instance.specs.Numbers.{Extends};
ghost use Rattle.dx_instance.specs.Stored.{facts, rows_of, widths};
ghost use Rattle.dx_joins.specs.Shown.{texts_of};
ghost use Rattle.dx_tgd.specs.Asked.{HaveRowsToBuild};
ghost use Rattle.dx_tgd.specs.Gained.{GainsFacts, HasRoomForRows};
ghost use Rattle.dx_tgd.specs.Placed.{FitsWidths};
ghost use Rattle.dx_tgd.specs.Texts.{FitRule, tuples_in};
ghost use Rattle.dx_tgd.specs.Planned.{CanStand, HasNumber, built, planned_number, planned_fact};

use crate::builder::Builder;
use crate::planned::{NumberedPlaces, PlannedAtom, PlannedCell};
use crate::variables::exported;
use dx_instance::{Instance, Rows, Symbols};
use dx_model::Rule;
use std::alloc::{AllocError, Global};

// The number of a planned cell at a place.
fn number_at(cell: &PlannedCell, row: &[u32], place: u32) -> u32
    requires { HasNumber row.now place cell.now }
    ensures { result ≡ planned_number row.now place cell.now }
{
    match cell {
        PlannedCell::Column(column) => row[*column],
        PlannedCell::Fixed(number) => *number,
        PlannedCell::Nulls(numbers) => numbers[place as usize],
    }
}

// Puts the numbers of planned cells in the buffer.
fn fill(
    cells: &[PlannedCell],
    row: &[u32],
    place: u32,
    buffer: &mut Vec<u32>,
) -> Result<(), AllocError>
    requires { Each cells.now (HasNumber row.now place) }
    ensures { OnOk result (buffer.new.items ≡ map (planned_number row.now place) cells.now) }
{
    buffer.clear();
    for cell in cells {
        buffer.push(number_at(cell, row, place))?;
    }
    Ok(())
}

// Adds what planned atoms say of a row at a place.
fn add_place(
    atoms: &[PlannedAtom],
    row: &[u32],
    place: u32,
    buffer: &mut Vec<u32>,
    target: &mut Builder,
) -> Result<(), AllocError>
    requires stand { Each atoms.now (CanStand (widths (built target.old)) (length target.old.symbols) row.now place) }
    requires room { HasRoomForRows (built target.old) (length atoms.now) }
    ensures symbols { OnOk result (target.new.symbols ≡ target.old.symbols) }
    ensures gained { OnOk result (GainsFacts (built target.old) (built target.new)
        (map (planned_fact target.old.symbols row.now place) atoms.now)) }
{
    for atom in atoms {
        fill(&atom.cells, row, place, buffer)?;
        target.add(atom.table, buffer)?;
    }
    Ok(())
}

// Adds what the conclusion of a rule says at each place.
fn add_rule(
    alloc: Global,
    rule: &Rule,
    number: u32,
    rows: &Rows,
    target: &mut Builder,
) -> Result<(), AllocError>
    requires tuples { FitRule target.old.symbols rule.now rows.now }
    requires fits { FitsWidths (widths (built target.old)) rule.now }
    requires room { HasRoomForRows (built target.old)
        (length (at_places number rule.now 0 (map (texts_of target.old.symbols) rows.now.rows))) }
    ensures grows { OnOk result (Extends target.old.symbols target.new.symbols) }
    ensures gained { OnOk result (GainsFacts (built target.old) (built target.new)
        (at_places number rule.now 0 (map (texts_of target.old.symbols) rows.now.rows))) }
{
    let variables = exported(alloc, rule)?;
    let at = NumberedPlaces {
        rule: number,
        variables: &variables,
        places: rows.count(),
    };
    let plan = target.plan(alloc, rule, &at)?;
    let mut buffer = Vec::new(alloc);
    for place in 0..rows.count() {
        add_place(&plan, rows.row(place), place, &mut buffer, target)?;
    }
    Ok(())
}

/// The canonical instance: for each rule and each of its places what the conclusion says there. A rule's places are rows of
/// numbers that stand for the texts of its exported variables. Its tables have as many columns as the list says.
///
/// # Errors
///
/// `AllocError` if there is no memory, or there are more values than have numbers.
pub fn canonical_of_rows(
    alloc: Global,
    rules: &[Rule],
    rows: &[Rows],
    symbols: Symbols,
    columns: &[u32],
) -> Result<Instance, AllocError>
    requires { HaveRowsToBuild columns.now rules.now symbols rows.now }
    ensures widths { IfOk result (λ I. widths I ≡ columns.now) }
    ensures facts { IfOk result (λ I. facts I ≈ canonical 0 rules.now (tuples_in symbols rows.now)) }
    ensures ascend { IfOk result (λ I. (t : ℕ) → RowsAscend (rows_of I t)) }
{
    let mut target = Builder::new(alloc, symbols, columns)?;
    for i in 0..rules.len() {
        add_rule(alloc, &rules[i], i as u32, &rows[i], &mut target)?;
    }
    target.finish(alloc)
}
