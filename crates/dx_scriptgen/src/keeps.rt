// The parts of keep steps: what a rule leaves to the rules before it.
ghost use Rattle.std.specs.Prelude.{◌≡◌, ◌<◌, ◌++◌, IfOk, OnOk, length, map};
ghost use Rattle.dx_base.specs.Members.{Each};
ghost use Rattle.dx_model.specs.Covers.{IsNoExistential, below, rule_at, used_maps};
ghost use Rattle.dx_model.specs.Fitting.{AgreeInWidths, IsRule, conclusions_of};
ghost use Rattle.dx_script.specs.Rewritten.{unless_of, unless_parts};
ghost use Rattle.dx_scriptgen.specs.Parts.{CoveringRules, test_for, tests_for};

use crate::inserts::position;
use dx_base::Items;
use dx_cover::{CellMap, Covers, exported};
use dx_model::{Cell, Rule};
use dx_script::{Test, Unless};
use std::alloc::{AllocError, Global};

/// The test that a column of its own has the text of a cell of the other rule, by that rule's exported variables.
fn test_of(own: u32, cell: &Cell, others: &[u32]) -> Result<Test, AllocError>
    requires known { IsNoExistential cell.now }
    requires few { length others.now < 4294967296 }
    ensures { IfOk result (λ t. t ≡ test_for others.now own cell.now) }
{
    match cell {
        Cell::Var(variable) => Ok(Test::Columns {
            other: position(others, *variable),
            own,
        }),
        Cell::Lit(text) => Ok(Test::Literal {
            own,
            text: text.copy()?,
        }),
        Cell::Ex(_) => unreachable!(),
    }
}

/// The tests of a cell map, by the exported variables of the rule that it leads to.
fn tests_of(alloc: Global, cells: &[Cell], others: &[u32]) -> Result<Items<Test>, AllocError>
    requires known { Each cells.now IsNoExistential }
    requires own { length cells.now < 4294967296 }
    requires few { length others.now < 4294967296 }
    ensures { IfOk result (λ ts. ts ≡ tests_for others.now cells.now) }
{
    let mut tests = Items::new(alloc);
    for own in 0..cells.len() {
        tests.push(test_of(own as u32, &cells[own], others)?)?;
    }
    Ok(tests)
}

/// Adds the parts that rule number i leaves to rule number j.
fn push_parts(
    alloc: Global,
    parts: &mut Items<Unless>,
    rules: &[Rule],
    covers: &Covers,
    i: u32,
    j: u32,
) -> Result<(), AllocError>
    requires known { CoveringRules rules.now covers.now }
    requires first { i < length rules.now }
    requires second { j < length rules.now }
    ensures { OnOk result (parts.new ≡ parts.old ++ map (unless_of rules.now i j) (used_maps (rule_at rules.now i) (rule_at rules.now j))) }
{
    let others = exported(alloc, &rules[j as usize])?;
    for map in covers.maps(i, j) {
        parts.push(Unless {
            rule: j,
            tests: tests_of(alloc, map.exported.items(), &others)?,
        })?;
    }
    Ok(())
}

/// The parts of rule number i: one for each rule before it and each used cell map to that rule, in order.
fn parts_of(
    alloc: Global,
    rules: &[Rule],
    covers: &Covers,
    i: u32,
) -> Result<Items<Unless>, AllocError>
    requires known { CoveringRules rules.now covers.now }
    requires first { i < length rules.now }
    requires few { length rules.now < 4294967296 }
    ensures { IfOk result (λ parts. parts ≡ unless_parts rules.now i) }
{
    let mut parts = Items::new(alloc);
    for j in 0..rules.len() {
        if covers.before(j as u32, i) {
            push_parts(alloc, &mut parts, rules, covers, i, j as u32)?;
        }
    }
    Ok(parts)
}

/// The parts of each rule.
pub(crate) fn all_parts(alloc: Global, rules: &[Rule]) -> Result<Vec<Items<Unless>>, AllocError>
    requires rules { Each rules.now IsRule }
    requires widths { AgreeInWidths (conclusions_of rules.now) }
    requires few { length rules.now < 4294967296 }
    ensures { IfOk result (λ parts. parts.items ≡ map (unless_parts rules.now) (below (length rules.now))) }
{
    let covers = Covers::compute(alloc, rules)?;
    let mut parts = Vec::new(alloc);
    for i in 0..rules.len() {
        parts.push(parts_of(alloc, rules, &covers, i as u32)?)?;
    }
    Ok(parts)
}
