// The match steps of rules.
ghost use Rattle.std.specs.Prelude.{◌≡◌, ◌<◌, ◌+◌, IfOk, List, length, map};
ghost use Rattle.dx_base.specs.Members.{Each};
ghost use Rattle.dx_model.specs.Rules.{exported as exported_of};
ghost use Rattle.dx_model.specs.Fitting.{IsRule, premise_variables};
ghost use Rattle.dx_model.specs.declared.rules.Atom.{Atom as AtomValue};
ghost use Rattle.dx_schema.specs.Tables.{model_tables, tables_of};
ghost use Rattle.dx_schema.specs.Names.{table_names_of};
ghost use Rattle.dx_funcs.specs.Offers.{IsListed};
ghost use Rattle.dx_funcs.specs.Serving.{offered};
ghost use Rattle.dx_script.specs.Names.{table_numbered};
ghost use Rattle.dx_script.specs.Generated.{Spot, match_step as match_of, select_of as select_for};
ghost use Rattle.dx_scriptgen.specs.Selecting.{IsSelectable, firsts_of};
ghost use Rattle.dx_scriptgen.specs.Steps.{HasMatchStep};

use crate::copies::{cells_at, copy_cell};
use crate::premise::Premise;
use dx_base::{Items, Text};
use dx_cover::exported;
use dx_funcs::{Host, Meaning};
use dx_model::{Atom, Rule};
use dx_schema::Schema;
use dx_script::{CellRef, Select, Step};
use std::alloc::{AllocError, Global};

/// What is selected for a variable, by the first cells of the premise's variables.
fn select_of<F: Fn(u32, &Items<Text>) -> Result<Text, AllocError>, M: Meaning>(
    alloc: Global,
    rule: &Rule,
    host: &Host<F, M>,
    firsts: &[CellRef],
    variable: u32,
) -> Result<Select, AllocError>
    requires firsts { length firsts.now ≡ premise_variables rule.now }
    requires known { variable < premise_variables rule.now + length rule.now.derived }
    requires calls { Each rule.now.derived (IsSelectable (offered host.now) (premise_variables rule.now)) }
    ensures { IfOk result (λ s. (all : List Spot) → firsts.now ≡ firsts_of all rule.now
        → s ≡ select_for (offered host.now) all rule.now variable) }
{
    if (variable as usize) < firsts.len() {
        return Ok(Select::Cell(copy_cell(&firsts[variable as usize])?));
    }
    let derived = &rule.derived.items()[variable as usize - firsts.len()];
    Ok(Select::Call {
        name: host.by_code(derived.code).name.copy()?,
        args: cells_at(alloc, firsts, derived.args.items())?,
    })
}

/// The names of the tables of atoms.
fn table_names(alloc: Global, source: &Schema, atoms: &[Atom]) -> Result<Items<Text>, AllocError>
    requires tables { Each atoms.now (λ a. a.table < length (tables_of source.now)) }
    ensures { IfOk result (λ names. names ≡ map (λ (a : AtomValue). (table_numbered (table_names_of source.now) a.table).name) atoms.now) }
{
    let mut names = Items::new(alloc);
    for atom in atoms {
        names.push(source.name(atom.table).copy()?)?;
    }
    Ok(names)
}

/// What is selected for the exported variables of a rule.
fn selects<F: Fn(u32, &Items<Text>) -> Result<Text, AllocError>, M: Meaning>(
    alloc: Global,
    rule: &Rule,
    host: &Host<F, M>,
    firsts: &[CellRef],
) -> Result<Items<Select>, AllocError>
    requires rule { IsRule rule.now }
    requires firsts { length firsts.now ≡ premise_variables rule.now }
    requires listed { Each rule.now.derived (λ e. IsListed (offered host.now) e.code (length e.args)) }
    ensures { IfOk result (λ ss. (all : List Spot) → firsts.now ≡ firsts_of all rule.now
        → ss ≡ map (select_for (offered host.now) all rule.now) (exported_of rule.now)) }
{
    let variables = exported(alloc, rule)?;
    let mut selects = Items::new(alloc);
    for variable in &variables {
        selects.push(select_of(alloc, rule, host, firsts, *variable)?)?;
    }
    Ok(selects)
}

/// The match step of a rule.
pub(crate) fn match_step<F: Fn(u32, &Items<Text>) -> Result<Text, AllocError>, M: Meaning>(
    alloc: Global,
    number: u32,
    rule: &Rule,
    source: &Schema,
    host: &Host<F, M>,
) -> Result<Step, AllocError>
    requires { HasMatchStep (model_tables source.now) (offered host.now) rule.now }
    ensures { IfOk result (λ s. s ≡ match_of (table_names_of source.now) (offered host.now) number rule.now) }
{
    let atoms = rule.premise.items();
    let premise = Premise::of_atoms(alloc, source, atoms)?;
    Ok(Step::MatchRows {
        rule: number,
        select: selects(alloc, rule, host, premise.firsts.items())?,
        sources: table_names(alloc, source, atoms)?,
        equal: premise.equal,
    })
}
