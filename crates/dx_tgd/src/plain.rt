// The canonical instance, by the plain way: the matches of each rule, and what its conclusion says of them.
ghost use Rattle.std.specs.Prelude.{◌≡◌, ◌<◌, ◌≤◌, ◌-◌, ◌^◌, ℕ, IfOk, IfErr};
ghost use Rattle.dx_base.specs.Members.{◌≈◌, Each};
ghost use Rattle.dx_base.specs.declared.file.Count.TheVariants.{TargetCells};
ghost use Rattle.dx_model.specs.Rules.{AreRows, canonical};
ghost use Rattle.dx_model.specs.Values.{RowsAscend};
ghost use Rattle.dx_schema.specs.Tables.{schema_widths};
ghost use Rattle.dx_funcs.specs.Serving.{Serves, offered};
ghost use Rattle.dx_instance.specs.Numbers.{ValuesDiffer, Extends};
ghost use Rattle.dx_instance.specs.Shown.{shown_tables};
ghost use Rattle.dx_instance.specs.Stored.{facts, rows_of, widths};
ghost use Rattle.dx_tgd.specs.declared.fault.CanonFault.TheVariants.{Limit as Refused};
ghost use Rattle.dx_tgd.specs.Asked.{IsMatchable, RulesFitWidths};
ghost use Rattle.dx_tgd.specs.Counting.{canonical_cells};
ghost use Rattle.dx_tgd.specs.Found.{AllRulesFound, IsCanonicalRefusal};
ghost use Rattle.dx_tgd.specs.Placed.{HasCell};
ghost use Rattle.dx_tgd.specs.Texts.{tuples_in};

use crate::building::canonical_of_rows;
use crate::counting::conclusion_cells;
use crate::fault::CanonFault;
use crate::found::Found;
use crate::made::Made;
use crate::matching::rule_rows;
use crate::rule_matches::RuleMatches;
use crate::source::Source;
use dx_base::{Count, Items, Limit, Text};
use dx_funcs::{Host, Meaning};
use dx_instance::{Instance, Symbols, Value};
use dx_model::{Cell, Rule};
use dx_schema::Schema;
use std::alloc::{AllocError, Global};

// The literals of a conclusion become symbols, so that nothing but nulls is new later.
fn intern_literals(rule: &Rule, symbols: &mut Symbols) -> Result<(), AllocError>
    requires { ValuesDiffer symbols.old }
    ensures grows { Extends symbols.old symbols.new }
    ensures apart { ValuesDiffer symbols.new }
{
    for atom in rule.conclusion.items() {
        intern_cells(atom.cells.items(), symbols)?;
    }
    Ok(())
}

// The literals among these cells become symbols.
fn intern_cells(cells: &[Cell], symbols: &mut Symbols) -> Result<(), AllocError>
    requires { ValuesDiffer symbols.old }
    ensures grows { Extends symbols.old symbols.new }
    ensures apart { ValuesDiffer symbols.new }
{
    for cell in cells {
        if let Cell::Lit(text) = cell {
            symbols.intern(Value::Const(text.copy()?))?;
        }
    }
    Ok(())
}

// The limit on canonical cells is passed.
fn passed(limit: u64) -> CanonFault
    ensures { result ≡ Refused (record { what = TargetCells; number = limit }) }
{
    CanonFault::Limit(Limit {
        what: Count::TargetCells,
        number: limit,
    })
}

// The matches of each rule, as rows of numbers. A rule may have as many as the limit leaves room for.
fn found_rules<F: Fn(u32, &Items<Text>) -> Result<Text, AllocError>, M: Meaning>(
    alloc: Global,
    rules: &[Rule],
    source: &Source<'_, '_, F, M>,
    limit: u64,
) -> Result<Found, CanonFault>
    requires serves { Serves F.Fn M.apply source.now.host.now }
    requires matchable { Each rules.now (IsMatchable (offered source.now.host.now)
        (widths (shown_tables source.now.rows.now.symbols source.now.rows.now.tables))) }
    requires cells { Each rules.now HasCell }
    ensures found { IfOk result (λ f. AllRulesFound M.apply
        (facts (shown_tables source.now.rows.now.symbols source.now.rows.now.tables)) f.symbols rules.now f.tables.items) }
    ensures within { IfOk result (λ f. canonical_cells rules.now (tuples_in f.symbols f.tables.items) ≤ limit) }
    ensures refused { IfErr result (IsCanonicalRefusal M.apply rules.now
        (facts (shown_tables source.now.rows.now.symbols source.now.rows.now.tables)) limit) }
{
    // The call tells that no value has two numbers.
    prove!((source.rows.len() as u64) < 1 << 32);
    let mut symbols = source.rows.copy_symbols(alloc)?;
    let mut tables = Vec::new(alloc);
    let mut left = limit;
    for rule in rules {
        let cells = conclusion_cells(rule);
        intern_literals(rule, &mut symbols)?;
        let found = rule_rows(alloc, rule, source, &mut symbols, left / cells)?;
        let Some(rows) = found else {
            return Err(passed(limit));
        };
        let used = rows.count() as u64 * cells;
        if used > left {
            return Err(passed(limit));
        }
        left -= used;
        tables.push(rows)?;
    }
    Ok(Found { symbols, tables })
}

/// The rows of each rule, and the canonical instance: exactly the facts that the conclusions say of them, in tables
/// whose rows ascend.
///
/// # Errors
///
/// `Limit` exactly if the canonical cells, counted for each match, are more than the limit. `Memory` at any point.
pub fn canonical_plain<F: Fn(u32, &Items<Text>) -> Result<Text, AllocError>, M: Meaning>(
    alloc: Global,
    rules: &[Rule],
    source: &Instance,
    host: &Host<F, M>,
    target: &Schema,
    limit: u64,
) -> Result<Made, CanonFault>
    requires serves { Serves F.Fn M.apply host.now }
    requires rules { RulesFitWidths (offered host.now) (widths source.now) (schema_widths target.now) rules.now }
    requires limit { limit < 2 ^ 32 - 1 }
    ensures matches { IfOk result (λ m. AreRows M.apply rules.now (facts source.now) m.matches) }
    ensures within { IfOk result (λ m. canonical_cells rules.now m.matches ≤ limit) }
    ensures facts { IfOk result (λ m. facts m.instance ≈ canonical 0 rules.now m.matches) }
    ensures widths { IfOk result (λ m. widths m.instance ≡ schema_widths target.now) }
    ensures ascend { IfOk result (λ m. (t : ℕ) → RowsAscend (rows_of m.instance t)) }
    ensures refused { IfErr result (IsCanonicalRefusal M.apply rules.now (facts source.now) limit) }
{
    let columns = target.widths(alloc)?;
    let numbers = source.numbers();
    let given = Source {
        rows: &numbers,
        host,
    };
    let found = found_rules(alloc, rules, &given, limit)?;
    let ordered = found.in_order(alloc)?;
    let symbols = ordered.symbols.copy(alloc)?;
    let instance = canonical_of_rows(alloc, rules, &ordered.tables, symbols, &columns)?;
    Ok(Made {
        instance,
        matches: RuleMatches::new(ordered.symbols, ordered.tables),
    })
}
