// The matches of a rule, as the exported texts of each.
ghost use Rattle.std.specs.Prelude.{IfOk, MatchOption};
ghost use Rattle.dx_model.specs.Rules.{IsRows};
ghost use Rattle.dx_funcs.specs.Serving.{Serves, offered};
ghost use Rattle.dx_instance.specs.Numbers.{ValuesDiffer, Extends};
ghost use Rattle.dx_instance.specs.Shown.{shown_tables};
ghost use Rattle.dx_instance.specs.Stored.{facts, widths};
ghost use Rattle.dx_joins.specs.Shown.{MoreTuples};
ghost use Rattle.dx_tgd.specs.Asked.{IsMatchable};
ghost use Rattle.dx_tgd.specs.Found.{IsFoundRule, IsTuple};

use crate::found::one_in_order;
use crate::source::Source;
use crate::texts::places_of_rows;
use crate::variables::exported;
use dx_base::{Items, Text};
use dx_funcs::{Host, Meaning};
use dx_instance::{Instance, Rows, Symbols};
use dx_joins::shown_rows;
use dx_model::{Places, Rule};
use std::alloc::{AllocError, Global};

/// Rows of numbers that stand for the exported tuples of all matches of a rule. The texts of derived variables go last in
/// the symbols. None if there are more than `most` tuples.
///
/// # Errors
///
/// `AllocError` if there is no memory, a table of partial matches has more rows than have numbers, or the host answers it.
pub(crate) fn rule_rows<F: Fn(u32, &Items<Text>) -> Result<Text, AllocError>, M: Meaning>(
    alloc: Global,
    rule: &Rule,
    source: &Source<'_, '_, F, M>,
    symbols: &mut Symbols,
    most: u64,
) -> Result<Option<Rows>, AllocError>
    requires serves { Serves F.Fn M.apply source.now.host.now }
    requires rule { IsMatchable (offered source.now.host.now)
        (widths (shown_tables source.now.rows.now.symbols source.now.rows.now.tables)) rule.now }
    requires symbols { Extends source.now.rows.now.symbols symbols.old }
    ensures grows { Extends symbols.old symbols.new }
    ensures apart { ValuesDiffer symbols.new }
    ensures rows { IfOk result (λ o. MatchOption o
        (MoreTuples most
        (IsTuple M.apply (facts (shown_tables source.now.rows.now.symbols source.now.rows.now.tables)) rule.now))
        (IsFoundRule M.apply
        (facts (shown_tables source.now.rows.now.symbols source.now.rows.now.tables)) symbols.new rule.now)) }
{
    // The call tells that no value has two numbers.
    prove!(symbols.len() <= u32::MAX as u64);
    let columns = exported(alloc, rule)?;
    let premise = rule.premise.items();
    let derived = rule.derived.items();
    shown_rows(
        alloc,
        premise,
        derived,
        &columns,
        source.rows,
        symbols,
        source.host,
        most,
    )
}

/// The exported tuples of all matches of a rule, ascending, each once.
///
/// # Errors
///
/// `AllocError` if there is no memory, a table of partial matches has more rows than have numbers, or the host answers it.
pub fn match_rows<F: Fn(u32, &Items<Text>) -> Result<Text, AllocError>, M: Meaning>(
    alloc: Global,
    rule: &Rule,
    source: &Instance,
    host: &Host<F, M>,
) -> Result<Places, AllocError>
    requires serves { Serves F.Fn M.apply host.now }
    requires rule { IsMatchable (offered host.now) (widths source.now) rule.now }
    ensures { IfOk result (λ places. IsRows M.apply rule.now (facts source.now) places.tuples) }
{
    let numbers = source.numbers();
    let mut symbols = numbers.copy_symbols(alloc)?;
    let given = Source {
        rows: &numbers,
        host,
    };
    let found = rule_rows(alloc, rule, &given, &mut symbols, u64::MAX)?;
    match found {
        Some(rows) => {
            let (symbols, rows) = one_in_order(alloc, symbols, rows)?;
            places_of_rows(alloc, &rows, &symbols)
        }
        None => unreachable!(),
    }
}
