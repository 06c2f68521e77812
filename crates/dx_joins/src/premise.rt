// The join of a premise, pattern by pattern.
ghost use Rattle.std.specs.Prelude.{◌≡◌, ◌↔◌, ◌<◌, ◌≤◌, ◌+◌, ◌-◌, ◌^◌, ◌++◌, ◌∷◌, [], ℕ, IfOk, IfSome, OnOk, IsTrue, MatchOption, length};
ghost use Rattle.dx_base.specs.Members.{◌∈◌, ◌⊆◌, Distinct, Each};
ghost use Rattle.dx_joins.specs.Collecting.{RowsExactly, MoreThan};
ghost use Rattle.dx_joins.specs.Joining.{variables_of_patterns};
ghost use Rattle.dx_joins.specs.Planning.{AddsOnce, FewAmong, JoinableHere, CarriesOn, FitPattern, IsVariableNeeded, IsMatchRow};
ghost use Rattle.dx_joins.specs.Planning.{IsPartialTable, StepsTo, HasMatchRows};

use crate::collected::Collected;
use crate::join::Pairing;
use crate::marked::Marked;
use crate::pattern::Pattern;
use crate::plan::{Plan, copied, has, joined};
use dx_instance::Rows;
use std::alloc::{AllocError, Global};

/// Rows of numbers, and the variables that they are for.
#[derive(Drop)]
pub(crate) struct Partial {
    pub(crate) variables: Vec<u32>,
    pub(crate) rows: Rows,
}

/// Whether the variable stands in one of the patterns.
pub(crate) fn stands_in(x: u32, patterns: &[Pattern]) -> bool
    ensures { IsTrue result ↔ (x ∈ variables_of_patterns patterns.now) }
{
    patterns.iter().any(|pattern| has(&pattern.variables, x))
}

// Whether a later pattern has the variable, or it is wanted in the end.
fn is_needed(x: u32, later: &[Pattern], wanted: &[u32]) -> bool
    ensures { IsTrue result ↔ IsVariableNeeded later.now wanted.now x }
{
    if has(wanted, x) {
        return true;
    }
    stands_in(x, later)
}

// Adds a variable that is not there yet.
fn add_once(variables: &mut Vec<u32>, x: u32) -> Result<(), AllocError>
    ensures { OnOk result (AddsOnce variables.old.items variables.new.items x) }
{
    if has(variables, x) {
        return Ok(());
    }
    variables.push(x)?;
    Ok(())
}

/// The variables that are still needed, each once.
pub(crate) fn needed(
    alloc: Global,
    names: &[u32],
    later: &[Pattern],
    wanted: &[u32],
) -> Result<Vec<u32>, AllocError>
    ensures some { IfOk result (λ v. v.items ⊆ names.now) }
    ensures only { IfOk result (λ v. Each v.items (IsVariableNeeded later.now wanted.now)) }
    ensures all { IfOk result (λ v. (x : ℕ) → x ∈ names.now → IsVariableNeeded later.now wanted.now x → x ∈ v.items) }
    ensures once { IfOk result (λ v. Distinct v.items) }
    ensures few { IfOk result (λ v. length v.items ≤ length names.now) }
{
    let mut kept = Vec::new(alloc);
    for x in names {
        if is_needed(*x, later, wanted) {
            add_once(&mut kept, *x)?;
        }
    }
    Ok(kept)
}

// The rows that one pattern more makes of partial matches, for the variables that are kept. None if there are more
// than are wanted.
fn step(
    alloc: Global,
    partial: &Partial,
    pattern: &Pattern,
    kept: &[u32],
    marked: &Marked,
    most: u64,
) -> Result<Option<Rows>, AllocError>
    requires partial { IsPartialTable partial.now }
    requires kept { FewAmong (partial.now.variables.items ++ pattern.now.variables.items) kept.now }
    requires fits { FitPattern marked.now.source.now.tables pattern.now }
    ensures rows { IfOk result (λ o. MatchOption o
        (MoreThan most (StepsTo marked.now.source.now.tables marked.now.marks.now partial.now pattern.now kept.now))
        (RowsExactly (length kept.now) (StepsTo marked.now.source.now.tables marked.now.marks.now partial.now pattern.now kept.now))) }
    ensures within { IfOk result (λ o. IfSome o (λ r. length r.rows ≤ most)) }
{
    let plan = Plan::build(alloc, &partial.variables, &pattern.variables, kept)?;
    let room = marked.source.count(pattern.table);
    let mut out = Collected::new(alloc, kept.len() as u32, most, room);
    let pairing = Pairing {
        plan: &plan,
        marks: marked.marks,
        source: marked.source,
        table: pattern.table,
    };
    if pairing.join(alloc, &partial.rows, &mut out)? {
        return Ok(None);
    }
    out.finish()
}

// The partial matches with one pattern more. Variables that nobody needs any more are dropped.
fn next(
    alloc: Global,
    partial: &Partial,
    pattern: &Pattern,
    later: &[Pattern],
    wanted: &[u32],
    marked: &Marked,
) -> Result<Partial, AllocError>
    requires partial { IsPartialTable partial.now }
    requires few { length partial.now.variables.items + length pattern.now.variables.items < 2 ^ 32 }
    requires fits { FitPattern marked.now.source.now.tables pattern.now }
    ensures { IfOk result (CarriesOn marked.now.source.now.tables marked.now.marks.now pattern.now later.now wanted.now partial.now) }
{
    let names = joined(alloc, &partial.variables, &pattern.variables)?;
    let kept = needed(alloc, &names, later, wanted)?;
    match step(alloc, partial, pattern, &kept, marked, u64::MAX)? {
        Some(rows) => Ok(Partial {
            variables: kept,
            rows,
        }),
        None => unreachable!(),
    }
}

/// The partial match before the first pattern.
pub(crate) fn start(alloc: Global) -> Result<Partial, AllocError>
    ensures variables { IfOk result (λ p. p.variables.items ≡ []) }
    ensures rows { IfOk result (λ p. p.rows.rows ≡ [] ∷ []) }
    ensures width { IfOk result (λ p. p.rows.width ≡ 0) }
{
    let mut rows = Rows::new(alloc, 0);
    rows.push(&[])?;
    Ok(Partial {
        variables: Vec::new(alloc),
        rows,
    })
}

/// The numbers that the matches of a premise give to the variables, ascending and each row once. None if there are more
/// rows than are wanted.
///
/// # Errors
///
/// `AllocError` if there is no memory, or a table of partial matches has more rows than have numbers.
pub(crate) fn premise_rows(
    alloc: Global,
    patterns: &[Pattern],
    shown: &[u32],
    marked: &Marked,
    most: u64,
) -> Result<Option<Rows>, AllocError>
    requires some { ¬ (patterns.now ≡ []) }
    requires joinable { JoinableHere marked.now.source.now.tables patterns.now }
    requires shown { FewAmong (variables_of_patterns patterns.now) shown.now }
    ensures rows { IfOk result (λ o. MatchOption o
        (MoreThan most (IsMatchRow marked.now.source.now.tables marked.now.marks.now patterns.now shown.now))
        (λ r. HasMatchRows marked.now.source.now.tables marked.now.marks.now patterns.now shown.now r)) }
    ensures within { IfOk result (λ o. IfSome o (λ r. length r.rows ≤ most)) }
{
    let last = patterns.len() - 1;
    let mut partial = start(alloc)?;
    for i in 0..last {
        partial = next(
            alloc,
            &partial,
            &patterns[i],
            &patterns[i + 1..],
            shown,
            marked,
        )?;
    }
    step(alloc, &partial, &patterns[last], shown, marked, most)
}
