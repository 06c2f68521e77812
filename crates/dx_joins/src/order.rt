// The order in which patterns are joined.
ghost use Rattle.std.specs.Prelude.{◌≡◌, ◌<◌, ◌≤◌, [], IfOk, IfSome, IsPermutation, MatchOption, length};
ghost use Rattle.dx_base.specs.Members.{Each};
ghost use Rattle.dx_joins.specs.Collecting.{MoreThan};
ghost use Rattle.dx_joins.specs.Joining.{variables_of_patterns};
ghost use Rattle.dx_joins.specs.Planning.{FewAmong, JoinableHere, FitPattern, IsMatchRow, HasMatchRows};

use crate::known::Known;
use crate::marked::Marked;
use crate::parts::parts_rows;
use crate::pattern::Pattern;
use crate::uses::Uses;
use dx_instance::{Numbers, Rows};
use std::alloc::{AllocError, Global};

// What it costs to join a pattern next, by what weighs more first.
#[derive(Clone, Copy, PartialEq, PartialOrd)]
struct Cost {
    // Whether it shares no variable with those before it.
    apart: bool,
    // How many rows it may stand for: none more if its variables are all known, since then it drops rows alone.
    rows: u32,
    // How many variables more must be kept after it.
    growth: i64,
}

// What it costs to join the pattern next.
fn cost_of(pattern: &Pattern, known: &Known, uses: &Uses, source: &Numbers) -> Cost
    requires { FitPattern source.now.tables pattern.now }
{
    let covered = known.covers(pattern);
    Cost {
        apart: !covered && !known.meets(pattern),
        rows: if covered {
            0
        } else {
            source.count(pattern.table)
        },
        growth: uses.growth(pattern, known),
    }
}

// The place, from `first` on, of a pattern with the least cost.
fn cheapest(
    patterns: &[Pattern],
    first: usize,
    known: &Known,
    uses: &Uses,
    source: &Numbers,
) -> usize
    requires fit { Each patterns.now (FitPattern source.now.tables) }
    requires first { first < length patterns.now }
    ensures { result < length patterns.now }
{
    let mut best = first;
    let mut least = cost_of(&patterns[first], known, uses, source);
    for place in first + 1..patterns.len() {
        let next = cost_of(&patterns[place], known, uses, source);
        if next < least {
            least = next;
            best = place;
        }
    }
    best
}

// The same patterns: always one next whose variables are all known, or else one that shares a variable with those before
// it, if there is one, of the smallest table, and of tables of one size one after which the fewest variables must be kept.
fn in_order(
    alloc: Global,
    patterns: Vec<Pattern>,
    shown: &[u32],
    source: &Numbers,
) -> Result<Vec<Pattern>, AllocError>
    requires { Each patterns.items (FitPattern source.now.tables) }
    ensures { IfOk result (λ v. IsPermutation patterns.items v.items) }
{
    let mut patterns = patterns;
    let mut known = Known::none(alloc, &patterns)?;
    let mut uses = Uses::of(alloc, &patterns, shown)?;
    for place in 0..patterns.len() {
        let next = cheapest(&patterns, place, &known, &uses, source);
        patterns.swap(place, next);
        known.add(&patterns[place]);
        uses.done(&patterns[place]);
    }
    Ok(patterns)
}

/// The numbers that the matches of a premise give to the variables, ascending and each row once. None if there are more
/// rows than are wanted. The patterns are joined in an order in which as few rows as can be foreseen come of them.
///
/// # Errors
///
/// `AllocError` if there is no memory, or a table of partial matches has more rows than have numbers.
pub(crate) fn ordered_rows(
    alloc: Global,
    patterns: Vec<Pattern>,
    shown: &[u32],
    marked: &Marked,
    most: u64,
) -> Result<Option<Rows>, AllocError>
    requires some { ¬ (patterns.items ≡ []) }
    requires joinable { JoinableHere marked.now.source.now.tables patterns.items }
    requires shown { FewAmong (variables_of_patterns patterns.items) shown.now }
    ensures rows { IfOk result (λ o. MatchOption o
        (MoreThan most (IsMatchRow marked.now.source.now.tables marked.now.marks.now patterns.items shown.now))
        (λ r. HasMatchRows marked.now.source.now.tables marked.now.marks.now patterns.items shown.now r)) }
    ensures within { IfOk result (λ o. IfSome o (λ r. length r.rows ≤ most)) }
{
    let ordered = in_order(alloc, patterns, shown, marked.source)?;
    parts_rows(alloc, &ordered, shown, marked, most)
}
