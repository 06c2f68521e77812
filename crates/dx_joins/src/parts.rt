// Patterns in parts that share no variable. Each part is joined by itself, and the rows of all of them are put together.
ghost use Rattle.std.specs.Prelude.{◌≡◌, ◌<◌, ◌≤◌, ◌^◌, ◌++◌, ◌∷◌, [], Some, IfOk, IfSome, MatchOption, length};
ghost use Rattle.dx_joins.specs.Collecting.{MoreThan};
ghost use Rattle.dx_joins.specs.Joining.{variables_of_patterns};
ghost use Rattle.dx_joins.specs.Planning.{FewAmong, JoinableHere, IsMatchRow, HasMatchRows};
ghost use Rattle.dx_joins.specs.Products.{IsPartOf, IsProduct, IsWide, PartGrows, StandsApart};

use crate::apart::are_apart;
use crate::marked::Marked;
use crate::pattern::Pattern;
use crate::plan::{joined, places};
use crate::premise::{needed, premise_rows, start};
use crate::product::cross;
use dx_instance::Rows;
use std::alloc::{AllocError, Global};

/// What patterns give to some of their variables: rows, or None if there are more of them than are wanted.
#[derive(Drop)]
pub(crate) struct Part {
    pub(crate) variables: Vec<u32>,
    pub(crate) rows: Option<Rows>,
}

// What no patterns give to no variables: one row.
fn no_part(alloc: Global) -> Result<Part, AllocError>
    ensures variables { IfOk result (λ p. p.variables.items ≡ []) }
    ensures rows { IfOk result (λ p. p.rows ≡ Some (record { width = 0; rows = [] ∷ [] })) }
{
    let none = start(alloc)?;
    Ok(Part {
        variables: none.variables,
        rows: Some(none.rows),
    })
}

// The patterns' part.
fn part_of(
    alloc: Global,
    patterns: &[Pattern],
    shown: &[u32],
    marked: &Marked,
    most: u64,
) -> Result<Part, AllocError>
    requires some { ¬ (patterns.now ≡ []) }
    requires joinable { JoinableHere marked.now.source.now.tables patterns.now }
    requires wide { length shown.now < 2 ^ 32 }
    ensures { IfOk result (IsPartOf marked.now.source.now.tables marked.now.marks.now most patterns.now shown.now) }
{
    let variables = needed(alloc, shown, patterns, &[])?;
    let rows = premise_rows(alloc, patterns, &variables, marked, most)?;
    Ok(Part { variables, rows })
}

// What comes of rows and of more rows than are wanted: none if there are no rows, or else more than are wanted.
fn beside_many(alloc: Global, rows: &Rows, width: u32) -> Option<Rows>
    ensures { MatchOption result (¬ (rows.now.rows ≡ [])) (λ r. (rows.now.rows ≡ []) × (r ≡ record { width = width; rows = [] })) }
{
    if rows.count() == 0 {
        return Some(Rows::new(alloc, width));
    }
    None
}

// The rows that two parts together give to variables. None if there are more than are wanted.
fn product(
    alloc: Global,
    left: &Part,
    right: &Part,
    kept: &[u32],
    most: u64,
) -> Result<Option<Rows>, AllocError>
    requires left { IsWide left.now }
    requires right { IsWide right.now }
    requires kept { FewAmong (left.now.variables.items ++ right.now.variables.items) kept.now }
    ensures rows { IfOk result (IsProduct most left.now right.now kept.now) }
    ensures within { IfOk result (λ o. IfSome o (λ r. length r.rows ≤ most)) }
{
    let names = joined(alloc, &left.variables, &right.variables)?;
    let places = places(alloc, &names, kept)?;
    let width = kept.len() as u32;
    match &left.rows {
        Some(lefts) => match &right.rows {
            Some(rights) => cross(alloc, lefts, rights, &places, most),
            None => Ok(beside_many(alloc, lefts, width)),
        },
        None => match &right.rows {
            Some(rights) => Ok(beside_many(alloc, rights, width)),
            None => Ok(None),
        },
    }
}

// The part that the patterns make with those of another part, which have none of their variables.
fn with_part(
    alloc: Global,
    whole: &Part,
    patterns: &[Pattern],
    shown: &[u32],
    marked: &Marked,
    most: u64,
) -> Result<Part, AllocError>
    requires whole { StandsApart patterns.now shown.now whole.now }
    requires some { ¬ (patterns.now ≡ []) }
    requires joinable { JoinableHere marked.now.source.now.tables patterns.now }
    ensures { IfOk result (PartGrows marked.now.source.now.tables marked.now.marks.now most patterns.now shown.now whole.now) }
{
    let part = part_of(alloc, patterns, shown, marked, most)?;
    let variables = joined(alloc, &whole.variables, &part.variables)?;
    let rows = product(alloc, whole, &part, &variables, most)?;
    Ok(Part { variables, rows })
}

/// The numbers that the matches of a premise give to the variables, ascending and each row once. None if there are more
/// rows than are wanted. Patterns that share no variable with those after them are joined by themselves.
///
/// # Errors
///
/// `AllocError` if there is no memory, or a table of partial matches has more rows than have numbers.
pub(crate) fn parts_rows(
    alloc: Global,
    patterns: &[Pattern],
    shown: &[u32],
    marked: &Marked,
    most: u64,
) -> Result<Option<Rows>, AllocError>
    requires some { ¬ (patterns.now ≡ []) }
    requires joinable { JoinableHere marked.now.source.now.tables patterns.now }
    requires shown { FewAmong (variables_of_patterns patterns.now) shown.now }
    ensures rows { IfOk result (λ o. MatchOption o
        (MoreThan most (IsMatchRow marked.now.source.now.tables marked.now.marks.now patterns.now shown.now))
        (λ r. HasMatchRows marked.now.source.now.tables marked.now.marks.now patterns.now shown.now r)) }
    ensures within { IfOk result (λ o. IfSome o (λ r. length r.rows ≤ most)) }
{
    let mut whole = no_part(alloc)?;
    let mut done = 0;
    for end in 1..patterns.len() {
        if are_apart(&patterns[done..end], &patterns[end..]) {
            whole = with_part(alloc, &whole, &patterns[done..end], shown, marked, most)?;
            done = end;
        }
    }
    if done == 0 {
        return premise_rows(alloc, patterns, shown, marked, most);
    }
    let last = part_of(alloc, &patterns[done..], shown, marked, most)?;
    product(alloc, &whole, &last, shown, most)
}
