// How rows of partial matches and rows of a table are put together.
ghost use Rattle.std.specs.Prelude.{◌≡◌, ◌↔◌, ◌<◌, ◌++◌, IfOk, IsTrue, length, map};
ghost use Rattle.dx_base.specs.Members.{◌∈◌, ◌⊆◌, Distinct};
ghost use Rattle.dx_joins.specs.Planning.{IsJoinPlan, first_place};

use std::alloc::{AllocError, Global};

/// The variables of a table of partial matches, of a pattern, and of the rows that come of both. A place counts the
/// numbers of both rows, first those of the left one.
#[derive(Drop)]
pub(crate) struct Plan {
    pub(crate) left: Vec<u32>,
    pub(crate) right: Vec<u32>,
    pub(crate) kept: Vec<u32>,
    /// For each variable of the right its first place.
    pub(crate) firsts: Vec<usize>,
    /// The places of the variables that are kept.
    pub(crate) places: Vec<usize>,
    /// Places of the left row, and the columns of the right row that have the same variables.
    pub(crate) by_left: Vec<usize>,
    pub(crate) by_right: Vec<usize>,
}

/// Whether the number is listed.
pub(crate) fn has(numbers: &[u32], x: u32) -> bool
    ensures { IsTrue result ↔ (x ∈ numbers.now) }
{
    numbers.iter().any(|y| *y == x)
}

/// A copy of a list of numbers.
pub(crate) fn copied(alloc: Global, numbers: &[u32]) -> Result<Vec<u32>, AllocError>
    ensures { IfOk result (λ v. v.items ≡ numbers.now) }
{
    let mut copy = Vec::new(alloc);
    copy.extend_from_slice(numbers)?;
    Ok(copy)
}

/// Where x stands first.
pub(crate) fn place(names: &[u32], x: u32) -> usize
    requires { x ∈ names.now }
    ensures place { result ≡ first_place names.now x }
    ensures within { result < length names.now }
{
    for i in 0..names.len() {
        if names[i] == x {
            return i;
        }
    }
    unreachable!()
}

/// Where each of these stands first.
pub(crate) fn places(
    alloc: Global,
    names: &[u32],
    variables: &[u32],
) -> Result<Vec<usize>, AllocError>
    requires { variables.now ⊆ names.now }
    ensures { IfOk result (λ v. v.items ≡ map (first_place names.now) variables.now) }
{
    let mut places = Vec::new(alloc);
    for x in variables {
        places.push(place(names, *x))?;
    }
    Ok(places)
}

/// One list after the other.
pub(crate) fn joined(alloc: Global, left: &[u32], right: &[u32]) -> Result<Vec<u32>, AllocError>
    ensures { IfOk result (λ v. v.items ≡ left.now ++ right.now) }
{
    let mut names = copied(alloc, left)?;
    names.extend_from_slice(right)?;
    Ok(names)
}

impl Plan {
    /// The plan for these variables.
    ///
    /// # Errors
    ///
    /// `AllocError` if there is no memory.
    pub(crate) fn build(
        alloc: Global,
        left: &[u32],
        right: &[u32],
        kept: &[u32],
    ) -> Result<Plan, AllocError>
        requires once { Distinct left.now }
        requires known { kept.now ⊆ (left.now ++ right.now) }
        ensures plan { IfOk result IsJoinPlan }
        ensures left { IfOk result (λ p. p.left.items ≡ left.now) }
        ensures right { IfOk result (λ p. p.right.items ≡ right.now) }
        ensures kept { IfOk result (λ p. p.kept.items ≡ kept.now) }
    {
        let names = joined(alloc, left, right)?;
        let firsts = places(alloc, &names, right)?;
        let mut by_left = Vec::new(alloc);
        let mut by_right = Vec::new(alloc);
        for column in 0..firsts.len() {
            let first = firsts[column];
            if first < left.len() {
                by_left.push(first)?;
                by_right.push(column)?;
            }
        }
        Ok(Plan {
            left: copied(alloc, left)?,
            right: copied(alloc, right)?,
            kept: copied(alloc, kept)?,
            places: places(alloc, &names, kept)?,
            firsts,
            by_left,
            by_right,
        })
    }
}
