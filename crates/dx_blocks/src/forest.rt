// Trees of numbers in a list that gives each number its parent; a root is its own parent.
ghost use Rattle.std.specs.Prelude.{◌≡◌, ◌<◌, IfOk, length};
ghost use Rattle.std.specs.List.{range_with_len};
ghost use Rattle.dx_blocks.specs.Forest.{SameTrees, Falls, IsFlat, IsTreeUnion, IsRootOf};

use std::alloc::{AllocError, Global};

/// Each number below `count` as a tree of its own.
///
/// # Errors
///
/// `AllocError` if there is no memory.
#[tactic(auto, using(crate::proofs::Trees::singles_more))]
pub fn singles(alloc: Global, count: usize) -> Result<Vec<usize>, AllocError>
    ensures { IfOk result (λ v. v.items ≡ range_with_len 0 count) }
{
    let mut parents = Vec::with_capacity(alloc, count)?;
    for number in 0..count {
        parents.push(number)?;
    }
    Ok(parents)
}

/// The root of the tree that a number stands in. On the way each number that is met gets its parent's parent as its
/// parent, so that later ways are shorter.
pub fn root(parents: &mut [usize], number: usize) -> usize
    requires falls { Falls parents.old }
    requires number { number < length parents.old }
    ensures trees { SameTrees parents.old parents.new }
    ensures root { IsRootOf parents.new number result }
{
    let mut found = number;
    'climbing: while parents[found] != found {
        parents[found] = parents[parents[found]];
        found = parents[found];
    }
    found
}

/// Makes one tree of those that two numbers stand in.
pub fn join(parents: &mut [usize], a: usize, b: usize)
    requires falls { Falls parents.old }
    requires a { a < length parents.old }
    requires b { b < length parents.old }
    ensures { IsTreeUnion parents.old parents.new a b }
{
    let x = root(parents, a);
    let y = root(parents, b);
    if x < y {
        parents[y] = x;
    } else {
        parents[x] = y;
    }
}

/// Makes each parent a root.
pub fn flatten(parents: &mut [usize])
    requires { Falls parents.old }
    ensures trees { SameTrees parents.old parents.new }
    ensures flat { IsFlat parents.new }
{
    for i in 0..parents.len() {
        parents[i] = parents[parents[i]];
    }
}
