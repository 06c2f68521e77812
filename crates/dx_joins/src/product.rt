// Each row of a table of partial matches with each row of another.
ghost use Rattle.std.specs.Prelude.{◌≡◌, ◌<◌, ◌≤◌, ◌+◌, ◌^◌, IfOk, IfSome, MatchOption, length};
ghost use Rattle.dx_base.specs.Members.{Each};
ghost use Rattle.dx_joins.specs.Collecting.{RowsExactly, Collects, MoreThan};
ghost use Rattle.dx_joins.specs.Products.{Crosses, CrossesWith};

use crate::collected::Collected;
use crate::pairs::gather;
use dx_instance::Rows;
use std::alloc::{AllocError, Global};

// Collects what a row and each of the right rows have at these places. Answers whether there are more rows than are wanted.
fn cross_row(
    left: &[u32],
    rights: &Rows,
    places: &[usize],
    buffer: &mut Vec<u32>,
    out: &mut Collected,
) -> Result<bool, AllocError>
    requires within { Each places.now (λ i. i < length left.now + rights.now.width) }
    requires width { out.old.width ≡ length places.now }
    ensures { IfOk result (λ full. Collects full out.old out.new (CrossesWith rights.now.rows places.now left.now)) }
{
    for place in 0..rights.count() {
        gather(left, rights.row(place), places, buffer)?;
        if out.push(buffer)? {
            return Ok(true);
        }
    }
    Ok(false)
}

/// What a left row and a right row have at these places, for any two of them: the rows ascend, each once. None if there are
/// more than are wanted.
///
/// # Errors
///
/// `AllocError` if there is no memory, or there are more rows than have numbers.
pub(crate) fn cross(
    alloc: Global,
    lefts: &Rows,
    rights: &Rows,
    places: &[usize],
    most: u64,
) -> Result<Option<Rows>, AllocError>
    requires within { Each places.now (λ i. i < lefts.now.width + rights.now.width) }
    requires few { length places.now < 2 ^ 32 }
    ensures rows { IfOk result (λ o. MatchOption o
        (MoreThan most (Crosses lefts.now.rows rights.now.rows places.now))
        (RowsExactly (length places.now) (Crosses lefts.now.rows rights.now.rows places.now))) }
    ensures within { IfOk result (λ o. IfSome o (λ r. length r.rows ≤ most)) }
{
    let mut out = Collected::new(alloc, places.len() as u32, most, rights.count());
    let mut buffer = Vec::new(alloc);
    for place in 0..lefts.count() {
        if cross_row(lefts.row(place), rights, places, &mut buffer, &mut out)? {
            return Ok(None);
        }
    }
    out.finish()
}
