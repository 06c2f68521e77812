// The numbers by which the values of a row are compared.
ghost use Rattle.std.specs.Prelude.{◌≡◌, IfOk, length};
ghost use Rattle.dx_base.specs.Members.{Each};
ghost use Rattle.dx_cover_fold.specs.Codes.{RowHasColumn, number_told, numbers_by};

use crate::number_at::NumberAt;
use smallvec::SmallVec;
use std::alloc::{AllocError, Global};

/// The number of a row at a planned place.
fn number_of(row: &[u32], at: NumberAt) -> u32
    requires { RowHasColumn (length row.now) at }
    ensures { result ≡ number_told row.now at }
{
    match at {
        NumberAt::Column(column) => row[column as usize],
        NumberAt::Fixed(number) => number,
    }
}

/// The numbers of a row that a plan tells.
pub(crate) fn numbers_said(
    alloc: Global,
    row: &[u32],
    plan: &[NumberAt],
) -> Result<SmallVec<u32, 6>, AllocError>
    requires { Each plan.now (RowHasColumn (length row.now)) }
    ensures { IfOk result (λ v. v.items ≡ numbers_by plan.now row.now) }
{
    let mut numbers = SmallVec::new(alloc);
    for at in plan {
        numbers.push(number_of(row, *at))?;
    }
    Ok(numbers)
}
