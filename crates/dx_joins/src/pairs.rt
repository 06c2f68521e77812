// Pairs of rows.
ghost use Rattle.std.specs.Prelude.{◌≡◌, ◌↔◌, ◌<◌, ◌+◌, ◌++◌, OnOk, IsTrue, length, slice_index};
ghost use Rattle.dx_base.specs.Members.{Each};
ghost use Rattle.dx_instance.specs.Shown.{NumbersBelow};
ghost use Rattle.dx_joins.specs.Joining.{AllMarked};
ghost use Rattle.dx_joins.specs.Looking.{numbers_at_places};

use std::alloc::AllocError;

/// Whether each number of the row is marked.
pub(crate) fn are_marked(marks: &[bool], row: &[u32]) -> bool
    requires { NumbersBelow (length marks.now) row.now }
    ensures { IsTrue result ↔ AllMarked marks.now row.now }
{
    row.iter().all(|number| marks[*number as usize])
}

// The number at a place of two rows, one after the other.
fn number_at(left: &[u32], right: &[u32], place: usize) -> u32
    requires { place < length left.now + length right.now }
    ensures { result ≡ slice_index (left.now ++ right.now) place }
{
    if place < left.len() {
        left[place]
    } else {
        right[place - left.len()]
    }
}

/// Whether the numbers of the right row are those at these places.
pub(crate) fn agree(left: &[u32], right: &[u32], firsts: &[usize]) -> bool
    requires within { Each firsts.now (λ i. i < length left.now + length right.now) }
    requires many { length firsts.now ≡ length right.now }
    ensures { IsTrue result ↔ (numbers_at_places (left.now ++ right.now) firsts.now ≡ right.now) }
{
    firsts.iter().zip(right).all(|(place, number)| number_at(left, right, *place) == *number)
}

/// Puts the numbers at these places into the buffer.
pub(crate) fn gather(
    left: &[u32],
    right: &[u32],
    places: &[usize],
    buffer: &mut Vec<u32>,
) -> Result<(), AllocError>
    requires within { Each places.now (λ i. i < length left.now + length right.now) }
    ensures { OnOk result (buffer.new.items ≡ numbers_at_places (left.now ++ right.now) places.now) }
{
    buffer.clear();
    for place in places {
        buffer.push(number_at(left, right, *place))?;
    }
    Ok(())
}
