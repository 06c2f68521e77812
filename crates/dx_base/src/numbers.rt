// Numbers of 32 bits that have run out.
ghost use Rattle.std.specs.Prelude.{◌≤◌};

use std::alloc::AllocError;

/// Want of memory for a thing whose number would be past 32 bits, as `count` things have one: to hold them takes more
/// than 4 GiB. No other place of the program answers want of memory by itself: each passes on what a call answered.
pub fn no_number_left(_count: u64) -> AllocError
    requires full { 4294967295 ≤ _count }
{
    AllocError
}
