// An instance's numbers, of which some are marked.
ghost use Rattle.std.specs.Prelude.{◌≡◌, length};

use dx_instance::Numbers;

/// An instance by its numbers, and for each number whether it is marked. Rows count if all their numbers are.
#[derive(Clone, Copy)]
pub(crate) struct Marked<'a, 'n> {
    pub(crate) source: &'a Numbers<'n>,
    pub(crate) marks: &'a [bool],
    ghost each: { length marks.now ≡ length source.now.symbols },
}
