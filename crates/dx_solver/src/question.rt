// A question to the solver.
use crate::atom::PatternAtom;
use crate::taken::Taken;
use dx_instance::Numbers;

/// Rows, which of them are taken out, the atoms that are to become rows, and the variables whose numbers are known.
#[derive(Drop)]
pub(crate) struct Question<'a, 'n> {
    pub numbers: &'a Numbers<'n>,
    pub taken: &'a Taken,
    pub atoms: &'a [PatternAtom],
    pub known: &'a [Option<u32>],
}

/// How many numbers all lists together may have.
const ROOM: usize = 4_000_000;

impl Question<'_, '_> {
    /// How long the list of a variable may be that had none.
    pub(crate) fn longest(&self) -> usize {
        ROOM / self.known.len().max(1)
    }
}
