// What a conclusion says at each place, planned once for a rule.

/// The number in a column of a fact: that in a column of the match, one number, or one for each place.
#[derive(Drop)]
pub(crate) enum PlannedCell {
    Column(usize),
    Fixed(u32),
    Nulls(Vec<u32>),
}

/// An atom of a conclusion: its table and its cells.
#[derive(Drop)]
pub(crate) struct PlannedAtom {
    pub(crate) table: u32,
    pub(crate) cells: Vec<PlannedCell>,
}

/// The places of a rule: the rule's number, the variables of its tuples, and how many places there are.
#[derive(Clone, Copy)]
pub(crate) struct NumberedPlaces<'a> {
    pub(crate) rule: u32,
    pub(crate) variables: &'a [u32],
    pub(crate) places: u32,
}
