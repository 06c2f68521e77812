// What a match step asks for.
use dx_base::Text;
use dx_script::{Equal, Select};

/// What a match step selects, from the tables of which names, and the cells that are to be equal.
#[derive(Clone, Copy)]
pub(crate) struct Selection<'a> {
    pub(crate) select: &'a [Select],
    pub(crate) sources: &'a [Text],
    pub(crate) equal: &'a [Equal],
}
