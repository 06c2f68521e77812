// Where the numbers of a row are found.

/// A number of a row: that in a column, or one that is the same for all rows.
#[derive(Clone, Copy)]
pub enum NumberAt {
    Column(u32),
    Fixed(u32),
}
