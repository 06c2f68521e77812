// What covers a place, by numbers.

/// A rule, the number of a used cell map to it, and a place of it.
#[derive(Clone, Copy)]
pub struct Found {
    pub rule: u32,
    pub map: u32,
    pub row: u32,
}
