// Atoms of a premise, by their variables.

/// A table, and the variable of each of its columns.
#[derive(Drop)]
pub struct Pattern {
    pub table: u32,
    pub variables: Vec<u32>,
}
