use crate::rules::Cell;
use dx_base::Items;

/// A cell of one row, and the cell of another row that stands in its column.
#[derive(Drop)]
pub struct Meeting {
    pub cell: Cell,
    pub met: Cell,
}

/// The images of the exported and of the existential variables of a rule in another, ascending.
#[derive(Drop)]
pub struct CellMap {
    pub exported: Items<Cell>,
    pub existential: Items<Cell>,
}

/// What covers a place: a rule, a cell map to it, and a place of it.
#[derive(Drop)]
pub struct Cover {
    pub rule: u32,
    pub cells: CellMap,
    pub row: u32,
}
