// A conclusion on its way to its closing.
use dx_base::Items;
use dx_model::Atom;

/// A conclusion that grows: its atoms, and the number of the next existential variable.
#[derive(Drop)]
pub struct Growing {
    pub atoms: Items<Atom>,
    pub next: u32,
}
