// What the key chase of an instance answers.
use dx_base::Items;
use dx_instance::{Instance, NullMap};
use dx_model::{NullPair, Row};

/// The null becomes the value, in the whole instance.
pub type KeyStep = NullPair;

/// Two facts that agree on a key, `left` the lesser, and have two different constants in a column. They stand in what the
/// steps make of the instance.
#[derive(Debug, Drop)]
pub struct Clash {
    pub steps: Items<KeyStep>,
    pub table: u32,
    pub key: u32,
    pub left: Row,
    pub right: Row,
    pub column: u32,
}

/// What keys make of an instance, and what becomes of each null.
#[derive(Drop)]
pub struct Chased {
    pub instance: Instance,
    pub map: NullMap,
}
