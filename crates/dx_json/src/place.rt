// Where a list of objects stands.
use dx_base::Text;

/// The table of a list of objects, the `#up` of its rows if it is an inner set's, and its path.
#[derive(Drop)]
pub struct Place {
    pub table: u32,
    pub up: Option<Text>,
    pub path: Text,
}
