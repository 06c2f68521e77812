// A row test, as a list of row tests has it.
use dx_base::Text;

/// A row test: its name and its code.
#[derive(Drop)]
pub struct RowTest {
    pub name: Text,
    pub code: u32,
}
