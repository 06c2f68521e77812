// A conversion, as a list of conversions has it.
use dx_base::Text;

/// A conversion: its name, its code, and of how many texts it makes one.
#[derive(Drop)]
pub struct Conversion {
    pub name: Text,
    pub code: u32,
    pub arity: u32,
}
