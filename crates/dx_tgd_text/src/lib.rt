//! Hand-written rules: what their texts say, by the numbers of the sets, conversions and variables that they name.
//!
//! specs/Reading has the notions, which compute: the first word that is at fault, and the rule by numbers. A variable's number
//! is that of its first appearance in the premise, the derived variables follow in order, and every other name of the
//! conclusion is existential, numbered by its first appearance there (specs/Numbering). `read_rules` gives exactly these, for
//! the conversions that a host lists. Two laws: the rule of a text without a fault fits its schemas (`read_rules_fit`), and the
//! rules of a mapping text are as the grammar has them (`texts_have_whole_rules`).
#![tactic(auto)]

mod atoms;
mod derived;
mod laws;
mod names;
mod rules;

pub use atoms::{read_atoms, read_cells};
pub use laws::{read_rules_fit, texts_have_whole_rules};
pub use names::Names;
pub use rules::read_rules;
