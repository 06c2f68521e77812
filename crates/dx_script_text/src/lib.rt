//! The text of scripts, read and printed.
//!
//! `read_script` is Ok exactly for the texts of the grammar (specs/Grammar), with the script that the text spells
//! (specs/Spelling), and else answers the first fault (specs/Texts). `print_script` gives exactly the text of a script
//! (specs/Print): each step with a line feed behind it; it is read again as the script, if that is printable
//! (specs/Printable). The laws: a text says one script or has one first fault and never both.
#![tactic(auto)]

mod creates;
mod inserts;
mod keeps;
mod laws;
mod matches;
mod print_inserts;
mod print_keeps;
mod print_matches;
mod print_names;
mod print_steps;
mod read;
mod tokens;

pub use laws::{a_script_is_spelled, a_text_says_one_thing};
pub use print_steps::print_script;
pub use read::read_script;
