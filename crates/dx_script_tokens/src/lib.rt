//! The tokens of a script's text: words, numbers, names in double quotes, texts in single quotes and marks.
//!
//! `scan_script` gives exactly the tokens of a text up to its first token fault (specs/Scan), each with what it says:
//! which word or mark it is, its number, or its text. The law: these are the tokens that the text has, each as long as it
//! can be, and the fault is its first (specs/Lexing).
#![tactic(auto)]

mod kinds;
mod laws;
mod numbers;
mod pieces;
mod scanner;
mod words;

pub use kinds::ScriptKind;
pub use laws::scan_is_of_the_text;
pub use scanner::{ScriptScan, ScriptStop, ScriptToken, scan_script};
