//! Scripts: lists of steps that make a target of a source, their meaning, and when they fit.
//!
//! specs/Meaning says what a script means on the rows of a source, by the members of its match tables and of the facts that
//! it makes; specs/Fits when it fits two schemas and a list of conversions; specs/Generated and specs/Rewritten which script
//! rules make. The laws: the match table of a rule's step is the rows of the rule, the plain script of rules means their
//! canonical instance and the rewritten one its uncovered part, both fit, and a script has one meaning at most. `fits` tests
//! without memory whether a script fits.
#![tactic(auto)]

mod before;
mod fitting;
mod form;
mod laws;
mod step_parts;

pub use fitting::fits;
pub use form::{CellRef, Equal, Out, Script, Select, Step, Test, Unless};
pub use laws::{
    generated_fit, match_table_is_rows, meaning_is_unique, plain_means_canonical,
    rewritten_means_uncovered, script_means_left,
};
