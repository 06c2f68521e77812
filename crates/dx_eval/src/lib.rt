//! What a run of a script makes.
//!
//! specs/Evaluating says what is made of the rows of a source (`IsMade`: the matches and the facts that the script means, within
//! a limit on the cells that are inserted for all matches) and when a script passes the limit (`ScriptPassesLimit`). `eval` makes
//! exactly that. The laws: two runs of a script agree, and what a script means is made within a limit, or passes it, and
//! never both.
//!
//! A match step is read as a premise with derived variables (`query`, specs/Query): cells that are to be equal have one variable
//! (`variables`). `dx_joins` finds its tuples as rows of numbers. Partners are looked up by the numbers in the columns that
//! tests compare (`keys`).
#![tactic(auto)]

mod fault;
mod finding;
mod inserting;
mod keeping;
mod keys;
mod laws;
mod made;
mod matching;
mod names;
mod query;
mod rule_tables;
mod run;
mod selection;
mod source;
mod variables;

pub use fault::EvalFault;
pub use laws::{made_or_passed, made_or_too_many, runs_agree, tables_of_meaning};
pub use made::Made;
pub use run::eval;
