//! The files and the summary of an exchange, and those of answers, verdicts and comparisons.
//!
//! `print_files` makes the files: the text of the rules and that of their script in a mode (specs/Texts), the text of each target
//! table, what each null of the target stands for, and the fold (specs/Files, specs/Sheets), and, if they are asked for, a
//! document for each root of the target (specs/Nested). `print_texts` makes the first two alone.
//! `answers_file` makes the file of a query's answers (specs/Answers), `verdict_text` the line of a verdict (specs/Verdicts);
//! `print_comparison` makes the files of the instances that refute a direction of a comparison, and `compared_text` what is said of
//! it (specs/Comparisons).
//! `summary` makes the summary of files, a line for each, and `contents` gives their bytes in a row. A file is a name, bytes and a
//! count, so that files of other kinds join the list as they are.
#![tactic(auto)]

mod answers;
mod comparisons;
mod laws;
mod marks;
mod nested;
mod nulls;
mod printed;
mod printing;
mod records;
mod sheets;
mod summaries;
mod tables;
mod texts;
mod verdicts;

pub use answers::answers_file;
pub use comparisons::{compared_text, print_comparison};
pub use laws::{a_comparison_has_files, an_exchange_has_files, files_are_one, names_are_apart};
pub use nulls::nulls_of;
pub use printed::Printed;
pub use printing::{Output, print_files};
pub use summaries::{contents, into_files, summary};
pub use texts::print_texts;
pub use verdicts::verdict_text;
