//! The text of a rule: `rule emp(x0, x1), dept(x1) where x2 = pair(x0, x1) -> person(x2, y0);`
//!
//! `print_rule` prints a rule with the names that its schemas and its conversions have (specs/Printed), `print_rules` each
//! of many in a line of its own, and `push_string` a text as a string: each exactly the text of the definition. The law
//! `a_rule_is_one_line`: if no name and no literal has a line feed, neither has the text.
#![tactic(auto)]

mod atoms;
mod cells;
mod derived;
mod laws;
mod rule;
mod strings;

pub use laws::a_rule_is_one_line;
pub use rule::{print_rule, print_rules};
pub use strings::push_string;
