//! Printed rules are read again, and those that `clio show` prints are accepted again.
//!
//! specs/ReadBack says when a text is read as a rule: all of it is tokens that spell a rule, nothing of it is at fault, and by
//! the numbers of what it names it is just this rule. The law `a_printed_rule_is_read`: the text that `print_rule` gives is
//! read as the rule that was printed, if the names of its sets and conversions are words and its literals can be in
//! strings. After a mapping text, the lines of `print_rules` are read as rules of that mapping (`printed_lines_are_read`);
//! of rules that a text says nothing more is asked (`rules_that_are_said_are_read_again`,
//! `rules_that_are_said_can_be_printed`). What a text is read as is one rule or one list of rules (`a_text_says_one_rule`),
//! with listed conversions alone (`rules_that_are_read_are_offered`).
//!
//! The law `shown_rules_are_read_again`: for each accepted mapping text, the lines of its rules, after the text or after a
//! text that says its sets alone, are read as just these rules; and the sets with these lines after them are accepted with
//! the same mapping, without its conditions (specs/Shown). Nothing is asked of names and literals, since those of such rules
//! come out of a text.
#![tactic(auto)]

mod laws;

pub use laws::{
    a_printed_rule_is_read, a_text_says_one_rule, printed_lines_are_read,
    rules_of_texts_can_be_written, rules_that_are_read_are_offered,
    rules_that_are_said_are_read_again, rules_that_are_said_can_be_printed,
    shown_rules_are_read_again,
};
