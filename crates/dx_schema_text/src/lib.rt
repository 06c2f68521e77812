//! Mapping texts: the grammar, what a text says, its first fault with its place, and sets printed back.
//!
//! `read_mapping` is Ok exactly for the texts of the grammar (specs/Grammar), with the mapping that the text spells
//! (specs/Spelling), and else answers the first fault (specs/Texts). `print_trees` gives exactly the text of sets
//! (specs/Print). The laws: a text says one mapping or has one first fault and never both, and what a text says can be
//! printed and is read again.
#![tactic(auto)]

mod clauses;
mod laws;
mod lexemes;
mod lines;
mod mapping;
mod print;
mod read;
mod rules;
mod texts;

pub use dx_schema::{KeyDecl, RefDecl, SetTree, Trees};
pub use dx_tokens::{TextFault, TextKind, Token, TokenKind, tokens};
pub use laws::{
    a_text_says_one_thing, texts_are_spelled, texts_have_few_rules, too_deep_are_sets,
    what_is_said_is_of_its_version, what_is_said_is_writable,
};
pub use lexemes::{after_keyword, after_mark, after_number, keyword, next_is_keyword};
pub use print::{print_trees, push_names};
pub use read::{judged, read_mapping};
pub use rules::{atoms, cells};
pub use texts::{
    AtomText, CellText, DerivedText, LineText, MappingText, OnlyText, PlaceText, RuleText,
    SourceText,
};
