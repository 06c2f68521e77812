//! The tokens of a mapping text: words, numbers, strings and marks, with the first fault.
//!
//! `tokens` gives exactly the tokens of a text (specs/Lexing), or its first token fault with its place. `scan` gives the
//! tokens up to that fault, each with its text, and what was begun there (specs/Scan), for readers that judge tokens one
//! after the other. The laws: the two agree, parts of a text scan to their tokens, and quoted texts are read again.
#![tactic(auto)]

mod bytes;
mod faults;
mod laws;
mod pieces;
mod scanner;
mod tokenizer;

pub use bytes::{continues_word, is_blank_byte, is_digit_byte, starts_word};
pub use faults::{TextFault, TextKind};
pub use laws::{parts_are_scanned, scan_agrees_with_tokens, scan_is_of_the_text, texts_are_quoted};
pub use pieces::{Item, wide_item};
pub use scanner::{Lexeme, Scanned, Stop, scan, text_from};
pub use tokenizer::{Token, TokenKind, tokens};
