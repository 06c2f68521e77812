// What stands next in a text: a blank, a token, or a fault.
ghost use Rattle.std.specs.Prelude.{◌≡◌, ◌+◌, ◌<◌, ◌≤◌, ◌^◌, length};
ghost use Rattle.dx_tokens.specs.Tokens.{run, is_word_byte, ItemWithin};
ghost use Rattle.dx_script_tokens.specs.Pieces.{ScriptPieceWithin, name_at, name_end, script_piece_at, quote_at, text_from, text_item};

use crate::kinds::is_mark_byte;
use crate::numbers::number;
use dx_tokens::{Item, continues_word, is_blank_byte, is_digit_byte, starts_word, wide_item};

/// The form of a token.
#[derive(Clone, Copy)]
pub(crate) enum Shape {
    Word,
    Number,
    Name,
    Text,
    Mark,
}

/// What stands next in a text.
#[derive(Clone, Copy)]
pub(crate) enum Piece {
    /// A blank.
    Blank,
    /// A token of a form. The number is its length in bytes.
    Token(Shape, usize),
    /// A byte that can't stand there. The number is its offset: how many bytes of the piece stand before it.
    Fault(usize),
    /// The text ends inside the piece.
    Cut,
}

fn word_run(bytes: &[u8]) -> usize
    ensures value { result ≡ run is_word_byte bytes.now }
    ensures within { result ≤ length bytes.now }
{
    bytes.iter().take_while(|b| continues_word(**b)).count()
}

// What stands after the characters of a name, of which `n` bytes are read.
fn name_rest(n: usize, rest: &[u8]) -> Piece
    requires { n + length rest.now < 2 ^ 64 }
    ensures value { result ≡ name_end n rest.now }
    ensures within { ScriptPieceWithin (n + length rest.now) result }
{
    match rest {
        [] => Piece::Cut,
        [b'"', ..] => Piece::Token(Shape::Name, n + 1),
        [_, ..] => Piece::Fault(n),
    }
}

// The name after a double quote.
fn name_piece(rest: &[u8]) -> Piece
    requires { length rest.now + 1 < 2 ^ 64 }
    ensures value { result ≡ name_at rest.now }
    ensures within { ScriptPieceWithin (1 + length rest.now) result }
{
    let Some((first, others)) = rest.split_first() else {
        return Piece::Cut;
    };
    if *first == b'#' || continues_word(*first) {
        let len = word_run(others);
        name_rest(2 + len, others.split_at(len).1)
    } else {
        Piece::Fault(1)
    }
}

// What stands after a single quote inside a text.
fn quote_item(rest: &[u8]) -> Item
    ensures value { result ≡ quote_at rest.now }
    ensures within { ItemWithin (1 + length rest.now) result }
{
    match rest {
        [b'\'', ..] => Item::Whole(2),
        _ => Item::Quote,
    }
}

#[tactic(auto, unfolding(crate::specs::Pieces::text_item))]
fn next_item(b: u8, rest: &[u8]) -> Item
    ensures value { result ≡ text_item b rest.now }
    ensures within { ItemWithin (1 + length rest.now) result }
{
    if b == b'\'' {
        quote_item(rest)
    } else if b < 128 {
        Item::Whole(1)
    } else {
        wide_item(b, rest)
    }
}

// The text after a single quote.
fn text_piece(text: &[u8]) -> Piece
    requires { length text.now + 1 < 2 ^ 64 }
    ensures value { result ≡ text_from 0 1 text.now }
    ensures within { ScriptPieceWithin (1 + length text.now) result }
{
    let mut rest = text;
    let mut n = 1usize;
    'bytes: while let Some((b, others)) = rest.split_first() {
        match next_item(*b, others) {
            Item::Quote => return Piece::Token(Shape::Text, n + 1),
            Item::Whole(len) => {
                rest = rest.split_at(len).1;
                n += len;
            }
            Item::Bad(offset) => return Piece::Fault(n + offset),
            Item::Cut => return Piece::Cut,
        }
    }
    Piece::Cut
}

/// What stands next, if a byte is followed by others.
#[tactic(auto, unfolding(crate::specs::Pieces::script_piece_at))]
pub(crate) fn next_piece(b: u8, rest: &[u8]) -> Piece
    requires { length rest.now + 1 < 2 ^ 64 }
    ensures value { result ≡ script_piece_at b rest.now }
    ensures within { ScriptPieceWithin (1 + length rest.now) result }
{
    if is_blank_byte(b) {
        Piece::Blank
    } else if starts_word(b) {
        Piece::Token(Shape::Word, 1 + word_run(rest))
    } else if is_digit_byte(b) {
        Piece::Token(Shape::Number, number(b, rest).0)
    } else if is_mark_byte(b) {
        Piece::Token(Shape::Mark, 1)
    } else if b == b'"' {
        name_piece(rest)
    } else if b == b'\'' {
        text_piece(rest)
    } else {
        Piece::Fault(0)
    }
}
