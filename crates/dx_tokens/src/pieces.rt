// What stands next in a text, or inside a string: a blank, a comment, a token, or a fault.
ghost use Rattle.std.specs.Prelude.{◌≡◌, ◌+◌, ◌<◌, ◌≤◌, ◌^◌, ◌==◌, not, length};
ghost use Rattle.dx_tokens.specs.Tokens.{run, is_digit, is_word_byte, wide_at, escape_at, item_at, string_from, slash_at, dash_at, piece_at, ItemWithin, PieceWithin};

use crate::TokenKind;
use crate::bytes::{
    continues_word, greatest_second, is_blank_byte, is_digit_byte, is_mark_byte, is_within,
    least_second, starts_word,
};

/// What stands next inside a string.
#[derive(Clone, Copy, PartialEq, Eq)]
pub enum Item {
    /// The quotation mark that ends the string.
    Quote,
    /// A character or an escape. The number is its length in bytes.
    Whole(usize),
    /// A byte that can't stand there. The number is its offset: how many bytes of the item stand before it.
    Bad(usize),
    /// The text ends inside the character or escape.
    Cut,
}

/// What stands next in a text.
#[derive(Clone, Copy, PartialEq, Eq)]
pub(crate) enum Piece {
    /// A blank or a comment. The number is its length in bytes.
    Blank(usize),
    /// A token of a kind. The number is its length in bytes.
    Token(TokenKind, usize),
    /// A byte that can't stand there. The number is its offset: how many bytes of the piece stand before it.
    Fault(usize),
    /// The text ends inside the piece.
    Cut,
}

/// A character of more than one byte, of which the first is `b`.
#[tactic(auto, unfolding(crate::specs::Tokens::wide_at))]
pub fn wide_item(b: u8, rest: &[u8]) -> Item
    ensures value { result ≡ wide_at b rest.now }
    ensures within { ItemWithin (1 + length rest.now) result }
{
    match rest {
        [] => {
            if is_within(0xC2, 0xF4, b) {
                Item::Cut
            } else {
                Item::Bad(0)
            }
        }
        [c, others @ ..] => {
            if !(is_within(0xC2, 0xF4, b) && is_within(least_second(b), greatest_second(b), *c)) {
                Item::Bad(0)
            } else if b < 0xE0 {
                Item::Whole(2)
            } else {
                match others {
                    [] => Item::Cut,
                    [d, last @ ..] => {
                        if !is_within(0x80, 0xBF, *d) {
                            Item::Bad(0)
                        } else if b < 0xF0 {
                            Item::Whole(3)
                        } else {
                            match last {
                                [] => Item::Cut,
                                [e, ..] => {
                                    if is_within(0x80, 0xBF, *e) {
                                        Item::Whole(4)
                                    } else {
                                        Item::Bad(0)
                                    }
                                }
                            }
                        }
                    }
                }
            }
        }
    }
}

fn escape_item(rest: &[u8]) -> Item
    ensures value { result ≡ escape_at rest.now }
    ensures within { ItemWithin (1 + length rest.now) result }
{
    match rest {
        [] => Item::Cut,
        [b'"' | b'\\', ..] => Item::Whole(2),
        [_, ..] => Item::Bad(1),
    }
}

#[tactic(auto, unfolding(crate::specs::Tokens::item_at))]
fn next_item(b: u8, rest: &[u8]) -> Item
    ensures value { result ≡ item_at b rest.now }
    ensures within { ItemWithin (1 + length rest.now) result }
{
    if b == b'"' {
        Item::Quote
    } else if b == b'\\' {
        escape_item(rest)
    } else if b < 32 {
        Item::Bad(0)
    } else if b < 128 {
        Item::Whole(1)
    } else {
        wide_item(b, rest)
    }
}

/// The string after a quotation mark.
fn string_piece(text: &[u8]) -> Piece
    requires { length text.now + 1 < 2 ^ 64 }
    ensures value { result ≡ string_from 0 1 text.now }
    ensures within { PieceWithin (1 + length text.now) result }
{
    let mut rest = text;
    let mut n = 1usize;
    'bytes: while let Some((b, others)) = rest.split_first() {
        match next_item(*b, others) {
            Item::Quote => return Piece::Token(TokenKind::Str, n + 1),
            Item::Whole(len) => {
                rest = rest.split_at(len).1;
                n += len;
            }
            Item::Bad(offset) => return Piece::Fault(n + offset),
            Item::Cut => return Piece::Cut,
        }
    }
    Piece::Cut
}

fn word_run(bytes: &[u8]) -> usize
    ensures value { result ≡ run is_word_byte bytes.now }
    ensures within { result ≤ length bytes.now }
{
    bytes.iter().take_while(|b| continues_word(**b)).count()
}

fn digit_run(bytes: &[u8]) -> usize
    ensures value { result ≡ run is_digit bytes.now }
    ensures within { result ≤ length bytes.now }
{
    bytes.iter().take_while(|b| is_digit_byte(**b)).count()
}

fn comment_run(bytes: &[u8]) -> usize
    ensures value { result ≡ run (λ b. not (b == 10)) bytes.now }
    ensures within { result ≤ length bytes.now }
{
    bytes.iter().take_while(|b| **b != b'\n').count()
}

fn slash_piece(rest: &[u8]) -> Piece
    requires { length rest.now + 1 < 2 ^ 64 }
    ensures value { result ≡ slash_at rest.now }
    ensures within { PieceWithin (1 + length rest.now) result }
{
    match rest {
        [] => Piece::Cut,
        [b'/', others @ ..] => { Piece::Blank(2 + comment_run(others)) }
        [_, ..] => Piece::Fault(0),
    }
}

fn dash_piece(rest: &[u8]) -> Piece
    ensures value { result ≡ dash_at rest.now }
    ensures within { PieceWithin (1 + length rest.now) result }
{
    match rest {
        [] => Piece::Cut,
        [b'>', ..] => Piece::Token(TokenKind::Mark, 2),
        [_, ..] => Piece::Fault(0),
    }
}

#[tactic(auto, unfolding(crate::specs::Tokens::piece_at))]
pub(crate) fn next_piece(b: u8, rest: &[u8]) -> Piece
    requires { length rest.now + 1 < 2 ^ 64 }
    ensures value { result ≡ piece_at b rest.now }
    ensures within { PieceWithin (1 + length rest.now) result }
{
    if is_blank_byte(b) {
        Piece::Blank(1)
    } else if starts_word(b) {
        Piece::Token(TokenKind::Word, 1 + word_run(rest))
    } else if is_digit_byte(b) {
        Piece::Token(TokenKind::Number, 1 + digit_run(rest))
    } else if is_mark_byte(b) {
        Piece::Token(TokenKind::Mark, 1)
    } else if b == b'"' {
        string_piece(rest)
    } else if b == b'/' {
        slash_piece(rest)
    } else if b == b'-' {
        dash_piece(rest)
    } else {
        Piece::Fault(0)
    }
}
