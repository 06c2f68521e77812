// The tokens of a script's text up to its first fault.
ghost use Rattle.std.specs.Prelude.{◌≡◌, IfOk, IsUtf8};
ghost use Rattle.dx_script_tokens.specs.Scan.{SaysUtf8, begun_at, between_quotes, mark_of, name_token, plain_token, script_scan_of, stop_at, script_stopped, text_token, token_of, undoubled, with_tokens};

use crate::kinds::{ScriptKind, mark};
use crate::numbers::numeral;
use crate::pieces::{Piece, Shape, next_piece};
use crate::words::word;
use dx_base::{Items, Text};
use dx_tokens::{TextKind, text_from};
use std::alloc::{AllocError, Global};

/// A token with what it says. A place counts the bytes before it.
#[derive(Drop)]
pub struct ScriptToken {
    pub place: u64,
    pub kind: ScriptKind,
    /// The number of a number, or of a word that is a letter and a number. Else 0.
    pub number: u32,
    /// The characters of a name, and of a text with each doubled quote made one. Else empty.
    pub text: Text,
}

/// The first fault of the tokens of a text.
#[derive(Drop)]
pub struct ScriptStop {
    pub place: u64,
    pub kind: TextKind,
    /// If a name or a text is faulty or cut: a token of this kind at its first byte.
    pub begun: Option<ScriptToken>,
}

/// The tokens of a text up to its first fault, and that fault.
#[derive(Drop)]
pub struct ScriptScan {
    pub tokens: Items<ScriptToken>,
    pub stop: Option<ScriptStop>,
}

// The bytes between the first and the last.
fn inside(bytes: &[u8]) -> &[u8]
    ensures { result.now ≡ between_quotes bytes.now }
{
    match bytes {
        [_, middle @ .., _] => middle,
        _ => &[],
    }
}

// The characters of a text, with each doubled quote made one.
fn undoubled(alloc: Global, bytes: &[u8]) -> Result<Vec<u8>, AllocError>
    ensures { IfOk result (λ found. found.items ≡ undoubled bytes.now) }
{
    let mut found = Vec::new(alloc);
    let mut rest = bytes;
    'bytes: while let Some((b, others)) = rest.split_first() {
        found.push(*b)?;
        rest = match others.split_first() {
            Some((_, after)) if *b == b'\'' => after,
            _ => others,
        };
    }
    Ok(found)
}

// A token without a text.
fn plain(
    alloc: Global,
    place: u64,
    kind: ScriptKind,
    number: u32,
) -> Result<ScriptToken, AllocError>
    ensures { IfOk result (λ t. t ≡ plain_token place kind number) }
{
    Ok(ScriptToken {
        place,
        kind,
        number,
        text: Text::from_str(alloc, "")?,
    })
}

// The name that bytes are.
fn name_token(alloc: Global, place: u64, bytes: &[u8]) -> Result<ScriptToken, AllocError>
    requires { IsUtf8 (between_quotes bytes.now) }
    ensures { IfOk result (λ t. t ≡ name_token place bytes.now) }
{
    Ok(ScriptToken {
        place,
        kind: ScriptKind::Name,
        number: 0,
        text: text_from(alloc, inside(bytes))?,
    })
}

// The text that bytes are.
fn text_token(alloc: Global, place: u64, bytes: &[u8]) -> Result<ScriptToken, AllocError>
    requires { IsUtf8 (undoubled (between_quotes bytes.now)) }
    ensures { IfOk result (λ t. t ≡ text_token place bytes.now) }
{
    let characters = undoubled(alloc, inside(bytes))?;
    Ok(ScriptToken {
        place,
        kind: ScriptKind::Text,
        number: 0,
        text: text_from(alloc, &characters)?,
    })
}

// Which mark a token is.
fn mark_kind(bytes: &[u8]) -> ScriptKind
    ensures { result ≡ mark_of bytes.now }
{
    match bytes.split_first() {
        Some((first, _)) => mark(*first),
        None => ScriptKind::Star,
    }
}

// The token that bytes at a place are.
fn token(alloc: Global, place: u64, shape: Shape, bytes: &[u8]) -> Result<ScriptToken, AllocError>
    requires { SaysUtf8 shape bytes.now }
    ensures { IfOk result (λ t. t ≡ token_of place shape bytes.now) }
{
    match shape {
        Shape::Word => {
            let (kind, number) = word(bytes);
            plain(alloc, place, kind, number)
        }
        Shape::Number => {
            let number = numeral(bytes).unwrap_or(0);
            plain(alloc, place, ScriptKind::Number, number)
        }
        Shape::Name => name_token(alloc, place, bytes),
        Shape::Text => text_token(alloc, place, bytes),
        Shape::Mark => plain(alloc, place, mark_kind(bytes), 0),
    }
}

// The name or text that a quotation mark begins.
fn begun(alloc: Global, place: u64, b: u8) -> Result<Option<ScriptToken>, AllocError>
    ensures { IfOk result (λ t. t ≡ begun_at place b) }
{
    match b {
        b'"' => Ok(Some(plain(alloc, place, ScriptKind::Name, 0)?)),
        b'\'' => Ok(Some(plain(alloc, place, ScriptKind::Text, 0)?)),
        _ => Ok(None),
    }
}

// Where a piece begins, and its first byte.
#[derive(Drop)]
struct Beginning {
    place: u64,
    byte: u8,
}

// These tokens, and the fault after them, in the piece with this beginning.
fn stopped_at(
    alloc: Global,
    tokens: Items<ScriptToken>,
    begin: Beginning,
    place: u64,
    kind: TextKind,
) -> Result<ScriptScan, AllocError>
    ensures { IfOk result (λ s. s ≡ with_tokens tokens (script_stopped (stop_at begin.place place kind begin.byte))) }
{
    Ok(ScriptScan {
        tokens,
        stop: Some(ScriptStop {
            place,
            kind,
            begun: begun(alloc, begin.place, begin.byte)?,
        }),
    })
}

/// The tokens of a script's text up to its first fault, each with what it says, and that fault.
///
/// # Errors
///
/// `AllocError` if there is no memory.
pub fn scan_script(alloc: Global, text: &[u8]) -> Result<ScriptScan, AllocError>
    ensures { IfOk result (λ s. s ≡ script_scan_of text.now) }
{
    let mut tokens = Items::new(alloc);
    let mut rest = text;
    let mut place = 0usize;
    'bytes: while let Some((b, others)) = rest.split_first() {
        match next_piece(*b, others) {
            Piece::Blank => {
                rest = others;
                place += 1;
            }
            Piece::Token(shape, len) => {
                let (bytes, after) = rest.split_at(len);
                tokens.push(token(alloc, place as u64, shape, bytes)?)?;
                rest = after;
                place += len;
            }
            Piece::Fault(offset) => {
                let begin = Beginning {
                    place: place as u64,
                    byte: *b,
                };
                let at = (place + offset) as u64;
                return stopped_at(alloc, tokens, begin, at, TextKind::Character);
            }
            Piece::Cut => {
                let begin = Beginning {
                    place: place as u64,
                    byte: *b,
                };
                let end = text.len() as u64;
                return stopped_at(alloc, tokens, begin, end, TextKind::Ended);
            }
        }
    }
    Ok(ScriptScan { tokens, stop: None })
}
