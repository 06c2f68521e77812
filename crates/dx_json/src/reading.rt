// The tree of a document's bytes.
ghost use Rattle.std.specs.Prelude.{◌≡◌, ◌<◌, ◌≤◌, ◌∷◌, length, None, Some, IfOk, IfErr, OnOk, Err, IsUtf8};
ghost use Rattle.json.specs.Reads.{token_of};
ghost use Rattle.dx_json.specs.Documents.{without_mark};
ghost use Rattle.dx_json.specs.Reads.{items_read, members_read, value_read};
ghost use Rattle.dx_json.specs.View.{items_view, members_view, view};

use crate::fault::{JsonFault, JsonKind};
use crate::numbers::number_of;
use crate::tree::Json;
use json::{Invalid, Reader, Token};
use std::alloc::{AllocError, AllocFailed, Global};
use std::collections::BTreeMap;

/// How deep arrays and objects may nest.
pub const MAX_DEPTH: usize = 127;

/// Why a text gave no tree.
#[derive(Clone, Copy, PartialEq, Eq)]
pub enum Unread {
    NotJson,
    Memory,
}

impl From<Invalid> for Unread {
    ghost use Rattle.std.specs.Prelude.{◌≡◌};
    ghost use Rattle.dx_json.specs.declared.reading.Unread.TheVariants.{NotJson};

    ghost from_gives = { λ _ e. e ≡ NotJson };

    fn from(_: Invalid) -> Self {
        Unread::NotJson
    }
}

impl From<AllocError> for Unread {
    ghost use Rattle.std.specs.Prelude.{◌≡◌};
    ghost use Rattle.dx_json.specs.declared.reading.Unread.TheVariants.{Memory};

    ghost from_gives = { λ _ e. e ≡ Memory };

    fn from(_: AllocError) -> Self {
        Unread::Memory
    }
}

impl<T: Drop> From<AllocFailed<T>> for Unread {
    ghost use Rattle.std.specs.Prelude.{◌≡◌};
    ghost use Rattle.dx_json.specs.declared.reading.Unread.TheVariants.{Memory};

    ghost from_gives = { λ _ e. e ≡ Memory };

    fn from(_: AllocFailed<T>) -> Self {
        Unread::Memory
    }
}

/// The text of the bytes, which may begin with a byte order mark.
pub fn text_of(bytes: &[u8]) -> Result<&str, JsonFault>
    ensures ok { IfOk result (λ t. (t.now ≡ without_mark bytes.now) × IsUtf8 (without_mark bytes.now)) }
    ensures fault { IfErr result (λ e. (e ≡ JsonFault.Bad JsonKind.NotJson) × ¬ (IsUtf8 (without_mark bytes.now))) }
{
    let rest = match bytes {
        [0xEF, 0xBB, 0xBF, rest @ ..] => rest,
        _ => bytes,
    };
    match str::from_utf8(rest) {
        Ok(text) => Ok(text),
        Err(_) => Err(JsonFault::Bad(JsonKind::NotJson)),
    }
}

/// The next value.
#[cycle(read)]
pub fn read<'a>(alloc: Global, reader: &mut Reader<'a>, depth: usize) -> Result<Json<'a>, Unread>
    ensures ok { IfOk result (λ v. value_read depth reader.old ≡ Some (view v, reader.new)) }
    ensures shorter { OnOk result (length reader.new < length reader.old) }
    ensures refused { result ≡ Err Unread.NotJson → value_read depth reader.old ≡ None }
{
    let token = reader.next().ok_or(Unread::NotJson)?;
    read_from(alloc, token, reader, depth)
}

/// The value that begins with this token.
#[cycle(read)]
pub fn read_from<'a>(
    alloc: Global,
    token: Token<'a>,
    reader: &mut Reader<'a>,
    depth: usize,
) -> Result<Json<'a>, Unread>
    ensures ok { IfOk result (λ v. value_read depth (token_of token.entry ∷ reader.old) ≡ Some (view v, reader.new)) }
    ensures shorter { OnOk result (length reader.new ≤ length reader.old) }
    ensures refused { result ≡ Err Unread.NotJson → value_read depth (token_of token.entry ∷ reader.old) ≡ None }
{
    match token {
        Token::String(text) => Ok(Json::String(text)),
        Token::Number(text) => match number_of(text) {
            Some(number) => Ok(Json::Number(number)),
            None => Err(Unread::NotJson),
        },
        Token::Bool(b) => Ok(Json::Bool(b)),
        Token::Null => Ok(Json::Null),
        Token::EndObject | Token::EndArray | Token::Key(_) | Token::Bad => Err(Unread::NotJson),
        Token::BeginArray => {
            if depth == 0 {
                return Err(Unread::NotJson);
            }
            Ok(Json::Array(read_items(alloc, reader, depth - 1)?))
        }
        Token::BeginObject => {
            if depth == 0 {
                return Err(Unread::NotJson);
            }
            Ok(Json::Object(read_members(alloc, reader, depth - 1)?))
        }
    }
}

// The items of an array, up to its end.
#[cycle(read)]
fn read_items<'a>(
    alloc: Global,
    reader: &mut Reader<'a>,
    depth: usize,
) -> Result<Vec<Json<'a>>, Unread>
    ensures ok { IfOk result (λ v. items_read depth reader.old ≡ Some (items_view v.items, reader.new)) }
    ensures shorter { OnOk result (length reader.new < length reader.old) }
    ensures refused { result ≡ Err Unread.NotJson → items_read depth reader.old ≡ None }
{
    let mut found = Vec::new(alloc);
    'items: while !reader.take_end_array() {
        let item = read(alloc, reader, depth)?;
        found.push(item)?;
    }
    Ok(found)
}

// The members of an object, up to its end: of those with one name the last.
#[cycle(read)]
fn read_members<'a>(
    alloc: Global,
    reader: &mut Reader<'a>,
    depth: usize,
) -> Result<Vec<(&'a str, Json<'a>)>, Unread>
    ensures ok { IfOk result (λ v. members_read depth reader.old ≡ Some (members_view v.items, reader.new)) }
    ensures shorter { OnOk result (length reader.new < length reader.old) }
    ensures refused { result ≡ Err Unread.NotJson → members_read depth reader.old ≡ None }
{
    let mut found = BTreeMap::new(alloc);
    'members: while let Some(name) = reader.next_key()? {
        let member = read(alloc, reader, depth)?;
        drop(found.insert(name, member)?);
    }
    Ok(in_a_row(alloc, found)?)
}

// The members one after the other, in as much memory as they need.
fn in_a_row<'a>(
    alloc: Global,
    found: BTreeMap<&'a str, Json<'a>>,
) -> Result<Vec<(&'a str, Json<'a>)>, AllocError>
    ensures { IfOk result (λ v. v.items ≡ found.entry.entries) }
{
    let mut members = Vec::with_capacity(alloc, found.len())?;
    for member in found {
        members.push(member)?;
    }
    Ok(members)
}
