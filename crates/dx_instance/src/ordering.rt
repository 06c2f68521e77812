// Values put in order, their texts in one buffer.
ghost use Rattle.std.specs.Prelude.{◌≡◌, ◌≤◌, ◌-◌, ◌<◌, ◌^◌, IfOk, IfSome, IsUtf8, OnOk, length, map, slice_index, string_bytes, take, drop, ◌++◌};
ghost use Rattle.std.specs.Int.{to_be_bytes, w64};
ghost use Rattle.dx_base.specs.Members.{Each};
ghost use Rattle.dx_model.specs.declared.values.Value.TheVariants.{Const};
ghost use Rattle.dx_instance.specs.Keys.{AllSmall, IsKeyIn, IsSmallSecond, IsSmallValue, NumbersAreKeyed, ValuesAreKeyed, packed, places_of, second_key, value_key};
ghost use Rattle.dx_instance.specs.Numbers.{IsOrdering, value_of};
ghost use Rattle.dx_instance.specs.Ranks.{DistinctRanks, EndsOfTexts, ShortLengths, IsShortLength, LiesInBuffer, joined_texts, text_of_value};

use crate::hints::hints_of;
use crate::layer::Layer;
use crate::symbols::Symbols;
use crate::ties::Ties;
use crate::values::Values;
use dx_base::Text;
use dx_model::{Value, copy_value};
use std::alloc::{AllocError, Global};
use std::rc::Rc;

/// Distinct values in order, and the place of each number that they had before.
#[derive(Drop)]
pub struct Ordered {
    pub symbols: Symbols,
    pub ranks: Vec<u32>,
}

// The byte at a place of a text, and 0 if the text is shorter.
fn byte_or_zero(text: &[u8], place: usize) -> u8
    ensures { result ≡ slice_index text.now place }
{
    if place < text.len() { text[place] } else { 0 }
}

// A number that compares as the first eight bytes of a text.
fn first_bytes(text: &[u8]) -> u64
    ensures key { result ≡ packed 256 8 0 text.now }
    ensures small { AllSmall 256 8 text.now }
{
    let mut key = 0u64;
    for i in 0..8usize {
        key = key * 256 + byte_or_zero(text, i) as u64;
    }
    key
}

/// A number that compares as the first eight bytes of a value's text. Nulls come last.
pub(crate) fn key_of(value: &Value) -> u64
    ensures key { result ≡ value_key value.now }
    ensures small { IsSmallValue value.now }
{
    match value {
        Value::Const(text) => first_bytes(text.bytes()),
        Value::Null(_) => u64::MAX,
    }
}

// A number that compares as the bytes of a text from the ninth to the sixteenth.
fn second_bytes(text: &[u8]) -> u64
    ensures key { result ≡ packed 256 8 0 (drop 8 text.now) }
    ensures small { AllSmall 256 8 (drop 8 text.now) }
{
    if text.len() > 8 {
        first_bytes(&text[8..])
    } else {
        0
    }
}

// A second number for the values of one key: it compares as the next eight bytes of their texts.
pub(crate) fn second_key_of(value: &Value) -> u64
    ensures key { result ≡ second_key value.now }
    ensures small { IsSmallSecond value.now }
{
    match value {
        Value::Const(text) => second_bytes(text.bytes()),
        Value::Null(_) => u64::MAX,
    }
}

// How many bytes the text of a value has, and 9 if it has more than eight or there is none.
fn short_length(value: &Value) -> u8
    ensures { IsShortLength value.now result }
{
    match value {
        Value::Const(text) => {
            let length = text.bytes().len();
            if length <= 8 { length as u8 } else { 9 }
        }
        Value::Null(_) => 9,
    }
}

// Each number, with a key that compares as the first bytes of its value, and the lengths of all texts, as far as they are
// short. Both are read in one walk, since the texts may lie far apart.
fn keyed_numbers(alloc: Global, symbols: &Values) -> Result<(Vec<(u64, u32)>, Vec<u8>), AllocError>
    ensures keyed { IfOk result (λ r. ValuesAreKeyed symbols.now r.0.items (length symbols.now)) }
    ensures lengths { IfOk result (λ r. ShortLengths symbols.now r.1.items (length symbols.now)) }
    ensures few { length symbols.now < 2 ^ 32 }
{
    let count = symbols.len();
    let mut keys = Vec::with_capacity(alloc, count as usize)?;
    let mut lengths = Vec::with_capacity(alloc, count as usize)?;
    for number in 0..count {
        let value = symbols.value(number);
        keys.push((key_of(value), number as u32))?;
        lengths.push(short_length(value))?;
    }
    Ok((keys, lengths))
}

// The keys of the distinct values in order, and the place of each number's value among them.
fn distinct_in_order(
    alloc: Global,
    symbols: &Values,
    lengths: &[u8],
    keys: Vec<(u64, u32)>,
) -> Result<(Vec<(u64, u32)>, Vec<u32>), AllocError>
    requires few { length symbols.now < 2 ^ 32 }
    requires keyed { ValuesAreKeyed symbols.now keys.items (length symbols.now) }
    requires lengths { ShortLengths symbols.now lengths.now (length symbols.now) }
    ensures { IfOk result (λ r. DistinctRanks symbols.now r.0.items r.1.items) }
{
    let ties = Ties::new(alloc, symbols, lengths)?;
    let keys = ties.in_order(keys);
    ties.firsts_of(alloc, &keys)
}

// Puts the first bytes of a key at the end of a buffer, as many as the length says.
fn push_short(buffer: &mut Vec<u8>, key: u64, length: usize) -> Result<(), AllocError>
    requires { length ≤ 8 }
    ensures { OnOk result (buffer.new.items ≡ buffer.old.items ++ take length (to_be_bytes w64 key)) }
{
    let bytes = key.to_be_bytes();
    buffer.extend_from_slice(&bytes[..length])
}

// Puts the text of the value under a number at the end of a buffer. A short one is taken from its key, and the value is not
// looked at: if values lie in another order, to come to them takes most of the time.
fn push_text(
    buffer: &mut Vec<u8>,
    symbols: &Values,
    number: u32,
    key: u64,
    size: u8,
) -> Result<(), AllocError>
    requires key { IsKeyIn symbols.now (key, number) }
    requires size { IsShortLength (value_of symbols.now number) size }
    ensures { OnOk result (buffer.new.items ≡ buffer.old.items ++ text_of_value (value_of symbols.now number)) }
{
    if size <= 8 {
        return push_short(buffer, key, size as usize);
    }
    match symbols.value(number as u64) {
        Value::Const(text) => buffer.extend_from_slice(text.bytes()),
        Value::Null(_) => Ok(()),
    }
}

// How many bytes the texts have together, each counted as nine at most.
fn room_for(lengths: &[u8]) -> usize {
    let mut room = 0usize;
    for length in lengths {
        room = room.saturating_add(usize::from(*length));
    }
    room
}

// The bytes of the texts of the values under these numbers, one after the other, and where each text ends. None if they are 2^32
// bytes or more.
fn texts_in_order(
    alloc: Global,
    symbols: &Values,
    keys: &[(u64, u32)],
    lengths: &[u8],
) -> Result<Option<(Vec<u8>, Vec<u32>)>, AllocError>
    requires below { Each (places_of keys.now) (λ n. n < length symbols.now) }
    requires keyed { NumbersAreKeyed symbols.now keys.now }
    requires lengths { ShortLengths symbols.now lengths.now (length symbols.now) }
    ensures texts { IfOk result (λ o. IfSome o (λ t. t.0.items ≡ joined_texts (map (value_of symbols.now) (places_of keys.now)))) }
    ensures ends { IfOk result (λ o. IfSome o (λ t. EndsOfTexts symbols.now keys.now t.1.items (length keys.now))) }
{
    let mut buffer = Vec::with_capacity(alloc, room_for(lengths))?;
    let mut ends = Vec::with_capacity(alloc, keys.len())?;
    for key in keys {
        let size = lengths[key.1 as usize];
        push_text(&mut buffer, symbols, key.1, key.0, size)?;
        let Ok(end) = u32::try_from(buffer.len()) else {
            return Ok(None);
        };
        ends.push(end)?;
    }
    Ok(Some((buffer, ends)))
}

// The constant whose text lies in the buffer.
fn constant_in(buffer: &Rc<String>, start: u32, end: u32) -> Result<Value, AllocError>
    requires order { start ≤ end }
    requires within { end ≤ length (string_bytes buffer.now.value) }
    requires utf8 { IsUtf8 (take (end - start) (drop start (string_bytes buffer.now.value))) }
    ensures { IfOk result (λ v. v ≡ Const (take (end - start) (drop start (string_bytes buffer.now.value)))) }
{
    let text = Text::part(buffer, start, end)?;
    Ok(Value::Const(text))
}

// The value under a number, its text in the buffer. The old value is looked at only if it has no bytes: it may be a null.
fn value_in(
    symbols: &Values,
    number: u32,
    buffer: &Rc<String>,
    start: u32,
    end: u32,
) -> Result<Value, AllocError>
    requires below { number < length symbols.now }
    requires lies { LiesInBuffer (string_bytes buffer.now.value) start end (text_of_value (value_of symbols.now number)) }
    ensures { IfOk result (λ v. v ≡ value_of symbols.now number) }
{
    if start < end {
        return constant_in(buffer, start, end);
    }
    match symbols.value(number as u64) {
        Value::Const(_) => constant_in(buffer, start, end),
        Value::Null(null) => Ok(Value::Null(*null)),
    }
}

// The values under these numbers, their texts in this buffer, where they end at these places.
fn values_in(
    alloc: Global,
    symbols: &Values,
    keys: &[(u64, u32)],
    buffer: &Rc<String>,
    ends: &[u32],
) -> Result<Vec<Value>, AllocError>
    requires below { Each (places_of keys.now) (λ n. n < length symbols.now) }
    requires texts { string_bytes buffer.now.value ≡ joined_texts (map (value_of symbols.now) (places_of keys.now)) }
    requires ends { EndsOfTexts symbols.now keys.now ends.now (length keys.now) }
    ensures { IfOk result (λ values. values.items ≡ map (value_of symbols.now) (places_of keys.now)) }
{
    let mut values = Vec::with_capacity(alloc, keys.len())?;
    let mut start = 0u32;
    for i in 0..keys.len() {
        let end = ends[i];
        values.push(value_in(symbols, keys[i].1, buffer, start, end)?)?;
        start = end;
    }
    Ok(values)
}

// Copies of the values under these numbers.
fn copies_in_order(
    alloc: Global,
    symbols: &Values,
    keys: &[(u64, u32)],
) -> Result<Vec<Value>, AllocError>
    requires { Each (places_of keys.now) (λ n. n < length symbols.now) }
    ensures { IfOk result (λ values. values.items ≡ map (value_of symbols.now) (places_of keys.now)) }
{
    let mut values = Vec::with_capacity(alloc, keys.len())?;
    for key in keys {
        values.push(copy_value(symbols.value(key.1 as u64))?)?;
    }
    Ok(values)
}

// The bytes of texts as a buffer that its parts share.
fn shared(alloc: Global, bytes: Vec<u8>) -> Result<Rc<String>, AllocError>
    requires { IsUtf8 bytes.items }
    ensures { IfOk result (λ buffer. string_bytes buffer.value ≡ bytes.items) }
{
    let Ok(texts) = String::from_utf8(bytes) else {
        unreachable!();
    };
    let buffer = Rc::new(alloc, texts)?;
    Ok(buffer)
}

// The values under these numbers. Their texts lie in one new buffer in this order, if they have fewer than 2^32 bytes
// together.
fn values_in_order(
    alloc: Global,
    symbols: &Values,
    keys: &[(u64, u32)],
    lengths: &[u8],
) -> Result<Vec<Value>, AllocError>
    requires below { Each (places_of keys.now) (λ n. n < length symbols.now) }
    requires keyed { NumbersAreKeyed symbols.now keys.now }
    requires lengths { ShortLengths symbols.now lengths.now (length symbols.now) }
    ensures { IfOk result (λ values. values.items ≡ map (value_of symbols.now) (places_of keys.now)) }
{
    let Some((bytes, ends)) = texts_in_order(alloc, symbols, keys, lengths)? else {
        return copies_in_order(alloc, symbols, keys);
    };
    let buffer = shared(alloc, bytes)?;
    values_in(alloc, symbols, keys, &buffer, &ends)
}

/// The distinct values in order, and the place of each number there.
///
/// # Errors
///
/// `AllocError` if there is no memory.
pub(crate) fn in_order(alloc: Global, symbols: &Values) -> Result<Ordered, AllocError>
    ensures { IfOk result (λ o. IsOrdering symbols.now o.symbols o.ranks.items) }
{
    let (unsorted, lengths) = keyed_numbers(alloc, symbols)?;
    let (keys, ranks) = distinct_in_order(alloc, symbols, &lengths, unsorted)?;
    let values = values_in_order(alloc, symbols, &keys, &lengths)?;
    let hints = hints_of(alloc, &keys, &values)?;
    let ordered = Layer::new(alloc, values, hints)?;
    Ok(Ordered {
        symbols: Symbols::from_ordered(alloc, ordered),
        ranks,
    })
}
