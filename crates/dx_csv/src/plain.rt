// Records whose fields stand as they are or whole in quotes: read straight from the text, and not byte by byte through the
// reader of `csv`.
ghost use Rattle.std.specs.Prelude.{◌≡◌, ◌≤◌, ◌<◌, ◌++◌, ◌∷◌, ◌+◌, ◌-◌, [], ℕ, List, All, true, IfOk, IfSome, drop, length, slice_index, take};
ghost use Rattle.dx_csv.specs.Fields.{GrowsBy, HaveFields, HaveOpen, flat};
ghost use Rattle.dx_csv.specs.Plain.{FieldAt, FirstQuote, HasRecords, IsRecordOf, RecordStandsAt, ends_line, is_quote, joins};
ghost use Rattle.dx_csv.specs.Table.{table_records};

use crate::fields::Fields;
use std::alloc::{AllocError, Global};

// Whether a byte joins the field in which it stands.
#[inline(always)]
fn joins(byte: u8) -> bool
    ensures { result ≡ joins byte }
{
    byte != b',' && byte != b'"' && byte != b'\n' && byte != b'\r'
}

// Whether a byte ends a line.
#[inline(always)]
fn ends_line(byte: u8) -> bool
    ensures { result ≡ ends_line byte }
{
    byte == b'\r' || byte == b'\n'
}

// The first place from this one on whose byte does not join a field, or the end.
fn end_of_field(bytes: &[u8], from: usize) -> usize
    requires { from ≤ length bytes.now }
    ensures from { from ≤ result }
    ensures within { result ≤ length bytes.now }
    ensures joins { (i : ℕ) → from ≤ i → i < result → joins (slice_index bytes.now i) ≡ true }
{
    for place in from..bytes.len() {
        if !joins(bytes[place]) {
            return place;
        }
    }
    bytes.len()
}

// Whether a quote stands at this place.
#[inline(always)]
fn is_quote(bytes: &[u8], place: usize) -> bool
    ensures { result ≡ is_quote bytes.now place }
{
    place < bytes.len() && bytes[place] == b'"'
}

// The first quote from this place on, if there is one.
fn first_quote(bytes: &[u8], from: usize) -> Option<usize>
    ensures { IfSome result (FirstQuote bytes.now from) }
{
    (from..bytes.len()).find(|place| bytes[*place] == b'"')
}

// Ends the field that is open with the text between these places, and answers the place after it.
fn end_quoted(
    text: &str,
    from: usize,
    quote: usize,
    fields: &mut Fields,
) -> Result<Option<usize>, AllocError>
    requires { quote < length text.now }
    ensures after { IfOk result (λ o. IfSome o (λ after. after ≡ quote + 1)) }
    ensures field { (before : List (List ℕ)) (part : List ℕ) → HaveOpen fields.old before part
        → IfOk result (λ o. IfSome o (λ after. HaveFields fields.new (before ++ (part ++ take (quote - from) (drop from text.now)) ∷ []))) }
{
    let Some(part) = text.get(from..quote) else {
        return Ok(None);
    };
    fields.add(part)?;
    fields.end()?;
    Ok(Some(quote + 1))
}

// Puts the field in quotes at this place after the others, and answers the place after it. Two quotes inside stand for one.
// None if its quotes are not closed: nothing is said of the fields then.
fn push_quoted(text: &str, start: usize, fields: &mut Fields) -> Result<Option<usize>, AllocError>
    requires { is_quote text.now start ≡ true }
    ensures { IfOk result (λ o. IfSome o (λ after. (field : List ℕ) × FieldAt text.now start after field
        × GrowsBy fields.old fields.new field)) }
{
    let bytes = text.as_bytes();
    let mut from = start + 1;
    for _part in start..bytes.len() {
        let Some(quote) = first_quote(bytes, from) else {
            return Ok(None);
        };
        if !is_quote(bytes, quote + 1) {
            return end_quoted(text, from, quote, fields);
        }
        let Some(part) = text.get(from..quote + 1) else {
            return Ok(None);
        };
        fields.add(part)?;
        from = quote + 2;
    }
    Ok(None)
}

// Puts the field at this place after the others, and answers the place after it. None if only a whole reader understands it:
// nothing is said of the fields then.
#[inline(always)]
fn push_field(text: &str, start: usize, fields: &mut Fields) -> Result<Option<usize>, AllocError>
    requires { start ≤ length text.now }
    ensures { IfOk result (λ o. IfSome o (λ after. (field : List ℕ) × FieldAt text.now start after field
        × GrowsBy fields.old fields.new field)) }
{
    let bytes = text.as_bytes();
    if is_quote(bytes, start) {
        return push_quoted(text, start, fields);
    }
    let end = end_of_field(bytes, start);
    let Some(field) = text.get(start..end) else {
        return Ok(None);
    };
    fields.push(field)?;
    Ok(Some(end))
}

// Puts the fields of the record at this place after the others, and answers the place after the record. None if no record of so
// many fields begins there, or one that only a whole reader understands: nothing is said of the fields then.
fn push_plain(
    text: &str,
    from: usize,
    width: usize,
    fields: &mut Fields,
) -> Result<Option<usize>, AllocError>
    requires { from ≤ length text.now }
    ensures { (old : List (List ℕ)) → HaveFields fields.old old → IfOk result (λ o. IfSome o (λ after. (found : List (List ℕ))
        × RecordStandsAt text.now from after found × IsRecordOf width found × HaveFields fields.new (old ++ found))) }
{
    let bytes = text.as_bytes();
    if from == bytes.len() || ends_line(bytes[from]) {
        return Ok(None);
    }
    let mut start = from;
    for number in 0..width {
        let Some(end) = push_field(text, start, fields)? else {
            return Ok(None);
        };
        let is_last = number + 1 == width;
        if end == bytes.len() {
            return Ok(if is_last { Some(end) } else { None });
        }
        match bytes[end] {
            b',' if !is_last => start = end + 1,
            b'\n' | b'\r' if is_last => return Ok(Some(end + 1)),
            _ => return Ok(None),
        }
    }
    Ok(None)
}

// The fields of the records from this place on, each of so many, and how many records there are. None if one of them has another
// number of fields, or only a whole reader understands it.
fn plain_rows(
    alloc: Global,
    text: &str,
    from: usize,
    width: usize,
) -> Result<Option<(Fields, u64)>, AllocError>
    requires { from ≤ length text.now }
    ensures { IfOk result (λ o. IfSome o (λ read. (rows : List (List (List ℕ)))
        × HasRecords text.now from width rows × HaveFields read.0 (flat rows) × (read.1 ≡ length rows))) }
{
    let bytes = text.as_bytes();
    let mut fields = Fields::new(alloc);
    let mut at = from;
    let mut count = 0u64;
    for turn in 0..u64::MAX {
        if at == bytes.len() {
            return Ok(Some((fields, count)));
        }
        if ends_line(bytes[at]) {
            at += 1;
        } else {
            let Some(after) = push_plain(text, at, width, &mut fields)? else {
                return Ok(None);
            };
            at = after;
            count += 1;
        }
    }
    Ok(None)
}

/// The fields of a table, as the records under its first one have them, and how many of these there are. None if some record
/// has another number of fields than so many, or only a whole reader understands it.
pub(crate) fn plain_fields(
    alloc: Global,
    bytes: &[u8],
    width: usize,
) -> Result<Option<(Fields, u64)>, AllocError>
    ensures { IfOk result (λ o. IfSome o (λ read. (header : List (List ℕ)) × (rows : List (List (List ℕ)))
        × (table_records bytes.now ≡ header ∷ rows) × All (IsRecordOf width) rows × HaveFields read.0 (flat rows) × (read.1 ≡ length rows))) }
{
    let Ok(text) = str::from_utf8(bytes) else {
        return Ok(None);
    };
    if bytes.is_empty() || bytes[0] == 0xef {
        return Ok(None);
    }
    let mut header = Fields::new(alloc);
    let Some(under) = push_plain(text, 0, width, &mut header)? else {
        return Ok(None);
    };
    let Some((fields, count)) = plain_rows(alloc, text, under, width)? else {
        return Ok(None);
    };
    Ok(Some((fields, count)))
}
