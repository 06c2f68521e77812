// Records as CSV, printed field by field into one buffer.
ghost use Rattle.std.specs.Prelude.{◌≡◌, ◌<◌, ◌^◌, ◌++◌, ◌∷◌, ◌==◌, [], ℕ, List, IsUtf8, OnOk, false, true, length};
ghost use Rattle.std.specs.Fmt.{decimal};
ghost use Rattle.csv.specs.Writing.{default_writer, escaped, field_text, needs_quotes};
ghost use Rattle.dx_instance.specs.ValueText.{NullFits, const_text, null_text, value_text_of};
ghost use Rattle.dx_csv.specs.Lines.{HavePrinted, NeedsNoQuotes, before_field, before_row, line_end, line_with};
ghost use Rattle.dx_csv.specs.Print.{records_text};

use dx_model::{NullId, Value};
use itoa::Buffer;
use std::alloc::{AllocError, Global};

/// What the line that is being printed shows so far.
#[derive(Clone, Copy, PartialEq, Eq)]
pub(crate) enum OpenLine {
    /// No field.
    NoField,
    /// One field, which is empty.
    NoByte,
    /// Fields that show a byte.
    Bytes,
}

/// Records as CSV, printed field by field into one buffer of bytes, as the default writer of `csv` prints them. A
/// contract sees which records are printed whole, and which fields of the next one.
///
/// After an error nothing is said of the lines: drop them.
#[derive(Drop)]
pub struct Lines {
    bytes: Vec<u8>,
    line: OpenLine,
}

impl OpenLine {
    // Ends the line.
    #[inline]
    fn push_ending(self, bytes: &mut Vec<u8>) -> Result<(), AllocError>
        ensures { OnOk result (bytes.new.items ≡ bytes.old.items ++ line_end self) }
    {
        match self {
            OpenLine::NoField | OpenLine::NoByte => bytes.extend_from_slice(b"\"\"\n"),
            OpenLine::Bytes => {
                bytes.push(b'\n')?;
                Ok(())
            }
        }
    }
}

impl Lines {
    /// No records, and no field of the next one.
    pub fn new(alloc: Global) -> Lines
        ensures { HavePrinted result [] [] }
    {
        Lines {
            bytes: Vec::new(alloc),
            line: OpenLine::NoField,
        }
    }

    /// Makes room for so many bytes more, so that they go in without the others being moved. If there is no memory for it,
    /// no room is made. What is printed stays.
    pub fn make_room(&mut self, more: usize)
        ensures { (records : List (List (List ℕ))) (fields : List (List ℕ)) → HavePrinted self.old records fields
            → HavePrinted self.new records fields }
    {
        self.bytes.reserve(more).ok();
    }

    /// One field more of the open record.
    ///
    /// # Errors
    ///
    /// `AllocError` if there is no memory.
    pub fn field(&mut self, field: &[u8]) -> Result<(), AllocError>
        ensures { (records : List (List (List ℕ))) (fields : List (List ℕ)) → HavePrinted self.old records fields
            → OnOk result (HavePrinted self.new records (fields ++ field.now ∷ [])) }
    {
        self.begin_field(field.is_empty())?;
        push_field(&mut self.bytes, b"", field)
    }

    /// One field more of the open record, of which the caller knows that it calls for no quotes.
    ///
    /// # Errors
    ///
    /// `AllocError` if there is no memory.
    #[inline]
    pub fn plain_field(&mut self, field: &[u8]) -> Result<(), AllocError>
        requires { NeedsNoQuotes field.now }
        ensures { (records : List (List (List ℕ))) (fields : List (List ℕ)) → HavePrinted self.old records fields
            → OnOk result (HavePrinted self.new records (fields ++ field.now ∷ [])) }
    {
        self.begin_field(field.is_empty())?;
        self.bytes.extend_from_slice(field)?;
        Ok(())
    }

    /// The text of a value as one field more of the open record.
    ///
    /// # Errors
    ///
    /// `AllocError` if there is no memory.
    pub fn value(&mut self, value: &Value) -> Result<(), AllocError>
        ensures utf8 { OnOk result (IsUtf8 (value_text_of value.now)) }
        ensures printed { (records : List (List (List ℕ))) (fields : List (List ℕ)) → HavePrinted self.old records fields
            → OnOk result (HavePrinted self.new records (fields ++ value_text_of value.now ∷ [])) }
    {
        match value {
            Value::Const(text) => self.constant(text.bytes()),
            Value::Null(null) => self.null(null),
        }
    }

    /// The text of a constant as one field more of the open record.
    ///
    /// # Errors
    ///
    /// `AllocError` if there is no memory.
    #[inline]
    pub fn constant(&mut self, text: &[u8]) -> Result<(), AllocError>
        ensures { (records : List (List (List ℕ))) (fields : List (List ℕ)) → HavePrinted self.old records fields
            → OnOk result (HavePrinted self.new records (fields ++ const_text text.now ∷ [])) }
    {
        self.begin_field(text.is_empty())?;
        push_constant(&mut self.bytes, text)
    }

    /// A letter and the digits of a number as one field more of the open record.
    ///
    /// # Errors
    ///
    /// `AllocError` if there is no memory.
    #[inline]
    pub fn numbered(&mut self, letter: u8, number: u32) -> Result<(), AllocError>
        requires { NeedsNoQuotes (letter ∷ []) }
        ensures { (records : List (List (List ℕ))) (fields : List (List ℕ)) → HavePrinted self.old records fields
            → OnOk result (HavePrinted self.new records (fields ++ (letter ∷ decimal number) ∷ [])) }
    {
        self.begin_field(false)?;
        push_numbered(&mut self.bytes, letter, number)
    }

    /// Ends the open record. One without fields is printed as one empty field.
    ///
    /// # Errors
    ///
    /// `AllocError` if there is no memory.
    pub fn end(&mut self) -> Result<(), AllocError>
        ensures { (records : List (List (List ℕ))) (fields : List (List ℕ)) → HavePrinted self.old records fields
            → OnOk result (HavePrinted self.new (records ++ fields ∷ []) []) }
    {
        self.line.push_ending(&mut self.bytes)?;
        self.line = OpenLine::NoField;
        Ok(())
    }

    /// The text of the records, with no memory.
    pub fn into_bytes(self) -> Vec<u8>
        ensures { (records : List (List (List ℕ))) → HavePrinted self records [] → result.items ≡ records_text records }
    {
        self.bytes
    }

    // The text of a null as one field more.
    fn null(&mut self, null: &NullId) -> Result<(), AllocError>
        ensures fits { OnOk result (NullFits null.now) }
        ensures printed { (records : List (List (List ℕ))) (fields : List (List ℕ)) → HavePrinted self.old records fields
            → OnOk result (HavePrinted self.new records (fields ++ null_text null.now ∷ [])) }
    {
        self.begin_field(false)?;
        push_null(&mut self.bytes, null)
    }

    // What stands before the next field, and what the line shows with it.
    fn begin_field(&mut self, is_empty: bool) -> Result<(), AllocError>
        ensures bytes { OnOk result (self.new.bytes.items ≡ self.old.bytes.items ++ before_field self.old.line) }
        ensures line { OnOk result ((field : List ℕ) → is_empty ≡ (length field == 0) → self.new.line ≡ line_with self.old.line field) }
    {
        match self.line {
            OpenLine::NoField if is_empty => self.line = OpenLine::NoByte,
            OpenLine::NoField => self.line = OpenLine::Bytes,
            _ => {
                self.bytes.push(b',')?;
                self.line = OpenLine::Bytes;
            }
        }
        Ok(())
    }
}

// Whether a field calls for quotes.
fn calls_for_quotes(field: &[u8]) -> bool
    ensures { result ≡ needs_quotes default_writer field.now }
{
    field
        .iter()
        .any(|byte| matches!(*byte, b',' | b'"' | b'\n' | b'\r'))
}

// The bytes of a field, each quote twice.
fn push_escaped(bytes: &mut Vec<u8>, field: &[u8]) -> Result<(), AllocError>
    ensures { OnOk result (bytes.new.items ≡ bytes.old.items ++ escaped default_writer field.now) }
{
    for byte in field {
        if *byte == b'"' {
            bytes.push(b'"')?;
        }
        bytes.push(*byte)?;
    }
    Ok(())
}

// What stands before a field, if anything does.
fn push_mark(bytes: &mut Vec<u8>, mark: &[u8]) -> Result<(), AllocError>
    ensures { OnOk result (bytes.new.items ≡ bytes.old.items ++ mark.now) }
{
    if mark.is_empty() {
        return Ok(());
    }
    bytes.extend_from_slice(mark)
}

// A field that begins with a mark and calls for quotes.
#[inline(never)]
fn push_quoted(bytes: &mut Vec<u8>, mark: &[u8], field: &[u8]) -> Result<(), AllocError>
    requires mark { NeedsNoQuotes mark.now }
    requires field { needs_quotes default_writer field.now ≡ true }
    ensures { OnOk result (bytes.new.items ≡ bytes.old.items ++ field_text default_writer (mark.now ++ field.now)) }
{
    bytes.push(b'"')?;
    push_mark(bytes, mark)?;
    push_escaped(bytes, field)?;
    bytes.push(b'"')?;
    Ok(())
}

// A field that begins with a mark, in quotes if it calls for them.
#[inline]
fn push_field(bytes: &mut Vec<u8>, mark: &[u8], field: &[u8]) -> Result<(), AllocError>
    requires { NeedsNoQuotes mark.now }
    ensures { OnOk result (bytes.new.items ≡ bytes.old.items ++ field_text default_writer (mark.now ++ field.now)) }
{
    if calls_for_quotes(field) {
        return push_quoted(bytes, mark, field);
    }
    push_mark(bytes, mark)?;
    bytes.extend_from_slice(field)
}

// The text of a constant.
#[inline]
fn push_constant(bytes: &mut Vec<u8>, text: &[u8]) -> Result<(), AllocError>
    ensures { OnOk result (bytes.new.items ≡ bytes.old.items ++ field_text default_writer (const_text text.now)) }
{
    match text {
        [b'?', ..] => push_field(bytes, b"?", text),
        _ => push_field(bytes, b"", text),
    }
}

// The digits of a number.
#[inline(always)]
#[tactic(auto, using(std::proofs::lemmas::Fmt::decimal_digit))]
fn push_number(bytes: &mut Vec<u8>, number: u32) -> Result<(), AllocError>
    ensures { OnOk result (bytes.new.items ≡ bytes.old.items ++ decimal number) }
{
    if number < 10 {
        bytes.push(b'0' + number as u8)?;
        return Ok(());
    }
    push_digits(bytes, number)
}

// The digits of a number, however many.
#[inline(never)]
fn push_digits(bytes: &mut Vec<u8>, number: u32) -> Result<(), AllocError>
    ensures { OnOk result (bytes.new.items ≡ bytes.old.items ++ decimal number) }
{
    let mut buffer = Buffer::new();
    bytes.extend_from_slice(buffer.format(number).as_bytes())
}

// A letter and the digits of a number, at once if it is one digit.
#[inline]
#[tactic(auto, using(std::proofs::lemmas::Fmt::decimal_digit))]
fn push_numbered(bytes: &mut Vec<u8>, letter: u8, number: u32) -> Result<(), AllocError>
    ensures text { OnOk result (bytes.new.items ≡ bytes.old.items ++ letter ∷ decimal number) }
    ensures fits { number < 2 ^ 32 }
{
    if number < 10 {
        let shown = [letter, b'0' + number as u8];
        bytes.extend_from_slice(&shown)?;
        return Ok(());
    }
    bytes.push(letter)?;
    push_digits(bytes, number)
}

// The text of a null up to its row. Where its rule and its variable have one digit each, it is pushed at once.
#[inline]
#[tactic(auto, using(std::proofs::lemmas::Fmt::decimal_digit))]
fn push_place(bytes: &mut Vec<u8>, rule: u32, var: u32) -> Result<(), AllocError>
    ensures { OnOk result (bytes.new.items ≡ bytes.old.items ++ before_row rule var) }
{
    if rule < 10 && var < 10 {
        let shown = [b'?', b'0' + rule as u8, b'.', b'0' + var as u8, b'.'];
        bytes.extend_from_slice(&shown)?;
        return Ok(());
    }
    bytes.push(b'?')?;
    push_number(bytes, rule)?;
    bytes.push(b'.')?;
    push_number(bytes, var)?;
    bytes.push(b'.')?;
    Ok(())
}

// The text of a null.
fn push_null(bytes: &mut Vec<u8>, null: &NullId) -> Result<(), AllocError>
    ensures text { OnOk result (bytes.new.items ≡ bytes.old.items ++ null_text null.now) }
    ensures fits { NullFits null.now }
{
    let NullId { rule, var, row } = *null;
    push_place(bytes, rule, var)?;
    push_number(bytes, row)
}

/// Shows a null: its text in the place of what stands in the buffer. As a field it calls for no quotes.
///
/// # Errors
///
/// `AllocError` if there is no memory.
pub fn show_null(null: &NullId, shown: &mut Vec<u8>) -> Result<(), AllocError>
    ensures text { OnOk result (shown.new.items ≡ null_text null.now) }
    ensures plain { NeedsNoQuotes (null_text null.now) }
{
    shown.clear();
    push_null(shown, null)
}
