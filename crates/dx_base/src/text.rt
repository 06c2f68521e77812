// A text: bytes that are UTF-8, compared by their bytes.
ghost use Rattle.std.specs.Prelude.{◌≡◌, ◌↔◌, ◌-◌, ◌≤◌, IfOk, OnOk, IsTrue, IsErrOf, IsUtf8, List, ℕ, Some, drop, length, nat_eq, refl, string_bytes, take};
ghost use Rattle.std.specs.Cmp.{partial_equiv_from_equiv};
ghost use Rattle.std.specs.Cmp.Lexicographic.{pointwise, slice_cmp, nat_list_eq_equiv, nat_list_cmp_total, texts_po, texts_ties};
ghost use Rattle.std.specs.Ordering.{nat_cmp};
ghost use Rattle.std.specs.Cmp.Rules.{hashing};
ghost use Rattle.std.specs.Hash as fed;
ghost use Rattle.std.proofs.Common.{rules};
ghost use Rattle.dx_base.specs.declared.text.TextMade.TheVariants.{Memory};

use crate::no_number_left;
use std::alloc::{AllocError, Global};
use std::cmp::Ordering;
use std::fmt;
use std::hash::{Hash, Hasher};
use std::marker::Model;
use std::rc::Rc;
use thiserror::Error;

/// A text: a part of a buffer that it shares with its copies. A contract sees it as its bytes, which are UTF-8.
#[derive(Drop)]
pub struct Text {
    buffer: Rc<String>,
    start: u32,
    end: u32,
}

/// Why bytes gave no text.
#[derive(Clone, Copy, Debug, PartialEq, Eq, Error)]
pub enum TextMade {
    #[error("the bytes are not UTF-8")]
    NotUtf8,
    #[error("out of memory")]
    Memory,
}

impl From<AllocError> for TextMade {
    ghost from_gives = { λ _ e. e ≡ Memory };

    fn from(_: AllocError) -> Self {
        TextMade::Memory
    }
}

impl Model for Text {
    ghost use Rattle.std.specs.Prelude.{List, ℕ, IsUtf8, string_bytes, take, drop, length, ◌-◌, ◌≤◌};

    ghost Value = { List ℕ };

    ghost view = { λ t. take (t.end - t.start) (drop t.start (string_bytes t.buffer.value)) };

    ghost invariant = { λ t. (t.start ≤ t.end)
        × (t.end ≤ length (string_bytes t.buffer.value))
        × IsUtf8 (take (t.end - t.start) (drop t.start (string_bytes t.buffer.value))) };
}

impl Text {
    /// The text of these bytes, if they are UTF-8.
    ///
    /// # Errors
    ///
    /// `NotUtf8`: exactly if the bytes are not UTF-8. `Memory` if there is no memory, or there are 2^32 bytes
    /// or more.
    pub fn from_bytes(alloc: Global, bytes: &[u8]) -> Result<Text, TextMade>
        ensures ok { IfOk result (λ t. t ≡ bytes.now) }
        ensures text { OnOk result (IsUtf8 bytes.now) }
        ensures not_utf8 { IsErrOf result TextMade.NotUtf8 ↔ ¬ (IsUtf8 bytes.now) }
    {
        match str::from_utf8(bytes) {
            Ok(text) => Ok(Text::from_str(alloc, text)?),
            Err(_) => Err(TextMade::NotUtf8),
        }
    }

    /// The text with these characters, in a buffer of its own.
    ///
    /// # Errors
    ///
    /// `AllocError` if there is no memory, or the text has 2^32 bytes or more.
    pub fn from_str(alloc: Global, text: &str) -> Result<Text, AllocError>
        ensures { IfOk result (λ t. t ≡ text.now) }
    {
        Text::from_string(alloc, String::from_str(alloc, text)?)
    }

    /// The text of a string, which becomes its buffer.
    ///
    /// # Errors
    ///
    /// `AllocError` if there is no memory, or the string has 2^32 bytes or more.
    pub fn from_string(alloc: Global, string: String) -> Result<Text, AllocError>
        ensures { IfOk result (λ t. t ≡ string_bytes string) }
    {
        let Ok(end) = u32::try_from(string.len()) else {
            return Err(no_number_left(string.len() as u64));
        };
        let buffer = Rc::new(alloc, string)?;
        Ok(Text {
            buffer,
            start: 0,
            end,
        })
    }

    /// The part of a buffer from `start` up to `end`, two numbers of bytes. It takes no memory.
    ///
    /// # Errors
    ///
    /// `AllocError` if the buffer has too many owners to be counted.
    pub fn part(buffer: &Rc<String>, start: u32, end: u32) -> Result<Text, AllocError>
        requires order { start ≤ end }
        requires within { end ≤ length (string_bytes buffer.now.value) }
        requires text { IsUtf8 (take (end - start) (drop start (string_bytes buffer.now.value))) }
        ensures { IfOk result (λ t. t ≡ take (end - start) (drop start (string_bytes buffer.now.value))) }
    {
        let buffer = buffer.clone()?;
        Ok(Text { buffer, start, end })
    }

    /// The bytes of the text, lent. They are UTF-8.
    pub fn bytes(&self) -> &[u8]
        ensures value { result.now ≡ self.now }
        ensures utf8 { IsUtf8 self.now }
    {
        &self.buffer.as_bytes()[self.start as usize..self.end as usize]
    }

    /// The text as a `str`, lent.
    pub fn as_str(&self) -> &str
        ensures { result.now ≡ self.now }
    {
        // The part is UTF-8 by the invariant.
        unsafe { str::from_utf8_unchecked(self.bytes()) }
    }

    /// A copy, which shares the buffer. It takes no memory.
    ///
    /// # Errors
    ///
    /// `AllocError` if the buffer has too many owners to be counted.
    pub fn copy(&self) -> Result<Text, AllocError>
        ensures { IfOk result (λ t. t ≡ self.now) }
    {
        let buffer = self.buffer.clone()?;
        Ok(Text {
            buffer,
            start: self.start,
            end: self.end,
        })
    }

    /// Whether the two texts are one.
    pub fn is(&self, other: &Text) -> bool
        ensures { IsTrue result ↔ (self.now ≡ other.now) }
    {
        self.as_str() == other.as_str()
    }
}

impl fmt::Display for Text {
    ghost output = { λ t. Some t };

    fn fmt<W: fmt::Write>(&self, f: &mut fmt::Formatter<W>) -> fmt::Result {
        f.write_str(self.as_str())
    }
}

impl fmt::Debug for Text {
    fn fmt<W: fmt::Write>(&self, f: &mut fmt::Formatter<W>) -> fmt::Result {
        fmt::Debug::fmt(self.as_str(), f)
    }
}

impl PartialEq for Text {
    ghost eq = { pointwise nat_eq };

    ghost laws = { partial_equiv_from_equiv nat_list_eq_equiv };

    fn eq(&self, other: &Self) -> bool {
        self.as_str() == other.as_str()
    }
}

impl Eq for Text {
    ghost laws = { nat_list_eq_equiv };
}

impl PartialOrd for Text {
    ghost partial_cmp = { λ x y. Some (slice_cmp nat_cmp x y) };

    ghost laws = { texts_po };

    fn partial_cmp(&self, other: &Self) -> Option<Ordering> {
        Some(self.cmp(other))
    }
}

impl Ord for Text {
    ghost cmp = { slice_cmp nat_cmp };

    ghost total = { nat_list_cmp_total };

    ghost matches_partial_cmp = { λ x y. refl };

    ghost matches_eq = { texts_ties };

    fn cmp(&self, other: &Self) -> Ordering {
        self.as_str().cmp(other.as_str())
    }
}

impl Hash for Text {
    ghost hash_input = { fed.str };

    ghost respects_eq = { Prim.search (hashing, rules) };

    fn hash<H: Hasher>(&self, state: &mut H) {
        self.as_str().hash(state);
    }
}
