// Texts in one buffer.
ghost use Rattle.std.specs.Prelude.{◌≡◌, ◌<◌, ◌++◌, ◌∷◌, [], ℕ, List, IfOk, OnOk, OnErr, get_or, length};

use dx_base::{Text, no_number_left};
use std::alloc::{AllocError, Global};
use std::marker::Model;
use std::rc::Rc;

/// A count as it is stored.
pub(crate) fn stored(count: usize) -> Result<u32, AllocError>
    ensures { IfOk result (λ number. number ≡ count) }
{
    match u32::try_from(count) {
        Ok(number) => Ok(number),
        Err(_) => Err(no_number_left(count as u64)),
    }
}

/// Texts one after the other in one buffer, and where each begins and ends. A contract sees the list of the texts.
#[derive(Drop)]
pub struct Texts {
    buffer: String,
    spans: Vec<(u32, u32)>,
}

impl Model for Texts {
    ghost use Rattle.std.specs.Prelude.{ℕ, List, map, string_bytes};
    ghost use Rattle.dx_base.specs.Members.{Each};
    ghost use Rattle.dx_json.specs.Spans.{IsSpan, span_text};

    ghost Value = { List (List ℕ) };

    ghost view = { λ t. map (span_text (string_bytes t.buffer)) t.spans.items };

    ghost invariant = { λ t. Each t.spans.items (IsSpan (string_bytes t.buffer)) };
}

impl Texts {
    /// No texts.
    pub fn new(alloc: Global) -> Texts
        ensures { result ≡ [] }
    {
        Texts {
            buffer: String::new(alloc),
            spans: Vec::new(alloc),
        }
    }

    /// How many texts there are.
    pub fn len(&self) -> usize
        ensures { result ≡ length self.now }
    {
        self.spans.len()
    }

    /// One text more, at the end.
    pub fn push(&mut self, text: &str) -> Result<(), AllocError>
        ensures ok { OnOk result (self.new ≡ self.old ++ text.now ∷ []) }
        ensures err { OnErr result (self.new ≡ self.old) }
    {
        let start = stored(self.buffer.len())?;
        self.buffer.push_str(text)?;
        let end = stored(self.buffer.len())?;
        self.spans.push((start, end))?;
        Ok(())
    }

    /// The same texts, which share the buffer.
    pub fn shared(self, alloc: Global) -> Result<SharedTexts, AllocError>
        ensures { IfOk result (λ texts. texts ≡ self) }
    {
        let Texts { buffer, spans } = self;
        let buffer = Rc::new(alloc, buffer)?;
        Ok(SharedTexts { buffer, spans })
    }
}

/// Texts that share one buffer. A contract sees the list of the texts.
#[derive(Drop)]
pub struct SharedTexts {
    buffer: Rc<String>,
    spans: Vec<(u32, u32)>,
}

impl Model for SharedTexts {
    ghost use Rattle.std.specs.Prelude.{ℕ, List, map, string_bytes};
    ghost use Rattle.dx_base.specs.Members.{Each};
    ghost use Rattle.dx_json.specs.Spans.{IsSpan, span_text};

    ghost Value = { List (List ℕ) };

    ghost view = { λ t. map (span_text (string_bytes t.buffer.value)) t.spans.items };

    ghost invariant = { λ t. Each t.spans.items (IsSpan (string_bytes t.buffer.value)) };
}

impl SharedTexts {
    /// The text at a place.
    pub fn text(&self, place: usize) -> Result<Text, AllocError>
        requires { place < length self.now }
        ensures { IfOk result (λ text. text ≡ get_or self.now place []) }
    {
        let (start, end) = self.spans[place];
        Text::part(&self.buffer, start, end)
    }
}
