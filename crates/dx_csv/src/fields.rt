// Fields one after the other in one buffer, and the texts that share it.
ghost use Rattle.std.specs.Prelude.{◌≡◌, ◌<◌, ◌++◌, ◌∷◌, [], ℕ, List, IfOk, OnOk, length, slice_index_or};
ghost use Rattle.csv.specs.Records.{prev};
ghost use Rattle.dx_csv.specs.Fields.{HaveFields, HaveOpen, fields_in};

use dx_base::{Text, no_number_left};
use std::alloc::{AllocError, Global};
use std::marker::Model;
use std::rc::Rc;

/// Fields that are texts, one after the other in one buffer, and the place where each ends.
#[derive(Drop)]
pub(crate) struct Fields {
    text: String,
    ends: Vec<u32>,
}

impl Fields {
    pub(crate) fn new(alloc: Global) -> Fields
        ensures { HaveFields result [] }
    {
        Fields {
            text: String::new(alloc),
            ends: Vec::new(alloc),
        }
    }

    /// One field more. After an error nothing is said of the fields.
    pub(crate) fn push(&mut self, field: &str) -> Result<(), AllocError>
        ensures { (fields : List (List ℕ)) → HaveFields self.old fields → OnOk result (HaveFields self.new (fields ++ field.now ∷ [])) }
    {
        self.add(field)?;
        self.end()
    }

    /// A part more of the field that is open. After an error nothing is said of the fields.
    pub(crate) fn add(&mut self, more: &str) -> Result<(), AllocError>
        ensures { (fields : List (List ℕ)) (part : List ℕ) → HaveOpen self.old fields part → OnOk result
            (HaveOpen self.new fields (part ++ more.now)) }
    {
        self.text.push_str(more)?;
        Ok(())
    }

    /// Ends the field that is open. After an error nothing is said of the fields.
    pub(crate) fn end(&mut self) -> Result<(), AllocError>
        ensures { (fields : List (List ℕ)) (part : List ℕ) → HaveOpen self.old fields part → OnOk result
            (HaveFields self.new (fields ++ part ∷ [])) }
    {
        let Ok(end) = u32::try_from(self.text.len()) else {
            return Err(no_number_left(self.text.len() as u64));
        };
        self.ends.push(end)?;
        Ok(())
    }

    /// The fields as texts that share the buffer.
    pub(crate) fn into_texts(self, alloc: Global) -> Result<Texts, AllocError>
        requires { HaveFields self (fields_in self) }
        ensures { IfOk result (λ texts. texts ≡ fields_in self) }
    {
        let Fields { text, ends } = self;
        let buffer = Rc::new(alloc, text)?;
        Ok(Texts { buffer, ends })
    }
}

/// Texts that share a buffer. A contract sees their list.
#[derive(Drop)]
pub(crate) struct Texts {
    buffer: Rc<String>,
    ends: Vec<u32>,
}

impl Model for Texts {
    ghost use Rattle.std.specs.Prelude.{ℕ, List, length, string_bytes};
    ghost use Rattle.csv.specs.Records.{AllText, Rising, cut_from};

    ghost Value = { List (List ℕ) };

    ghost view = { λ t. cut_from 0 t.ends.items (string_bytes t.buffer.value) };

    ghost invariant = { λ t. Rising 0 t.ends.items (length (string_bytes t.buffer.value))
        × AllText (cut_from 0 t.ends.items (string_bytes t.buffer.value)) };
}

// Where the text at a place starts: where the one before it ends.
fn start_of(ends: &[u32], place: usize) -> u32
    requires { place < length ends.now }
    ensures { result ≡ prev 0 ends.now place }
{
    if place == 0 {
        return 0;
    }
    ends[place - 1]
}

impl Texts {
    /// How many texts there are.
    pub(crate) fn len(&self) -> usize
        ensures { result ≡ length self.now }
    {
        self.ends.len()
    }

    /// The text at a place.
    pub(crate) fn at(&self, place: usize) -> Result<Text, AllocError>
        requires { place < length self.now }
        ensures { IfOk result (λ t. t ≡ slice_index_or self.now place []) }
    {
        let end = self.ends[place];
        Text::part(&self.buffer, start_of(&self.ends, place), end)
    }
}
