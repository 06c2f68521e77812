// Records that are printed, and how many they are.
ghost use Rattle.std.specs.Prelude.{◌++◌, ◌∷◌, [], ℕ, List, OnOk};
ghost use Rattle.std.specs.Fmt.{decimal};
ghost use Rattle.dx_instance.specs.ValueText.{const_text, value_text_of};
ghost use Rattle.dx_csv.specs.Lines.{NeedsNoQuotes};
ghost use Rattle.clio_files.specs.Printing.{AreRecords, HasFields};

use dx_base::{Text, no_number_left};
use dx_csv::Lines;
use dx_model::Value;
use std::alloc::{AllocError, Global};

/// Records printed into one buffer, field by field, and how many are whole.
#[derive(Drop)]
pub(crate) struct Records {
    pub(crate) lines: Lines,
    pub(crate) count: u64,
}

impl Records {
    /// No records.
    pub(crate) fn new(alloc: Global) -> Records
        ensures { AreRecords result [] }
    {
        Records {
            lines: Lines::new(alloc),
            count: 0,
        }
    }

    /// Makes room for so many bytes more. What is printed stays.
    pub(crate) fn make_room(&mut self, more: usize)
        ensures { (records : List (List (List ℕ))) (fields : List (List ℕ)) → HasFields self.old records fields
            → HasFields self.new records fields }
    {
        self.lines.make_room(more);
    }

    /// One field more of the record that is being printed.
    pub(crate) fn field(&mut self, field: &[u8]) -> Result<(), AllocError>
        ensures { (records : List (List (List ℕ))) (fields : List (List ℕ)) → HasFields self.old records fields
            → OnOk result (HasFields self.new records (fields ++ field.now ∷ [])) }
    {
        self.lines.field(field)
    }

    /// One field more, of which the caller knows that it calls for no quotes.
    #[inline]
    pub(crate) fn plain_field(&mut self, field: &[u8]) -> Result<(), AllocError>
        requires { NeedsNoQuotes field.now }
        ensures { (records : List (List (List ℕ))) (fields : List (List ℕ)) → HasFields self.old records fields
            → OnOk result (HasFields self.new records (fields ++ field.now ∷ [])) }
    {
        self.lines.plain_field(field)
    }

    /// The text of a constant as one field more.
    #[inline]
    pub(crate) fn constant(&mut self, text: &Text) -> Result<(), AllocError>
        ensures { (records : List (List (List ℕ))) (fields : List (List ℕ)) → HasFields self.old records fields
            → OnOk result (HasFields self.new records (fields ++ const_text text.now ∷ [])) }
    {
        self.lines.constant(text.bytes())
    }

    /// A letter and the digits of a number as one field more.
    #[inline]
    pub(crate) fn numbered(&mut self, letter: u8, number: u32) -> Result<(), AllocError>
        requires { NeedsNoQuotes (letter ∷ []) }
        ensures { (records : List (List (List ℕ))) (fields : List (List ℕ)) → HasFields self.old records fields
            → OnOk result (HasFields self.new records (fields ++ (letter ∷ decimal number) ∷ [])) }
    {
        self.lines.numbered(letter, number)
    }

    /// The text of a value as one field more.
    pub(crate) fn value(&mut self, value: &Value) -> Result<(), AllocError>
        ensures { (records : List (List (List ℕ))) (fields : List (List ℕ)) → HasFields self.old records fields
            → OnOk result (HasFields self.new records (fields ++ value_text_of value.now ∷ [])) }
    {
        self.lines.value(value)
    }

    /// Ends the record.
    pub(crate) fn end(&mut self) -> Result<(), AllocError>
        ensures { (records : List (List (List ℕ))) (fields : List (List ℕ)) → HasFields self.old records fields
            → OnOk result (AreRecords self.new (records ++ fields ∷ [])) }
    {
        self.lines.end()?;
        match self.count.checked_add(1) {
            Some(count) => {
                self.count = count;
                Ok(())
            }
            None => Err(no_number_left(self.count)),
        }
    }
}
