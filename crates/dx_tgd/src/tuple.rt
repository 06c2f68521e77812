// A tuple of a rule, lent.
ghost use Rattle.std.specs.Prelude.{◌≡◌, ◌<◌, [], length, slice_index_or};
ghost use Rattle.dx_joins.specs.Shown.{AllTexts, texts_of};

use dx_base::Text;
use dx_instance::{Symbols, Value};
use std::marker::Model;

/// The exported tuple of a match, lent as a row of numbers. A contract sees the list of its texts.
#[derive(Drop)]
pub struct Tuple<'a> {
    symbols: &'a Symbols,
    row: &'a [u32],
}

impl<'a> Model for Tuple<'a> {
    ghost use Rattle.std.specs.Prelude.{ℕ, List};
    ghost use Rattle.dx_joins.specs.Shown.{AllTexts, texts_of};

    ghost Value = { List (List ℕ) };

    ghost view = { λ t. texts_of t.symbols.now t.row.now };

    ghost invariant = { λ t. AllTexts t.symbols.now t.row.now };
}

impl<'a> Tuple<'a> {
    /// The tuple for which the row stands.
    pub(crate) fn new(symbols: &'a Symbols, row: &'a [u32]) -> Tuple<'a>
        requires { AllTexts symbols.now row.now }
        ensures { result ≡ texts_of symbols.now row.now }
    {
        Tuple { symbols, row }
    }

    /// How many texts it has.
    pub fn len(&self) -> usize
        ensures { result ≡ length self.now }
    {
        self.row.len()
    }

    /// The text in a column, lent.
    pub fn text(&self, column: usize) -> &'a Text
        requires { column < length self.now }
        ensures { result.now ≡ slice_index_or self.now column [] }
    {
        let symbols = self.symbols;
        match symbols.value(self.row[column] as u64) {
            Value::Const(text) => text,
            Value::Null(_) => unreachable!(),
        }
    }
}
