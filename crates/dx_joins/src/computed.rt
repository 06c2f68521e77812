// Derived variables, whose texts a host computes.
ghost use Rattle.std.specs.Prelude.{◌≡◌, ◌<◌, ◌+◌, ◌^◌, ◌∷◌, [], IfOk, OnOk, length, map};
ghost use Rattle.dx_base.specs.Members.{◌⊆◌, Each};
ghost use Rattle.dx_model.specs.declared.values.Value.TheVariants.{Const};
ghost use Rattle.dx_model.specs.Rules.{text_of};
ghost use Rattle.dx_instance.specs.Numbers.{ValuesDiffer, Extends, value_of};
ghost use Rattle.dx_instance.specs.Ranks.{text_of_value};
ghost use Rattle.dx_joins.specs.Shown.{AllTexts, texts_of};
ghost use Rattle.dx_joins.specs.Derivations.{IsComputed, IsTextRow, derived_value, with_derived};

use crate::plan::place;
use dx_base::{Items, Text};
use dx_funcs::{Host, Meaning};
use dx_instance::{Symbols, Value};
use dx_model::Derived;
use std::alloc::{AllocError, Global};

/// The variables that rows are for, and the variables that are derived of them, which are numbered from `first` on, with the
/// host that computes their texts.
#[derive(Drop)]
pub(crate) struct Derivation<'a, 'h, F, M> {
    pub(crate) alloc: Global,
    pub(crate) wanted: &'a [u32],
    pub(crate) derived: &'a [Derived],
    pub(crate) first: u32,
    pub(crate) host: &'h Host<F, M>,
    ghost numbers: { first + length derived.now < 2 ^ 32 },
}

// The text for which a number stands.
fn text_at(symbols: &Symbols, number: u32) -> Result<Text, AllocError>
    requires { AllTexts symbols.now (number ∷ []) }
    ensures { IfOk result (λ t. t ≡ text_of_value (value_of symbols.now number)) }
{
    match symbols.value(number as u64) {
        Value::Const(text) => text.copy(),
        Value::Null(_) => unreachable!(),
    }
}

// The texts that a row gives to variables.
fn texts_for(
    alloc: Global,
    names: &[u32],
    row: &[u32],
    variables: &[u32],
    symbols: &Symbols,
) -> Result<Items<Text>, AllocError>
    requires known { variables.now ⊆ names.now }
    requires many { length row.now ≡ length names.now }
    requires texts { AllTexts symbols.now row.now }
    ensures { IfOk result (λ t. t ≡ map (text_of names.now (texts_of symbols.now row.now)) variables.now) }
{
    let mut texts = Items::new(alloc);
    for x in variables {
        texts.push(text_at(symbols, row[place(names, *x)])?)?;
    }
    Ok(texts)
}

// The number of a derived variable's text, for the texts of a row.
fn derived_number<F: Fn(u32, &Items<Text>) -> Result<Text, AllocError>, M: Meaning>(
    derivation: &Derivation<'_, '_, F, M>,
    row: &[u32],
    derived: &Derived,
    symbols: &mut Symbols,
) -> Result<u32, AllocError>
    requires computed { IsComputed F.Fn M.apply derivation.now.host.now derivation.now.wanted.now derived.now }
    requires row { IsTextRow symbols.old (length derivation.now.wanted.now) row.now }
    ensures grows { Extends symbols.old symbols.new }
    ensures apart { ValuesDiffer symbols.new }
    ensures within { IfOk result (λ n. n < length symbols.new) }
    ensures value { IfOk result (λ n. value_of symbols.new n
        ≡ Const (derived_value M.apply derivation.now.wanted.now derived.now (texts_of symbols.old row.now))) }
{
    let args = texts_for(
        derivation.alloc,
        derivation.wanted,
        row,
        derived.args.items(),
        symbols,
    )?;
    let text = derivation.host.call(derived.code, &args)?;
    let number = symbols.intern(Value::Const(text))?;
    Ok(number as u32)
}

impl<'a, 'h, F: Fn(u32, &Items<Text>) -> Result<Text, AllocError>, M: Meaning> Derivation<
    'a,
    'h,
    F,
    M,
> {
    /// Puts a row into the buffer, and after it the numbers of the texts of derived variables.
    pub(crate) fn derive(
        &self,
        row: &[u32],
        symbols: &mut Symbols,
        buffer: &mut Vec<u32>,
    ) -> Result<(), AllocError>
        requires computed { Each self.now.derived.now (IsComputed F.Fn M.apply self.now.host.now self.now.wanted.now) }
        requires row { IsTextRow symbols.old (length self.now.wanted.now) row.now }
        ensures grows { Extends symbols.old symbols.new }
        ensures apart { ValuesDiffer symbols.new }
        ensures texts { OnOk result (AllTexts symbols.new buffer.new.items) }
        ensures shown { OnOk result (texts_of symbols.new buffer.new.items
            ≡ with_derived M.apply self.now.wanted.now self.now.derived.now (texts_of symbols.old row.now)) }
    {
        buffer.clear();
        buffer.extend_from_slice(row)?;
        for one in self.derived {
            let number = derived_number(self, row, one, symbols)?;
            buffer.push(number)?;
        }
        Ok(())
    }
}
