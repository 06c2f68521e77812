// Values under numbers.
ghost use Rattle.std.specs.Prelude.{◌≡◌, ◌<◌, ◌≤◌, ◌^◌, ℕ, [], ◌∷◌, ◌++◌, IfOk, IfSome, OnOk, OnErr, Some, length};
ghost use Rattle.std.specs.Bool.{OnTrue};
ghost use Rattle.std.specs.declared.cmp.Ordering.TheVariants.{Less};
ghost use Rattle.dx_base.specs.Members.{Each, ◌∈◌};
ghost use Rattle.dx_model.specs.Values.{value_cmp};
ghost use Rattle.dx_instance.specs.Numbers.{ValuesDiffer, Extends, IsConstant, IsNumberOf, IsOrdering, IsSomeNull, ValuesAscend, value_of};

use crate::hints::hint_of;
use crate::layer::Layer;
use crate::ordering::{Ordered, in_order, key_of};
use crate::values::Values;
use dx_base::no_number_left;
use dx_model::{Value, copy_value};
use indexmap::IndexSet;
use std::alloc::{AllocError, Global};
use std::marker::Model;

/// Distinct values, each under a number. A contract sees the list of the values. The first of them are in order and
/// are found by binary search, at once by their hints or else by themselves; those after them by their hashes. Copies
/// share the layer in which values were put in order; values that came after it, each above all others, are on their own.
#[derive(Drop)]
pub struct Symbols {
    ordered: Layer,
    greater: Vec<Value>,
    later: IndexSet<Value>,
}

impl Model for Symbols {
    ghost use Rattle.std.specs.Prelude.{List, ◌++◌, ◌<◌, ◌^◌, length};
    ghost use Rattle.dx_model.specs.declared.values.Value.{Value as Cell};
    ghost use Rattle.dx_instance.specs.Numbers.{ValuesDiffer, ValuesAscend};

    ghost Value = { List Cell };

    ghost view = { λ s. s.ordered ++ s.greater.items ++ s.later.keys };

    ghost invariant = { λ s. ValuesAscend (s.ordered ++ s.greater.items)
        × ValuesDiffer (s.ordered ++ s.greater.items ++ s.later.keys)
        × (length (s.ordered ++ s.greater.items ++ s.later.keys) < 2 ^ 32) };
}

// The number of a value among values in order, by binary search.
#[inline(never)]
fn searched(ordered: &[Value], value: &Value) -> Option<usize>
    requires { ValuesAscend ordered.now }
    ensures { IsNumberOf ordered.now value.now result }
{
    match ordered.binary_search(value) {
        Ok(number) => Some(number),
        Err(_) => None,
    }
}

// The number of a value among values in order. While a source is read there are none, and this is seen without a call.
#[inline(always)]
fn number_in(ordered: &[Value], value: &Value) -> Option<usize>
    requires { ValuesAscend ordered.now }
    ensures { IsNumberOf ordered.now value.now result }
{
    if ordered.is_empty() {
        return None;
    }
    searched(ordered, value)
}

// The number of a value among values in order, which lie in two parts.
#[inline(always)]
fn number_among(first: &[Value], second: &[Value], value: &Value) -> Option<usize>
    requires ascend { ValuesAscend (first.now ++ second.now) }
    requires few { length (first.now ++ second.now) < 2 ^ 32 }
    ensures { IsNumberOf (first.now ++ second.now) value.now result }
{
    if let Some(number) = number_in(first, value) {
        return Some(number);
    }
    match number_in(second, value) {
        Some(number) => Some(first.len() + number),
        None => None,
    }
}

impl Symbols {
    /// No values.
    pub fn new(alloc: Global) -> Symbols
        ensures { result ≡ [] }
    {
        Symbols {
            ordered: Layer::empty(),
            greater: Vec::new(alloc),
            later: IndexSet::new(alloc),
        }
    }

    /// Makes room for so many more values, so that they go in without the others being moved or their places being found
    /// anew: after values in order for greater ones, else for any. If there is no memory for it, no room is made. The values
    /// stay as they are.
    pub fn make_room(&mut self, more: u64)
        ensures { self.new ≡ self.old }
    {
        if self.later.is_empty() && !self.ordered.values().is_empty() {
            self.greater.reserve(more as usize).ok();
        } else {
            self.later.reserve(more as usize).ok();
        }
    }

    /// How many values there are.
    pub fn len(&self) -> u64
        ensures len { result ≡ length self.now }

        // What holds of all symbols.
        ensures apart { ValuesDiffer self.now }
        ensures few { length self.now < 2 ^ 32 }
    {
        (self.ordered.values().len() + self.greater.len() + self.later.len()) as u64
    }

    // The values, lent.
    #[inline(always)]
    fn lent(&self) -> Values<'_>
        ensures { result ≡ self.now }
    {
        Values {
            first: self.ordered.values(),
            second: &self.greater,
            third: self.later.as_slice(),
        }
    }

    /// Whether all values are known to be in order.
    pub fn is_ordered(&self) -> bool
        ensures { OnTrue result (ValuesAscend self.now) }
    {
        self.later.is_empty()
    }

    /// The value under a number, lent.
    pub fn value(&self, symbol: u64) -> &Value
        requires { symbol < length self.now }
        ensures { result.now ≡ value_of self.now symbol }
    {
        self.lent().value(symbol)
    }

    /// If all values are in order, the number of the first null: constants come before nulls. Without nulls, how many
    /// values there are.
    pub fn first_null(&self) -> u64
        ensures within { result ≤ length self.now }
        ensures constants { ValuesAscend self.now → (n : ℕ) → n < result → IsConstant (value_of self.now n) }
        ensures nulls { ValuesAscend self.now → (n : ℕ) → result ≤ n → n < length self.now → IsSomeNull (value_of self.now n) }
    {
        let mut low = 0u64;
        let mut high = self.len();
        while low < high {
            let middle = low + (high - low) / 2;
            match self.value(middle) {
                Value::Const(_) => low = middle + 1,
                Value::Null(_) => high = middle,
            }
        }
        low
    }

    // The number of the value, if the hints tell it at once.
    fn hinted(&self, value: &Value) -> Option<usize>
        ensures { IfSome result (λ number. IsNumberOf self.now value.now (Some number)) }
    {
        let hints = self.ordered.hints();
        if hints.is_empty() {
            return None;
        }
        let hint = hint_of(key_of(value), value);
        let Ok(number) = hints.binary_search(&hint) else {
            return None;
        };
        let ordered = self.ordered.values();
        if number < ordered.len() && ordered[number].is(value) {
            Some(number)
        } else {
            None
        }
    }

    /// The number of the value, if it has one.
    pub fn find(&self, value: &Value) -> Option<u64>
        ensures { IsNumberOf self.now value.now result }
    {
        if let Some(number) = self.hinted(value) {
            return Some(number as u64);
        }
        let ordered = self.ordered.values();
        match number_among(ordered, &self.greater, value) {
            Some(number) => Some(number as u64),
            None => match self.later.get_index_of(value) {
                Some(number) => Some((ordered.len() + self.greater.len() + number) as u64),
                None => None,
            },
        }
    }

    /// The number of the value, which goes last if it is new. All others keep their numbers.
    ///
    /// # Errors
    ///
    /// `AllocError` if there is no memory, or no number is left: all stays as it was.
    pub fn intern(&mut self, value: Value) -> Result<u64, AllocError>
        ensures within { IfOk result (λ n. n < length self.new) }
        ensures number { IfOk result (λ n. value_of self.new n ≡ value) }
        ensures there { OnOk result (value ∈ self.old → self.new ≡ self.old) }
        ensures fresh { OnOk result (¬ (value ∈ self.old) → self.new ≡ self.old ++ value ∷ []) }
        ensures err { OnErr result (self.new ≡ self.old) }
        ensures grows { Extends self.old self.new }
        ensures apart { ValuesDiffer self.new }
        ensures few { length self.new < 2 ^ 32 }
    {
        let ordered = self.ordered.values();
        if let Some(number) = number_among(ordered, &self.greater, &value) {
            return Ok(number as u64);
        }
        let before = ordered.len() + self.greater.len();
        let count = before + self.later.len();
        if count >= 4_294_967_295 {
            return Err(no_number_left(count as u64));
        }
        let (number, _) = self.later.insert_full(value)?;
        Ok((before + number) as u64)
    }

    /// One value more, which is above all others. It goes last, so that values in order stay in order.
    ///
    /// # Errors
    ///
    /// `AllocError` if there is no memory, or no number is left: all stays as it was.
    pub fn push_greater(&mut self, value: Value) -> Result<u64, AllocError>
        requires { Each self.old (λ v. value_cmp v value ≡ Less) }
        ensures number { IfOk result (λ n. n ≡ length self.old) }
        ensures pushed { OnOk result (self.new ≡ self.old ++ value ∷ []) }
        ensures ascend { OnOk result (ValuesAscend self.old → ValuesAscend self.new) }
        ensures err { OnErr result (self.new ≡ self.old) }
        ensures few { length self.new < 2 ^ 32 }
    {
        let number = self.ordered.values().len() + self.greater.len() + self.later.len();
        if number >= 4_294_967_295 {
            return Err(no_number_left(number as u64));
        }
        if self.later.is_empty() {
            self.greater.push(value)?;
        } else {
            self.later.insert_full(value)?;
        }
        Ok(number as u64)
    }

    /// Symbols of these values, which are in order.
    pub(crate) fn from_ordered(alloc: Global, values: Layer) -> Symbols
        requires { length values < 2 ^ 32 }
        ensures { result ≡ values }
    {
        prove!(values.values().len() < 4_294_967_296);
        Symbols {
            ordered: values,
            greater: Vec::new(alloc),
            later: IndexSet::new(alloc),
        }
    }

    /// All values in order, and the place of each old number there. The texts lie one after the other in memory.
    ///
    /// # Errors
    ///
    /// `AllocError` if there is no memory.
    pub fn into_order(self, alloc: Global) -> Result<Ordered, AllocError>
        ensures { IfOk result (λ o. IsOrdering self o.symbols o.ranks.items) }
    {
        in_order(alloc, &self.lent())
    }

    /// A copy: the same values under the same numbers. What was put in order is shared and not copied.
    ///
    /// # Errors
    ///
    /// `AllocError` if there is no memory.
    pub fn copy(&self, alloc: Global) -> Result<Symbols, AllocError>
        ensures { IfOk result (λ s. s ≡ self.now) }
    {
        Ok(Symbols {
            ordered: self.ordered.copy()?,
            greater: copies_of(alloc, &self.greater)?,
            later: set_of(alloc, self.later.as_slice())?,
        })
    }
}

// Copies of values.
fn copies_of(alloc: Global, values: &[Value]) -> Result<Vec<Value>, AllocError>
    ensures { IfOk result (λ copies. copies.items ≡ values.now) }
{
    let mut copies = Vec::with_capacity(alloc, values.len())?;
    for value in values {
        copies.push(copy_value(value)?)?;
    }
    Ok(copies)
}

// Copies of distinct values as a set, in the same order.
fn set_of(alloc: Global, values: &[Value]) -> Result<IndexSet<Value>, AllocError>
    requires { ValuesDiffer values.now }
    ensures { IfOk result (λ set. set.keys ≡ values.now) }
{
    let mut set = IndexSet::new(alloc);
    for value in values {
        set.insert_full(copy_value(value)?)?;
    }
    Ok(set)
}
