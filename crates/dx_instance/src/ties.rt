// Values whose keys are equal, told apart by the lengths of their texts and by second keys.
ghost use Rattle.std.specs.Prelude.{◌≡◌, ◌<◌, ◌-◌, ◌^◌, ◌↔◌, IfOk, IsTrue, MatchBool, length, slice_index, slice_index_or};
ghost use Rattle.dx_instance.specs.Keys.{SecondKeys, SecondKeysOrNone, SortsNumbers, IsKeyIn, IsRepeat, IsRise, NumbersAreKeyed, ValuesAreKeyed, long_cmp, places_of, tie_cmp};
ghost use Rattle.dx_instance.specs.Numbers.{value_of};
ghost use Rattle.dx_instance.specs.Ranks.{DistinctRanks, ShortLengths, TieKeys};

use crate::ordering::second_key_of;
use crate::values::Values;
use dx_model::{NullId, Value};
use std::alloc::{AllocError, Global};
use std::cmp::Ordering;

// The second key of each number.
fn second_keys(alloc: Global, symbols: &Values) -> Result<Vec<u64>, AllocError>
    ensures { IfOk result (λ seconds. SecondKeys symbols.now seconds.items (length symbols.now)) }
{
    let count = symbols.len();
    let mut seconds = Vec::with_capacity(alloc, count as usize)?;
    for number in 0..count {
        seconds.push(second_key_of(symbols.value(number)))?;
    }
    Ok(seconds)
}

// Whether some text has bytes after the eighth.
fn any_long(lengths: &[u8]) -> bool {
    lengths.iter().any(|length| *length > 8)
}

// The second key of each number, or none at all if no text has a second one: then values are compared at once.
fn seconds_if_long(alloc: Global, symbols: &Values, lengths: &[u8]) -> Result<Vec<u64>, AllocError>
    ensures { IfOk result (λ seconds. SecondKeysOrNone symbols.now seconds.items) }
{
    if !any_long(lengths) {
        return Ok(Vec::new(alloc));
    }
    second_keys(alloc, symbols)
}

// The short length of the text under a number, and 0 if there is none.
fn length_or_zero(lengths: &[u8], number: u32) -> u8
    ensures { result ≡ slice_index lengths.now number }
{
    let place = number as usize;
    if place < lengths.len() {
        lengths[place]
    } else {
        0
    }
}

// The second key of a number, and 0 if there is none.
fn second_or_zero(seconds: &[u64], number: u32) -> u64
    ensures { result ≡ slice_index seconds.now number }
{
    let place = number as usize;
    if place < seconds.len() {
        seconds[place]
    } else {
        0
    }
}

/// Values, the short lengths of their texts, and their second keys: what tells in which order they come whose keys are equal.
#[derive(Drop)]
pub(crate) struct Ties<'a> {
    values: &'a Values<'a>,
    lengths: &'a [u8],
    seconds: Vec<u64>,
    blank: Value,
}

impl<'a> Ties<'a> {
    /// What tells the order of these values, which have texts of these short lengths.
    ///
    /// # Errors
    ///
    /// `AllocError` if there is no memory.
    pub(crate) fn new(
        alloc: Global,
        values: &'a Values<'a>,
        lengths: &'a [u8],
    ) -> Result<Ties<'a>, AllocError>
        requires { ShortLengths values.now lengths.now (length values.now) }
        ensures values { IfOk result (λ t. t.values.now ≡ values.now) }
        ensures tied { IfOk result (λ t. TieKeys t.values.now t.lengths.now t.seconds.items) }
    {
        let seconds = seconds_if_long(alloc, values, lengths)?;
        let blank = Value::Null(NullId {
            rule: 0,
            var: 0,
            row: 0,
        });
        Ok(Ties {
            values,
            lengths,
            seconds,
            blank,
        })
    }

    // The value under a number, and the blank if there is none.
    fn value_or_blank(&self, number: u32) -> &Value
        ensures { result.now ≡ slice_index_or self.now.values.now number self.now.blank }
    {
        if (number as u64) < self.values.len() {
            self.values.value(number as u64)
        } else {
            &self.blank
        }
    }

    // How the values under two numbers compare, by their second keys first.
    fn compare_long(&self, a: u32, b: u32) -> Ordering
        ensures { result ≡ long_cmp self.now.values.now self.now.seconds.items self.now.blank a b }
    {
        match second_or_zero(&self.seconds, a).cmp(&second_or_zero(&self.seconds, b)) {
            Ordering::Equal => self.value_or_blank(a).order(self.value_or_blank(b)),
            other => other,
        }
    }

    // How the values under two numbers compare whose keys are equal. The lengths of short texts tell it. Few keys of different
    // values tie, so it stands apart: what is left of a comparison is small, and the sort takes it in without a call.
    #[inline(never)]
    fn compare(&self, a: u32, b: u32) -> Ordering
        ensures { result ≡ tie_cmp self.now.values.now self.now.lengths.now self.now.seconds.items self.now.blank a b }
    {
        let length = length_or_zero(self.lengths, a);
        match length.cmp(&length_or_zero(self.lengths, b)) {
            Ordering::Equal => {
                if length <= 8 {
                    return Ordering::Equal;
                }
                self.compare_long(a, b)
            }
            other => other,
        }
    }

    /// The numbers in the order of their values, with their keys.
    pub(crate) fn in_order(&self, keys: Vec<(u64, u32)>) -> Vec<(u64, u32)>
        requires tied { TieKeys self.now.values.now self.now.lengths.now self.now.seconds.items }
        requires keyed { ValuesAreKeyed self.now.values.now keys.items (length self.now.values.now) }
        ensures sorted { SortsNumbers self.now.values.now (places_of result.items) }
        ensures keyed { NumbersAreKeyed self.now.values.now result.items }
    {
        let mut keys = keys;
        keys.sort_unstable_by(|a, b| match a.0.cmp(&b.0) {
            Ordering::Equal => self.compare(a.1, b.1),
            other => other,
        });
        keys
    }

    // Whether two keys stand for one value.
    fn is_same(&self, a: (u64, u32), b: (u64, u32)) -> bool
        requires tied { TieKeys self.now.values.now self.now.lengths.now self.now.seconds.items }
        requires first { IsKeyIn self.now.values.now a }
        requires second { IsKeyIn self.now.values.now b }
        ensures { IsTrue result ↔ (value_of self.now.values.now a.1 ≡ value_of self.now.values.now b.1) }
    {
        a.0 == b.0 && self.compare(a.1, b.1).is_eq()
    }

    // Whether the key at a place is the first that stands for its value.
    fn is_first(&self, keys: &[(u64, u32)], place: usize) -> bool
        requires place { place < length keys.now }
        requires tied { TieKeys self.now.values.now self.now.lengths.now self.now.seconds.items }
        requires sorted { SortsNumbers self.now.values.now (places_of keys.now) }
        requires keyed { NumbersAreKeyed self.now.values.now keys.now }
        ensures { MatchBool result (IsRise self.now.values.now (places_of keys.now) place)
            (IsRepeat self.now.values.now (places_of keys.now) place) }
    {
        if place == 0 {
            return true;
        }
        !self.is_same(keys[place - 1], keys[place])
    }

    /// Of keys in order the first of each value, and the place of each number's value among them.
    ///
    /// # Errors
    ///
    /// `AllocError` if there is no memory.
    pub(crate) fn firsts_of(
        &self,
        alloc: Global,
        keys: &[(u64, u32)],
    ) -> Result<(Vec<(u64, u32)>, Vec<u32>), AllocError>
        requires few { length self.now.values.now < 2 ^ 32 }
        requires tied { TieKeys self.now.values.now self.now.lengths.now self.now.seconds.items }
        requires sorted { SortsNumbers self.now.values.now (places_of keys.now) }
        requires keyed { NumbersAreKeyed self.now.values.now keys.now }
        ensures { IfOk result (λ r. DistinctRanks self.now.values.now r.0.items r.1.items) }
    {
        let mut firsts = Vec::with_capacity(alloc, keys.len())?;
        let mut ranks = vec![in alloc; 0u32; keys.len()]?;
        for i in 0..keys.len() {
            if self.is_first(keys, i) {
                firsts.push(keys[i])?;
            }
            ranks[keys[i].1 as usize] = (firsts.len() - 1) as u32;
        }
        Ok((firsts, ranks))
    }
}
