// Values as they are read.
ghost use Rattle.std.specs.Prelude.{◌≡◌, ◌<◌, ◌^◌, [], ◌∷◌, ◌++◌, IfOk, IfSome, OnOk, OnErr, length};
ghost use Rattle.dx_instance.specs.Numbers.{Extends, IsOrdering, value_of};

use crate::ordering::{Ordered, in_order};
use crate::values::Values;
use dx_base::no_number_left;
use dx_model::Value;
use std::alloc::{AllocError, Global};
use std::hash::{BuildHasher, BuildHasherDefault, FoldHasher};
use std::marker::Model;

// So many values are remembered at first, and at most.
const FEWEST: usize = 1 << 10;

const MOST: usize = 1 << 22;

/// Values as they are read, each under a number. A contract sees their list, in which a value may stand more than once: of
/// some values the numbers are remembered, so that one which is met often mostly has one number. What is remembered may be
/// of another value, and is compared then; so it costs time, or a place, and nothing else.
#[derive(Drop)]
pub struct Gathered {
    alloc: Global,
    values: Vec<Value>,
    remembered: Vec<u32>,
    missed: usize,
}

impl Model for Gathered {
    ghost use Rattle.std.specs.Prelude.{List, ◌<◌, ◌^◌, length};
    ghost use Rattle.dx_model.specs.declared.values.Value.{Value as Cell};

    ghost Value = { List Cell };

    ghost view = { λ g. g.values.items };

    ghost invariant = { λ g. length g.values.items < 2 ^ 32 };
}

// A number that is equal for equal values.
fn code_of(value: &Value) -> u64 {
    let hashing: BuildHasherDefault<FoldHasher> = BuildHasherDefault::new();
    hashing.hash_one(value)
}

impl Gathered {
    /// No values.
    pub fn new(alloc: Global) -> Gathered
        ensures { result ≡ [] }
    {
        Gathered {
            alloc,
            values: Vec::new(alloc),
            remembered: Vec::new(alloc),
            missed: 0,
        }
    }

    /// How many values there are.
    pub fn len(&self) -> u64
        ensures len { result ≡ length self.now }
        ensures few { length self.now < 2 ^ 32 }
    {
        self.values.len() as u64
    }

    /// One value more, at the end.
    ///
    /// # Errors
    ///
    /// `AllocError` if there is no memory, or no number is left: all stays as it was.
    pub fn push(&mut self, value: Value) -> Result<u64, AllocError>
        ensures number { IfOk result (λ n. n ≡ length self.old) }
        ensures pushed { OnOk result (self.new ≡ self.old ++ value ∷ []) }
        ensures few { length self.new < 2 ^ 32 }
        ensures err { OnErr result (self.new ≡ self.old) }
    {
        let number = self.values.len();
        if number >= 4_294_967_295 {
            return Err(no_number_left(number as u64));
        }
        self.values.push(value)?;
        Ok(number as u64)
    }

    // Where the number of a value with this code is remembered.
    fn place_of(&self, code: u64) -> usize {
        (code as usize) & self.remembered.len().wrapping_sub(1)
    }

    // The number of the value, if it is remembered.
    fn recall(&self, code: u64, value: &Value) -> Option<u64>
        ensures number { IfSome result (λ n. (n < length self.now) × (value_of self.now n ≡ value.now)) }
        ensures few { length self.now < 2 ^ 32 }
    {
        let place = self.place_of(code);
        if place >= self.remembered.len() {
            return None;
        }
        let number = self.remembered[place] as usize;
        if number < self.values.len() && self.values[number].is(value) {
            Some(number as u64)
        } else {
            None
        }
    }

    // Room for more numbers, once so many were not remembered. Those that were are forgotten then.
    fn make_room(&mut self)
        ensures { self.new ≡ self.old }
    {
        let room = self.remembered.len();
        if self.missed < room / 2 || room >= MOST {
            return;
        }
        if let Ok(remembered) = vec![in self.alloc; 0u32; room.saturating_mul(4).max(FEWEST)] {
            self.remembered = remembered;
            self.missed = 0;
        }
    }

    // Remembers the number of a value with this code.
    fn remember(&mut self, code: u64, number: u32)
        ensures { self.new ≡ self.old }
    {
        self.make_room();
        self.missed = self.missed.saturating_add(1);
        let place = self.place_of(code);
        if place < self.remembered.len() {
            self.remembered[place] = number;
        }
    }

    /// The number of the value, which goes last if none is remembered.
    ///
    /// # Errors
    ///
    /// `AllocError` if there is no memory, or no number is left: all stays as it was.
    pub fn put(&mut self, value: Value) -> Result<u64, AllocError>
        ensures within { IfOk result (λ n. n < length self.new) }
        ensures number { IfOk result (λ n. value_of self.new n ≡ value) }
        ensures grows { Extends self.old self.new }
        ensures few { length self.new < 2 ^ 32 }
        ensures err { OnErr result (self.new ≡ self.old) }
    {
        let code = code_of(&value);
        if let Some(number) = self.recall(code, &value) {
            return Ok(number);
        }
        let number = self.push(value)?;
        self.remember(code, number as u32);
        Ok(number)
    }

    /// The distinct values in order, and the place of each number there. Their texts lie one after the other in memory.
    ///
    /// # Errors
    ///
    /// `AllocError` if there is no memory.
    pub fn into_order(self, alloc: Global) -> Result<Ordered, AllocError>
        ensures { IfOk result (λ o. IsOrdering self o.symbols o.ranks.items) }
    {
        let Gathered { values, .. } = self;
        in_order(
            alloc,
            &Values {
                first: &values,
                second: &[],
                third: &[],
            },
        )
    }
}
