//! Short lists of numbers: what an index looks up, a row, a side of a demand.
ghost use Rattle.std.specs.Prelude.{◌≡◌, [], ◌∷◌, ◌++◌, IfOk, OnOk, OnErr, nat_eq};
ghost use Rattle.std.specs.Cmp.{partial_equiv_from_equiv};
ghost use Rattle.std.specs.Cmp.Lexicographic.{nat_list_eq_equiv, pointwise, bytes_decides};
ghost use Rattle.std.specs.Hash as fed;
ghost use Rattle.std.specs.Hash.{same_Alike};
ghost use Rattle.dx_chase.specs.Mixing.{mixed};

use smallvec::SmallVec;
use std::alloc::{AllocError, Global};
use std::hash::{Hash, Hasher};
use std::marker::Model;

/// Numbers. A contract sees the list of them. Up to six need no memory of their own.
#[derive(Drop)]
pub struct NumberList {
    numbers: SmallVec<u32, 6>,
}

impl Model for NumberList {
    ghost use Rattle.std.specs.Prelude.{List, ℕ};

    ghost Value = { List ℕ };

    ghost view = { λ r. r.numbers.items };
}

// Numbers as one number: few lists have the same.
#[tactic(auto, using(std::proofs::lemmas::List::Sums::fold_more))]
fn mix(numbers: &[u32]) -> u64
    ensures { result ≡ mixed numbers.now }
{
    let mut all: u64 = 0;
    for number in numbers {
        all = all
            .wrapping_mul(0x9e37_79b9_7f4a_7c15)
            .wrapping_add(u64::from(*number));
    }
    all
}

// Whether two lists are the same.
#[tactic(auto, using(crate::proofs::Alike::found_same, crate::proofs::Alike::differ_long, crate::proofs::Alike::differ_at))]
fn are_same(a: &[u32], b: &[u32]) -> bool
    ensures { result ≡ pointwise nat_eq a.now b.now }
{
    if a.len() != b.len() {
        return false;
    }
    for i in 0..a.len() {
        if a[i] != b[i] {
            return false;
        }
    }
    true
}

impl NumberList {
    /// No numbers.
    pub fn new(alloc: Global) -> NumberList
        ensures { result ≡ [] }
    {
        NumberList {
            numbers: SmallVec::new(alloc),
        }
    }

    /// A copy of numbers.
    ///
    /// # Errors
    ///
    /// `AllocError` if there is no memory.
    pub fn from_slice(alloc: Global, numbers: &[u32]) -> Result<NumberList, AllocError>
        ensures { IfOk result (λ copy. copy ≡ numbers.now) }
    {
        Ok(NumberList {
            numbers: SmallVec::from_slice(alloc, numbers)?,
        })
    }

    /// One number more, at the end.
    ///
    /// # Errors
    ///
    /// `AllocError` if there is no memory: the list stays as it was.
    pub fn push(&mut self, number: u32) -> Result<(), AllocError>
        ensures ok { OnOk result (self.new ≡ self.old ++ number ∷ []) }
        ensures err { OnErr result (self.new ≡ self.old) }
    {
        self.numbers.push(number)?;
        Ok(())
    }

    /// The numbers in order, lent.
    pub fn items(&self) -> &[u32]
        ensures { result.now ≡ self.now }
    {
        self.numbers.as_slice()
    }
}

impl PartialEq for NumberList {
    ghost eq = { pointwise nat_eq };

    ghost laws = { partial_equiv_from_equiv nat_list_eq_equiv };

    fn eq(&self, other: &NumberList) -> bool {
        are_same(self.items(), other.items())
    }
}

impl Eq for NumberList {
    ghost laws = { nat_list_eq_equiv };
}

impl Hash for NumberList {
    ghost hash_input = { λ numbers. fed.u64 (mixed numbers) };

    ghost respects_eq = { (same_Alike (λ numbers. fed.u64 (mixed numbers)) bytes_decides).fed };

    fn hash<H: Hasher>(&self, state: &mut H) {
        state.write_u64(mix(self.items()));
    }
}
