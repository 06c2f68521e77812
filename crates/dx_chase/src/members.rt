//! The other members of classes, by number.
ghost use Rattle.std.specs.Prelude.{◌≡◌, ◌<◌, ◌++◌, [], IfOk, OnOk, length, replicate, slice_set};
ghost use Rattle.dx_chase.specs.Slots.{list_at};

use crate::numbers::NumberList;
use std::alloc::{AllocError, Global};
use std::marker::Model;
use std::mem;

/// A list of numbers for each number. A contract sees the list of them. A number that never had any takes four bytes:
/// its slot is 0, and else one more than the place of its list.
#[derive(Drop)]
pub struct Members {
    slots: Vec<u32>,
    lists: Vec<NumberList>,
}

impl Model for Members {
    ghost use Rattle.std.specs.Prelude.{List, ℕ};
    ghost use Rattle.dx_chase.specs.Slots.{SlotsFit, lists_of};

    ghost Value = { List (List ℕ) };

    ghost view = { λ m. lists_of m.lists.items m.slots.items };

    ghost invariant = { λ m. SlotsFit m.lists.items m.slots.items };
}

// So many zeros.
#[tactic(auto, using(std::proofs::lemmas::List::replicate_more))]
fn no_slots(alloc: Global, n: u32) -> Result<Vec<u32>, AllocError>
    ensures { IfOk result (λ v. v.items ≡ replicate n 0) }
{
    let mut all = Vec::with_capacity(alloc, n as usize)?;
    for i in 0..n {
        all.push(0)?;
    }
    Ok(all)
}

/// Puts a list at the end of another.
///
/// # Errors
///
/// `AllocError` if there is no memory.
pub fn append(list: &mut NumberList, more: &[u32]) -> Result<(), AllocError>
    ensures { OnOk result (list.new ≡ list.old ++ more.now) }
{
    for x in more {
        list.push(*x)?;
    }
    Ok(())
}

impl Members {
    /// No numbers for any of so many.
    ///
    /// # Errors
    ///
    /// `AllocError` if there is no memory.
    pub fn new(alloc: Global, n: u32) -> Result<Members, AllocError>
        ensures { IfOk result (λ all. all ≡ replicate n []) }
    {
        let slots = no_slots(alloc, n)?;
        Ok(Members {
            slots,
            lists: Vec::new(alloc),
        })
    }

    /// The list of a number, which has none after it.
    pub fn take(&mut self, alloc: Global, v: u32) -> NumberList
        requires { v < length self.old }
        ensures list { result ≡ list_at self.old v }
        ensures rest { self.new ≡ slice_set self.old v [] }
    {
        let slot = self.slots[v as usize];
        if slot == 0 {
            return NumberList::new(alloc);
        }
        mem::replace(&mut self.lists[slot as usize - 1], NumberList::new(alloc))
    }

    /// Puts numbers at the end of the list of a number.
    ///
    /// # Errors
    ///
    /// `AllocError` if there is no memory: the lists are of no use then.
    pub fn append(&mut self, alloc: Global, v: u32, more: &[u32]) -> Result<(), AllocError>
        requires { v < length self.old }
        ensures { OnOk result (self.new ≡ slice_set self.old v (list_at self.old v ++ more.now)) }
    {
        let slot = self.slots[v as usize];
        if slot == 0 {
            let list = NumberList::from_slice(alloc, more)?;
            self.lists.push(list)?;
            self.slots[v as usize] = self.lists.len() as u32;
            return Ok(());
        }
        append(&mut self.lists[slot as usize - 1], more)?;
        Ok(())
    }
}
