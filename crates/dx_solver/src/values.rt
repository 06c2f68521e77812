// Lists of numbers that ascend.
ghost use Rattle.std.specs.Prelude.{◌≡◌, ◌≤◌, IfOk, length, true, ℕ};
ghost use Rattle.dx_base.specs.Members.{◌∈◌, ◌⊆◌};

use std::alloc::{AllocError, Global};
use std::marker::Model;

/// Numbers that ascend, each once. A contract sees their list.
#[derive(Drop)]
pub(crate) struct Values {
    list: Vec<u32>,
}

impl Model for Values {
    ghost use Rattle.std.specs.Prelude.{List, ℕ};
    ghost use Rattle.std.specs.List.Sorted.{IsStrictlyIncreasing};

    ghost Value = { List ℕ };

    ghost view = { λ v. v.list.items };

    ghost invariant = { λ v. IsStrictlyIncreasing v.list.items };
}

impl Values {
    /// These numbers.
    pub(crate) fn of(list: Vec<u32>) -> Values
        ensures all { list.items ⊆ result }
        ensures few { length result ≤ length list.items }
    {
        let mut list = list;
        list.sort_unstable();
        list.dedup();
        Values { list }
    }

    /// The numbers in order, lent.
    pub(crate) fn items(&self) -> &[u32]
        ensures { result.now ≡ self.now }
    {
        &self.list
    }

    /// Whether the number is among them.
    pub(crate) fn has(&self, number: u32) -> bool
        ensures { number ∈ self.now → result ≡ true }
    {
        self.list.binary_search(&number).is_ok()
    }

    /// A copy.
    ///
    /// # Errors
    ///
    /// `AllocError` if there is no memory.
    pub(crate) fn copy(&self, alloc: Global) -> Result<Values, AllocError>
        ensures { IfOk result (λ v. v ≡ self.now) }
    {
        let mut list = Vec::with_capacity(alloc, self.list.len())?;
        list.extend_from_slice(&self.list)?;
        Ok(Values { list })
    }
}
