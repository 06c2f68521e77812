//! Short lists of demands.
ghost use Rattle.std.specs.Prelude.{◌≡◌, [], ◌∷◌, ◌++◌, OnOk};

use smallvec::SmallVec;
use std::alloc::{AllocError, Global};
use std::marker::Model;

/// The numbers of demands. A contract sees the list of them. Up to three need no memory of their own.
#[derive(Drop)]
pub struct DemandList {
    numbers: SmallVec<u64, 3>,
}

impl Model for DemandList {
    ghost use Rattle.std.specs.Prelude.{List, ℕ};

    ghost Value = { List ℕ };

    ghost view = { λ l. l.numbers.items };
}

impl DemandList {
    /// No demands.
    pub fn new(alloc: Global) -> DemandList
        ensures { result ≡ [] }
    {
        DemandList {
            numbers: SmallVec::new(alloc),
        }
    }

    /// One demand more, at the end.
    ///
    /// # Errors
    ///
    /// `AllocError` if there is no memory.
    pub fn push(&mut self, number: u64) -> Result<(), AllocError>
        ensures { OnOk result (self.new ≡ self.old ++ number ∷ []) }
    {
        self.numbers.push(number)?;
        Ok(())
    }

    /// The numbers in order, lent.
    pub fn items(&self) -> &[u64]
        ensures { result.now ≡ self.now }
    {
        self.numbers.as_slice()
    }
}
