// What is written to: files by name, and a text that is said.
ghost use Rattle.std.specs.Prelude.{◌≡◌, ℕ, ◌≤◌, [], ◌∷◌, OnOk, OnErr, IsErrOf};
ghost use Rattle.dx_ports.specs.Told.{appended, GrewByPart, GrewByPrefix};
ghost use Rattle.dx_ports.specs.Faults.{Rose};
ghost use Rattle.dx_ports.specs.States.{OutputState};
ghost use Rattle.dx_ports.specs.declared.outputs.PutFault.TheVariants.{Memory};

use dx_base::Text;
use std::alloc::{AllocError, AllocFailed};
use thiserror::Error;

/// Why something was not written.
#[derive(Clone, Copy, Debug, PartialEq, Eq, Error)]
pub enum PutFault {
    #[error("the write failed")]
    Failed,
    #[error("out of memory")]
    Memory,
}

impl From<AllocError> for PutFault {
    ghost from_gives = { λ _ e. e ≡ Memory };

    fn from(_: AllocError) -> Self {
        PutFault::Memory
    }
}

impl<T: Drop> From<AllocFailed<T>> for PutFault {
    ghost from_gives = { λ _ e. e ≡ Memory };

    fn from(_: AllocFailed<T>) -> Self {
        PutFault::Memory
    }
}

/// What is written to. What is told before a call is told after it.
pub trait Outputs {
    /// What it tells: the files written whole, and what was said.
    ghost state: { Self → OutputState };

    /// How many writes have failed; no other call changes it.
    ghost faults: { Self → ℕ };

    /// Writes a file with this name and these bytes.
    ///
    /// # Errors
    ///
    /// `Failed`: a write failed, and was counted. `Memory` if there is no memory. The files that were written whole
    /// are the same then.
    fn put(&mut self, name: &Text, bytes: &[u8]) -> Result<(), PutFault>
        ensures put { OnOk result ((state self.new).files ≡ appended (state self.old).files ((name.now, bytes.now) ∷ [])) }
        ensures refused { OnErr result ((state self.new).files ≡ (state self.old).files) }
        ensures said { (state self.new).said ≡ (state self.old).said }
        ensures counted { faults self.old ≤ faults self.new }
        ensures failed { IsErrOf result PutFault.Failed → Rose (faults self.old) (faults self.new) }
        ensures steady { ¬ (IsErrOf result PutFault.Failed) → faults self.new ≡ faults self.old };

    /// Says these bytes, after what was said.
    ///
    /// # Errors
    ///
    /// `Failed`: a write failed, and was counted. `Memory` if there is no memory. A front of the bytes was said
    /// then, which may be empty; after `Memory` not all of them.
    fn say(&mut self, bytes: &[u8]) -> Result<(), PutFault>
        ensures said { OnOk result ((state self.new).said ≡ appended (state self.old).said bytes.now) }
        ensures refused { OnErr result (GrewByPrefix (state self.old).said bytes.now (state self.new).said) }
        ensures unsaid { IsErrOf result PutFault.Memory → GrewByPart (state self.old).said bytes.now (state self.new).said }
        ensures files { (state self.new).files ≡ (state self.old).files }
        ensures counted { faults self.old ≤ faults self.new }
        ensures failed { IsErrOf result PutFault.Failed → Rose (faults self.old) (faults self.new) }
        ensures steady { ¬ (IsErrOf result PutFault.Failed) → faults self.new ≡ faults self.old };
}
