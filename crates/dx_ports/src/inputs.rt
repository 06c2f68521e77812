// What is read from: files by name.
ghost use Rattle.std.specs.Prelude.{◌≡◌, ◌≤◌, ◌<◌, [], length, Some, None, OnOk, OnErr, IfSome, IsErrOf, IsSomeAnd};
ghost use Rattle.std.specs.FinMap.{get};
ghost use Rattle.dx_ports.specs.States.{InputState, answered_then};
ghost use Rattle.dx_ports.specs.Faults.{Rose};
ghost use Rattle.dx_ports.specs.declared.inputs.FetchFault.TheVariants.{Memory};

use dx_base::Text;
use std::alloc::AllocError;
use thiserror::Error;

/// Why a file was not fetched.
#[derive(Clone, Copy, Debug, PartialEq, Eq, Error)]
pub enum FetchFault {
    #[error("there is no such file")]
    Absent,
    #[error("the file is too long")]
    Long,
    #[error("the file cannot be read")]
    Failed,
    #[error("out of memory")]
    Memory,
}

impl From<AllocError> for FetchFault {
    ghost from_gives = { λ _ e. e ≡ Memory };

    fn from(_: AllocError) -> Self {
        FetchFault::Memory
    }
}

/// What is read from. No call changes what it holds.
pub trait Inputs {
    /// What it tells: the bytes by name, what the reads have answered, how many have failed, and the name at which one failed. A call
    /// that does not fail changes none of it but what was answered.
    ghost state: { Self → InputState };

    /// The bytes of a file of at most `limit` bytes; a longer one is refused. They are put into `into`, in place of
    /// what it has.
    ///
    /// # Errors
    ///
    /// Where the inputs tell what they hold, `Absent`: there is no file of this name, and `Long`: the file has more
    /// than `limit` bytes. `Failed`: a read failed, and was counted. `Memory` if there is no memory. `into` is empty
    /// after each of them.
    fn fetch(&mut self, name: &Text, limit: u64, into: &mut Vec<u8>) -> Result<(), FetchFault>
        ensures kept { (state self.new).holds ≡ (state self.old).holds }
        ensures counted { (state self.old).faults ≤ (state self.new).faults }
        ensures answered { (state self.new).answered ≡ answered_then (state self.old).answered name.now limit result into.new.items }

        ensures bytes { IfSome (state self.old).holds (λ m. OnOk result (get m name.now ≡ Some into.new.items)) }
        ensures bound { OnOk result (length into.new.items ≤ limit) }
        ensures refused { OnErr result (into.new.items ≡ []) }

        ensures absent { IfSome (state self.old).holds (λ m. IsErrOf result FetchFault.Absent → get m name.now ≡ None) }
        ensures long { IfSome (state self.old).holds (λ m. IsErrOf result FetchFault.Long
            → IsSomeAnd (get m name.now) (λ bytes. limit < length bytes)) }
        ensures failed { IsErrOf result FetchFault.Failed → Rose (state self.old).faults (state self.new).faults }
        ensures named { IsErrOf result FetchFault.Failed → IfSome (state self.new).stopped (λ n. n ≡ name.now) }
        ensures steady { ¬ (IsErrOf result FetchFault.Failed) → (state self.new).faults ≡ (state self.old).faults }
        ensures stays { ¬ (IsErrOf result FetchFault.Failed) → (state self.new).stopped ≡ (state self.old).stopped };
}
