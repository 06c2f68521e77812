// Outputs in memory, which can be made to fail.
ghost use Rattle.std.specs.Prelude.{◌≡◌, [], ◌∷◌, Some, OnOk, OnErr, IsErrOf, IsTrue, Contains, min, take, ◌↔◌, ◌⊎◌, ◌+◌, ◌-◌, ◌^◌, ◌≤◌, ◌<◌};
ghost use Rattle.std.specs.Bool.{OnTrue, MatchBool};
ghost use Rattle.dx_base.specs.Entries.{entries_of};
ghost use Rattle.dx_ports.specs.Told.{appended, GrewByPart, GrewByPrefix};
ghost use Rattle.dx_ports.specs.Faults.{Rose};

use crate::{Outputs, PutFault};
use dx_base::{File, Text};
use std::alloc::Global;

/// Outputs in memory. They tell what was put and said, and start with nothing.
#[derive(Drop)]
pub struct MemOutputs {
    alloc: Global,
    files: Vec<File>,
    said: Vec<u8>,
    fails: Vec<u64>,
    keep: u64,
    calls: u64,
    faults: u64,
}

impl MemOutputs {
    ghost use Rattle.dx_ports.specs.MemOutputs.{next_write, failing_writes, kept_front};

    /// Outputs with no files. The calls of `put` and `say` with these numbers fail, counted together from 0.
    pub fn new(alloc: Global, fails: Vec<u64>) -> MemOutputs
        ensures files { (⟦<MemOutputs as Outputs>⟧.state result).files ≡ Some [] }
        ensures said { (⟦<MemOutputs as Outputs>⟧.state result).said ≡ Some [] }
        ensures faults { ⟦<MemOutputs as Outputs>⟧.faults result ≡ 0 }
        ensures calls { next_write result ≡ 0 }
        ensures fails { failing_writes result ≡ fails.items }
        ensures keep { kept_front result ≡ 0 }
    {
        MemOutputs::cutting(alloc, fails, 0)
    }

    /// Outputs as those of `new`, of which a `say` that fails says the first `keep` bytes, or all if there are fewer.
    pub fn cutting(alloc: Global, fails: Vec<u64>, keep: u64) -> MemOutputs
        ensures files { (⟦<MemOutputs as Outputs>⟧.state result).files ≡ Some [] }
        ensures said { (⟦<MemOutputs as Outputs>⟧.state result).said ≡ Some [] }
        ensures faults { ⟦<MemOutputs as Outputs>⟧.faults result ≡ 0 }
        ensures calls { next_write result ≡ 0 }
        ensures fails { failing_writes result ≡ fails.items }
        ensures keep { kept_front result ≡ keep }
    {
        MemOutputs {
            alloc,
            files: Vec::new(alloc),
            said: Vec::new(alloc),
            fails,
            keep,
            calls: 0,
            faults: 0,
        }
    }

    /// The files that were put, in order.
    pub fn files(&self) -> &[File]
        ensures { (⟦<MemOutputs as Outputs>⟧.state self.now).files ≡ Some (entries_of result.now) }
    {
        &self.files
    }

    /// What was said.
    pub fn said(&self) -> &[u8]
        ensures { (⟦<MemOutputs as Outputs>⟧.state self.now).said ≡ Some result.now }
    {
        &self.said
    }

    // Counts a call, and tells whether it fails.
    fn fails_now(&mut self) -> bool
        ensures told { IsTrue result ↔ Contains self.old.fails.items self.old.calls }
        ensures counted { self.new.calls ≡ min (self.old.calls + 1) (2 ^ 64 - 1) }
        ensures raised { OnTrue result (Rose self.old.faults self.new.faults) }
        ensures once { MatchBool result (self.new.faults ≡ min (self.old.faults + 1) (2 ^ 64 - 1)) (self.new.faults ≡ self.old.faults) }
        ensures rises { self.old.faults ≤ self.new.faults }
        ensures fails { self.new.fails ≡ self.old.fails }
        ensures keep { self.new.keep ≡ self.old.keep }
        ensures files { self.new.files ≡ self.old.files }
        ensures said { self.new.said ≡ self.old.said }
    {
        let call = self.calls;
        self.calls = call.saturating_add(1);
        let fails = self.fails.contains(&call);
        if fails {
            self.faults = self.faults.saturating_add(1);
        }
        fails
    }

    // What the next call says of these bytes: all, or their front if it fails.
    fn heard<'a>(&self, bytes: &'a [u8]) -> &'a [u8]
        ensures cut { Contains self.now.fails.items self.now.calls → result.now ≡ take self.now.keep bytes.now }
        ensures whole { ¬ (Contains self.now.fails.items self.now.calls) → result.now ≡ bytes.now }
    {
        if !self.fails.contains(&self.calls) {
            return bytes;
        }
        let room = bytes.len();
        let end = if self.keep < room as u64 {
            self.keep as usize
        } else {
            room
        };
        &bytes[..end]
    }
}

impl Outputs for MemOutputs {
    ghost use Rattle.dx_ports.specs.MemOutputs.{next_write, failing_writes, kept_front};

    ghost state = { λ m. record { files = Some (entries_of m.files.items); said = Some m.said.items } };

    ghost faults = { λ m. m.faults };

    fn put(&mut self, name: &Text, bytes: &[u8]) -> Result<(), PutFault>
        ensures put { OnOk result ((⟦<MemOutputs as Outputs>⟧.state self.new).files
            ≡ appended (⟦<MemOutputs as Outputs>⟧.state self.old).files ((name.now, bytes.now) ∷ [])) }
        ensures refused { OnErr result
            ((⟦<MemOutputs as Outputs>⟧.state self.new).files ≡ (⟦<MemOutputs as Outputs>⟧.state self.old).files) }
        ensures said { (⟦<MemOutputs as Outputs>⟧.state self.new).said ≡ (⟦<MemOutputs as Outputs>⟧.state self.old).said }
        ensures counted { ⟦<MemOutputs as Outputs>⟧.faults self.old ≤ ⟦<MemOutputs as Outputs>⟧.faults self.new }
        ensures failed { IsErrOf result PutFault.Failed
            → Rose (⟦<MemOutputs as Outputs>⟧.faults self.old) (⟦<MemOutputs as Outputs>⟧.faults self.new) }
        ensures steady { ¬ (IsErrOf result PutFault.Failed)
            → ⟦<MemOutputs as Outputs>⟧.faults self.new ≡ ⟦<MemOutputs as Outputs>⟧.faults self.old }

        // What the trait leaves open: which calls fail, and that each of them counts one fault.
        ensures only_these { IsErrOf result PutFault.Failed → Contains (failing_writes self.old) (next_write self.old) }
        ensures these { Contains (failing_writes self.old) (next_write self.old) → IsErrOf result PutFault.Failed }
        ensures raised { IsErrOf result PutFault.Failed
            → ⟦<MemOutputs as Outputs>⟧.faults self.new ≡ min (⟦<MemOutputs as Outputs>⟧.faults self.old + 1) (2 ^ 64 - 1) }
        ensures number { next_write self.new ≡ min (next_write self.old + 1) (2 ^ 64 - 1) }
        ensures same_numbers { failing_writes self.new ≡ failing_writes self.old }
        ensures same_front { kept_front self.new ≡ kept_front self.old }
    {
        if self.fails_now() {
            return Err(PutFault::Failed);
        }
        let file = File {
            name: name.copy()?,
            bytes: bytes.to_vec(self.alloc)?,
        };
        self.files.push(file)?;
        Ok(())
    }

    fn say(&mut self, bytes: &[u8]) -> Result<(), PutFault>
        ensures said { OnOk result ((⟦<MemOutputs as Outputs>⟧.state self.new).said
            ≡ appended (⟦<MemOutputs as Outputs>⟧.state self.old).said bytes.now) }
        ensures nothing { IsErrOf result PutFault.Memory
            → (⟦<MemOutputs as Outputs>⟧.state self.new).said ≡ (⟦<MemOutputs as Outputs>⟧.state self.old).said }
        ensures cut { IsErrOf result PutFault.Failed → (⟦<MemOutputs as Outputs>⟧.state self.new).said
            ≡ appended (⟦<MemOutputs as Outputs>⟧.state self.old).said (take (kept_front self.old) bytes.now) }
        ensures refused { OnErr result (GrewByPrefix (⟦<MemOutputs as Outputs>⟧.state self.old).said bytes.now
            (⟦<MemOutputs as Outputs>⟧.state self.new).said) }
        ensures unsaid { IsErrOf result PutFault.Memory → GrewByPart (⟦<MemOutputs as Outputs>⟧.state self.old).said bytes.now
            (⟦<MemOutputs as Outputs>⟧.state self.new).said }
        ensures files { (⟦<MemOutputs as Outputs>⟧.state self.new).files ≡ (⟦<MemOutputs as Outputs>⟧.state self.old).files }
        ensures counted { ⟦<MemOutputs as Outputs>⟧.faults self.old ≤ ⟦<MemOutputs as Outputs>⟧.faults self.new }
        ensures failed { IsErrOf result PutFault.Failed
            → Rose (⟦<MemOutputs as Outputs>⟧.faults self.old) (⟦<MemOutputs as Outputs>⟧.faults self.new) }
        ensures steady { ¬ (IsErrOf result PutFault.Failed)
            → ⟦<MemOutputs as Outputs>⟧.faults self.new ≡ ⟦<MemOutputs as Outputs>⟧.faults self.old }

        // What the trait leaves open: which calls fail, and that each of them counts one fault. A call for which there
        // is no room changes nothing, and one that says nothing needs none.
        ensures only_these { IsErrOf result PutFault.Failed → Contains (failing_writes self.old) (next_write self.old) }
        ensures these { Contains (failing_writes self.old) (next_write self.old)
            → IsErrOf result PutFault.Failed ⊎ (IsErrOf result PutFault.Memory × (0 < kept_front self.old)) }
        ensures raised { IsErrOf result PutFault.Failed
            → ⟦<MemOutputs as Outputs>⟧.faults self.new ≡ min (⟦<MemOutputs as Outputs>⟧.faults self.old + 1) (2 ^ 64 - 1) }
        ensures number { ¬ (IsErrOf result PutFault.Memory) → next_write self.new ≡ min (next_write self.old + 1) (2 ^ 64 - 1) }
        ensures uncounted { IsErrOf result PutFault.Memory → next_write self.new ≡ next_write self.old }
        ensures same_numbers { failing_writes self.new ≡ failing_writes self.old }
        ensures same_front { kept_front self.new ≡ kept_front self.old }
    {
        let heard = self.heard(bytes);
        self.said.extend_from_slice(heard)?;
        if self.fails_now() {
            return Err(PutFault::Failed);
        }
        Ok(())
    }
}
