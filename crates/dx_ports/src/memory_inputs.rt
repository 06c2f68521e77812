// Inputs in memory, which can be made to fail.
ghost use Rattle.std.specs.Prelude.{◌≡◌, ◌≤◌, ◌<◌, [], length, Option, Some, None, OnOk, OnErr, IfSome, IsErrOf, IsSomeAnd, Contains, min, ◌+◌, ◌-◌, ◌^◌, ◌⊎◌};
ghost use Rattle.std.specs.Option.{option_copied};
ghost use Rattle.std.specs.FinMap.{get};
ghost use Rattle.dx_base.specs.Entries.{file_map};
ghost use Rattle.dx_ports.specs.Faults.{Rose};
ghost use Rattle.dx_ports.specs.States.{answered_then};

use crate::{FetchFault, Inputs, ReadLog};
use dx_base::{File, Text};
use std::alloc::Global;

/// Inputs in memory. They tell the files that they hold, and after a fault of reading the name.
#[derive(Drop)]
pub struct MemInputs {
    files: Vec<File>,
    fails: Vec<u64>,
    calls: u64,
    faults: u64,
    stopped: Option<Text>,
    log: ReadLog,
}

impl MemInputs {
    ghost use Rattle.dx_ports.specs.MemInputs.{next_call, failing_calls};

    /// Inputs that hold these files, of equal names the first. The calls of `fetch` with these numbers fail, counted
    /// from 0.
    pub fn new(files: Vec<File>, fails: Vec<u64>) -> MemInputs
        ensures holds { (⟦<MemInputs as Inputs>⟧.state result).holds ≡ Some (file_map files.items) }
        ensures answered { (⟦<MemInputs as Inputs>⟧.state result).answered ≡ [] }
        ensures faults { (⟦<MemInputs as Inputs>⟧.state result).faults ≡ 0 }
        ensures stopped { (⟦<MemInputs as Inputs>⟧.state result).stopped ≡ None }
        ensures calls { next_call result ≡ 0 }
        ensures fails { failing_calls result ≡ fails.items }
    {
        MemInputs {
            files,
            fails,
            calls: 0,
            faults: 0,
            stopped: None,
            log: ReadLog::new(),
        }
    }
}

/// The bytes of the first file of this name. None if there is none.
pub fn bytes_named<'a>(files: &'a [File], name: &Text) -> Option<&'a [u8]>
    ensures { option_copied result ≡ get (file_map files.now) name.now }
{
    for file in files {
        if file.name == *name {
            return Some(file.bytes.as_slice());
        }
    }
    None
}

impl Inputs for MemInputs {
    ghost use Rattle.dx_ports.specs.MemInputs.{next_call, failing_calls};

    ghost state = { λ m. record {
      holds = Some (file_map m.files.items);
      answered = m.log.answers;
      faults = m.faults;
      stopped = m.stopped;
    } };

    fn fetch(&mut self, name: &Text, limit: u64, into: &mut Vec<u8>) -> Result<(), FetchFault>
        ensures kept { (⟦<MemInputs as Inputs>⟧.state self.new).holds ≡ (⟦<MemInputs as Inputs>⟧.state self.old).holds }
        ensures counted { (⟦<MemInputs as Inputs>⟧.state self.old).faults ≤ (⟦<MemInputs as Inputs>⟧.state self.new).faults }
        ensures answered { (⟦<MemInputs as Inputs>⟧.state self.new).answered
            ≡ answered_then (⟦<MemInputs as Inputs>⟧.state self.old).answered name.now limit result into.new.items }
        ensures bytes { IfSome (⟦<MemInputs as Inputs>⟧.state self.old).holds
            (λ m. OnOk result (get m name.now ≡ Some into.new.items)) }
        ensures bound { OnOk result (length into.new.items ≤ limit) }
        ensures refused { OnErr result (into.new.items ≡ []) }
        ensures absent { IfSome (⟦<MemInputs as Inputs>⟧.state self.old).holds
            (λ m. IsErrOf result FetchFault.Absent → get m name.now ≡ None) }
        ensures long { IfSome (⟦<MemInputs as Inputs>⟧.state self.old).holds (λ m. IsErrOf result FetchFault.Long
            → IsSomeAnd (get m name.now) (λ bytes. limit < length bytes)) }
        ensures failed { IsErrOf result FetchFault.Failed
            → Rose (⟦<MemInputs as Inputs>⟧.state self.old).faults (⟦<MemInputs as Inputs>⟧.state self.new).faults }
        ensures named { IsErrOf result FetchFault.Failed
            → IfSome (⟦<MemInputs as Inputs>⟧.state self.new).stopped (λ n. n ≡ name.now) }
        ensures steady { ¬ (IsErrOf result FetchFault.Failed)
            → (⟦<MemInputs as Inputs>⟧.state self.new).faults ≡ (⟦<MemInputs as Inputs>⟧.state self.old).faults }
        ensures stays { ¬ (IsErrOf result FetchFault.Failed)
            → (⟦<MemInputs as Inputs>⟧.state self.new).stopped ≡ (⟦<MemInputs as Inputs>⟧.state self.old).stopped }

        // What the trait leaves open: which calls fail, and that each of them counts one fault.
        ensures only_these { IsErrOf result FetchFault.Failed → Contains (failing_calls self.old) (next_call self.old) }
        ensures these { Contains (failing_calls self.old) (next_call self.old)
            → IsErrOf result FetchFault.Failed ⊎ IsErrOf result FetchFault.Memory }
        ensures tells { IsErrOf result FetchFault.Failed → (⟦<MemInputs as Inputs>⟧.state self.new).stopped ≡ Some name.now }
        ensures raised { IsErrOf result FetchFault.Failed
            → (⟦<MemInputs as Inputs>⟧.state self.new).faults ≡ min ((⟦<MemInputs as Inputs>⟧.state self.old).faults + 1) (2 ^ 64 - 1) }
        ensures number { next_call self.new ≡ min (next_call self.old + 1) (2 ^ 64 - 1) }
        ensures same_numbers { failing_calls self.new ≡ failing_calls self.old }
    {
        into.clear();
        let call = self.calls;
        self.calls = call.saturating_add(1);
        let stopped = name.copy()?;
        if self.fails.contains(&call) {
            self.faults = self.faults.saturating_add(1);
            self.stopped = Some(stopped);
            return Err(FetchFault::Failed);
        }
        let Some(bytes) = bytes_named(&self.files, name) else {
            self.log.missed(name.bytes());
            return Err(FetchFault::Absent);
        };
        if bytes.len() as u64 > limit {
            self.log.longer(name.bytes(), &[limit]);
            return Err(FetchFault::Long);
        }
        into.extend_from_slice(bytes)?;
        self.log.found(name.bytes(), into);
        Ok(())
    }
}
