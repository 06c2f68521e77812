// The files of a demo as what a run reads from.
ghost use Rattle.std.specs.Prelude.{None, Some};
ghost use Rattle.dx_base.specs.Entries.{file_map};

use dx_base::{File, Text};
use dx_ports::{FetchFault, Inputs, ReadLog, bytes_named};

/// Files in memory, of which no read ever fails.
#[derive(Drop)]
pub(crate) struct DemoInputs {
    pub files: Vec<File>,
    pub log: ReadLog,
}

impl Inputs for DemoInputs {
    ghost state = { λ d. record {
      holds = Some (file_map d.files.items);
      answered = d.log.answers;
      faults = 0;
      stopped = None;
    } };

    fn fetch(&mut self, name: &Text, limit: u64, into: &mut Vec<u8>) -> Result<(), FetchFault> {
        into.clear();
        let Some(bytes) = bytes_named(&self.files, name) else {
            self.log.missed(name.bytes());
            return Err(FetchFault::Absent);
        };
        if bytes.len() as u64 > limit {
            self.log.longer(name.bytes(), &[limit]);
            return Err(FetchFault::Long);
        }
        into.extend_from_slice(bytes)?;
        self.log.found(name.bytes(), into);
        Ok(())
    }
}
