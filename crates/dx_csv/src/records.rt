// The records of a table, one at a time.
ghost use Rattle.std.specs.Prelude.{◌≡◌, [], ◌∷◌, IfOk, OnErr, true, false};
ghost use Rattle.csv.specs.Reading.{error_kind, stops_reader};
ghost use Rattle.csv.specs.Records.{fields_of};
ghost use Rattle.dx_csv.specs.Table.{table_records};

use csv::{ByteRecord, Error, ErrorKind, Reader, ReaderBuilder};
use std::alloc::{AllocError, Global};
use std::marker::Model;

/// A reader of records. A contract sees it as the list of the records that it has left.
#[derive(Drop)]
pub(crate) struct Records<'a> {
    rdr: Reader<&'a [u8]>,
    done: bool,
}

impl<'a> Model for Records<'a> {
    ghost use Rattle.std.specs.Prelude.{ℕ, List, [], ◌≡◌, false, Some, if◌then◌else◌};
    ghost use Rattle.dx_csv.specs.Left.{records_left, IsBetween};

    ghost Value = { List (List (List ℕ)) };

    ghost view = { λ a. if a.done then [] else records_left (λ s. Some s.now) a.rdr };

    ghost invariant = { λ a. a.done ≡ false → IsBetween (λ s. Some s.now) a.rdr };
}

impl<'a> Records<'a> {
    pub(crate) fn new(alloc: Global, bytes: &'a [u8]) -> Records<'a>
        ensures { result ≡ table_records bytes.now }
    {
        let rdr = ReaderBuilder::new()
            .has_headers(false)
            .flexible(true)
            .from_reader(alloc, bytes);
        Records { rdr, done: false }
    }

    /// Reads the next record, if there is one. After a refusal nothing is left.
    pub(crate) fn next(&mut self, row: &mut ByteRecord) -> Result<bool, AllocError>
        ensures some { IfOk result (λ found. found ≡ true → self.old ≡ fields_of row.new ∷ self.new) }
        ensures none { IfOk result (λ found. found ≡ false → self.old ≡ []) }
        ensures err { OnErr result (self.new ≡ []) }
    {
        if self.done {
            return Ok(false);
        }
        match self.rdr.read_byte_record(row) {
            Ok(found) => {
                if !found {
                    self.done = true;
                    return Ok(false);
                }
                Ok(true)
            }
            Err(error) => {
                self.done = true;
                Err(want_of_memory(&error))
            }
        }
    }
}

// Why bytes in memory were not read on: there is no memory. The reader also has an error of what it reads from, and no clause
// of `csv` says that bytes in memory give none: that error too is told as want of memory, here alone in the whole program.
fn want_of_memory(error: &Error) -> AllocError
    requires { stops_reader (error_kind error.now) ≡ true }
{
    if error.is_io_error() {
        return AllocError;
    }
    match error.kind() {
        ErrorKind::OutOfMemory => AllocError,
        _ => unreachable!(),
    }
}
