// How a run ends.
ghost use Rattle.std.specs.Prelude.{◌≡◌};
ghost use Rattle.dx_stages.specs.Running.{with_refusal};
ghost use Rattle.clio_ending.specs.Ending.{ending_of, refusal_ending, source_refusal, status_of};

use crate::faults::{OtherFault, QueryFault};
use clio_accept::MapFault;
use clio_source::{RowsFault, SourceRefusal};
use dx_base::{Items, Limit, Text};
use dx_compare::Comparison;
use dx_exchange::{Clash, Exchange};
use dx_judge::Verdict;
use dx_model::Tuples;
use dx_stages::{Ended, Stop};

/// The answers of a query.
#[derive(Drop)]
pub struct Answers {
    /// The exchange whose target was asked.
    pub exchange: Exchange,
    /// The certain answers, ascending.
    pub rows: Tuples,
}

/// What a run has done.
#[derive(Drop)]
pub enum Done {
    /// The files were put, and the summary was said.
    Exchanged(Exchange),
    /// The rules were said, and their script.
    Shown,
    /// The counts of a demo were said.
    Demo(Exchange),
    /// The file of a query's answers was put, and the summary was said.
    Answered(Answers),
    /// The verdict on a given target was said.
    Judged(Verdict),
    /// What refutes a direction was put, and the comparison was said.
    Compared(Comparison),
}

/// How a run ends.
#[derive(Drop)]
pub enum Ending {
    Done(Done),
    /// The words are not those of a command.
    Usage,
    /// There is no solution. The names are those of the clash's table, of its key's columns and of its column.
    Clash {
        clash: Clash,
        table: Text,
        key: Items<Text>,
        column: Text,
    },
    Mapping(MapFault),
    Rows {
        file: Text,
        fault: RowsFault,
    },
    /// A count passed its number.
    Limit(Limit),
    /// A file could not be read.
    ReadFault {
        file: Text,
    },
    /// Something could not be written. So many files were written whole, the first of the list.
    WriteFault {
        files: u64,
    },
    /// Memory ran out.
    Memory,
    /// What is wrong with the query.
    Query(QueryFault),
    /// What is wrong with the second of two mappings, or with the two together.
    Other(OtherFault),
}

/// Why a run is refused. Each is an ending by the same name.
#[derive(Drop)]
pub enum Refusal {
    Usage,
    Clash {
        clash: Clash,
        table: Text,
        key: Items<Text>,
        column: Text,
    },
    Mapping(MapFault),
    Rows {
        file: Text,
        fault: RowsFault,
    },
    Limit(Limit),
    Query(QueryFault),
    Other(OtherFault),
}

impl Ending {
    /// The exit status of the program.
    pub fn status(&self) -> u8
        ensures { result ≡ status_of self.now }
    {
        match self {
            Ending::Done(_) => 0,
            Ending::Usage => 2,
            Ending::Clash { .. } => 3,
            Ending::Mapping(_) => 4,
            Ending::Rows { .. } => 5,
            Ending::Limit(_) => 6,
            Ending::ReadFault { .. } => 7,
            Ending::WriteFault { .. } => 8,
            Ending::Memory => 9,
            Ending::Query(_) => 10,
            Ending::Other(_) => 11,
        }
    }
}

// The ending of a run that is refused.
fn of_refusal(refusal: Refusal) -> Ending
    ensures { result ≡ refusal_ending refusal }
{
    match refusal {
        Refusal::Usage => Ending::Usage,
        Refusal::Clash {
            clash,
            table,
            key,
            column,
        } => Ending::Clash {
            clash,
            table,
            key,
            column,
        },
        Refusal::Mapping(fault) => Ending::Mapping(fault),
        Refusal::Rows { file, fault } => Ending::Rows { file, fault },
        Refusal::Limit(limit) => Ending::Limit(limit),
        Refusal::Query(fault) => Ending::Query(fault),
        Refusal::Other(fault) => Ending::Other(fault),
    }
}

/// The ending of a run that ended so.
pub fn as_ending(ended: Ended<Done, Refusal>) -> Ending
    ensures { result ≡ ending_of ended }
{
    match ended {
        Ended::Done(done) => Ending::Done(done),
        Ended::Refused(refusal) => of_refusal(refusal),
        Ended::ReadFault(file) => Ending::ReadFault { file },
        Ended::WriteFault(files) => Ending::WriteFault { files },
        Ended::Memory => Ending::Memory,
    }
}

/// What it came to that source or given files were read, with a refusal of that as one of the run.
pub fn with_source_refusal<T>(read: Result<T, Stop<SourceRefusal>>) -> Result<T, Stop<Refusal>>
    ensures { result ≡ with_refusal source_refusal read }
{
    match read {
        Ok(value) => Ok(value),
        Err(Stop::Refused(SourceRefusal::Rows { file, fault })) => {
            Err(Stop::Refused(Refusal::Rows { file, fault }))
        }
        Err(Stop::Refused(SourceRefusal::Limit(limit))) => {
            Err(Stop::Refused(Refusal::Limit(limit)))
        }
        Err(Stop::Failed(file)) => Err(Stop::Failed(file)),
        Err(Stop::Memory) => Err(Stop::Memory),
    }
}
