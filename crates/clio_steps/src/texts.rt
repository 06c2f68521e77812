// The mapping texts, read and accepted.
ghost use Rattle.std.specs.Prelude.{◌≡◌, ◌≤◌, Some, length};
ghost use Rattle.dx_stages.specs.Running.{Gives, Ran};
ghost use Rattle.dx_stages.specs.Stages.{saying_if};
ghost use Rattle.dx_funcs.specs.Judging.{tested};
ghost use Rattle.dx_funcs.specs.Serving.{offered};
ghost use Rattle.clio_accept.specs.Accepting.{accepting};
ghost use Rattle.clio_accept.specs.declared.fault.AcceptFault.TheVariants.{Mapping as MappingFault};
ghost use Rattle.clio_steps.specs.Steps.{absent_text, program, text_bytes, text_name, side_refusal, text_stages};

use clio_accept::{AcceptFault, MapFault, Mapping, accept};
use clio_ending::{OtherFault, Refusal};
use dx_base::limits::TEXT_BYTES;
use dx_base::{Count, Items, Limit, Text};
use dx_funcs::{Host, Meaning, Tests};
use dx_ports::Inputs;
use dx_stages::{Stop, fetch};
use std::alloc::{AllocError, Global};

/// Which of two mappings.
#[derive(Clone, Copy, PartialEq, Eq)]
pub enum Side {
    /// The mapping of `mapping.clio`.
    First,
    /// The one that it is compared with.
    Second,
}

impl Side {
    // The name of its file.
    fn file(self) -> &'static str
        ensures { result.now ≡ text_name self }
    {
        match self {
            Side::First => "mapping.clio",
            Side::Second => "other.clio",
        }
    }

    // Its file is absent.
    fn absent(self) -> Refusal
        ensures { result ≡ absent_text self }
    {
        match self {
            Side::First => Refusal::Mapping(MapFault::Absent),
            Side::Second => Refusal::Other(OtherFault::Absent),
        }
    }

    // Its text has this fault.
    fn refusal(self, fault: MapFault) -> Refusal
        ensures { side_refusal self (MappingFault fault) ≡ Some result }
    {
        match self {
            Side::First => Refusal::Mapping(fault),
            Side::Second => Refusal::Other(OtherFault::Mapping(fault)),
        }
    }
}

// The mapping of the text's bytes.
fn accept_text<F, P, M>(
    alloc: Global,
    text: &[u8],
    side: Side,
    host: &Host<F, M>,
    tests: &Tests<P, M>,
) -> Result<Mapping, Stop<Refusal>>
where
    F: Fn(u32, &Items<Text>) -> Result<Text, AllocError>,
    P: Fn(u32, &Text) -> Result<bool, AllocError>,
    M: Meaning,
    requires { length text.now ≤ text_bytes }
    ensures { Gives (saying_if (side_refusal side) (accepting (offered host.now) (tested tests.now))) text.now result }
{
    match accept(alloc, text, host, tests) {
        Ok(mapping) => Ok(mapping),
        Err(AcceptFault::Mapping(fault)) => Err(Stop::Refused(side.refusal(fault))),
        Err(AcceptFault::Limit(limit)) => Err(Stop::Refused(Refusal::Limit(limit))),
        Err(AcceptFault::Memory) => Err(Stop::Memory),
    }
}

/// The mapping of a mapping text.
pub fn read_mapping<I: Inputs, F, P, M>(
    alloc: Global,
    inputs: &mut I,
    side: Side,
    host: &Host<F, M>,
    tests: &Tests<P, M>,
) -> Result<Mapping, Stop<Refusal>>
where
    F: Fn(u32, &Items<Text>) -> Result<Text, AllocError>,
    P: Fn(u32, &Text) -> Result<bool, AllocError>,
    M: Meaning,
    ensures { Ran (text_stages (program (offered host.now) (tested tests.now) M.apply M.passes) side) (tt {0}) result
        (I.state inputs.old) (I.state inputs.new) }
{
    let name = Text::from_str(alloc, side.file())?;
    let long = Refusal::Limit(Limit {
        what: Count::TextBytes,
        number: TEXT_BYTES,
    });
    let text = fetch(alloc, inputs, name, TEXT_BYTES, side.absent(), long)?;
    accept_text(alloc, text.items(), side, host, tests)
}
