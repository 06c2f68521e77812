// The exchange of the source files of a mapping text.
ghost use Rattle.dx_stages.specs.Running.{Ran};
ghost use Rattle.dx_funcs.specs.Judging.{Decides, tested};
ghost use Rattle.dx_funcs.specs.Serving.{Serves, offered};
ghost use Rattle.clio_steps.specs.Steps.{exchanges, program};

use crate::source::read_used_rows;
use crate::target::exchange_rows;
use crate::texts::{Side, read_mapping};
use clio_accept::Mapping;
use clio_ending::Refusal;
use dx_base::{Items, Text};
use dx_exchange::{Exchange, Mode};
use dx_funcs::{Host, Meaning, Tests};
use dx_ports::Inputs;
use dx_stages::Stop;
use std::alloc::{AllocError, Global};

/// A mapping, and the exchange of the rows of its source files that pass its conditions.
/// What is read agrees with these rows on the columns that its rules use, and so has the same exchange (proofs/SameExchange).
pub fn exchange_files<I: Inputs, F, P, M>(
    alloc: Global,
    inputs: &mut I,
    host: &Host<F, M>,
    tests: &Tests<P, M>,
    mode: Mode,
) -> Result<(Mapping, Exchange), Stop<Refusal>>
where
    F: Fn(u32, &Items<Text>) -> Result<Text, AllocError>,
    P: Fn(u32, &Text) -> Result<bool, AllocError>,
    M: Meaning,
    requires serves { Serves F.Fn M.apply host.now }
    requires decides { Decides P.Fn M.passes tests.now }
    ensures { Ran (exchanges (program (offered host.now) (tested tests.now) M.apply M.passes) mode) (tt {0}) result
        (I.state inputs.old) (I.state inputs.new) }
{
    let mapping = read_mapping(alloc, inputs, Side::First, host, tests)?;
    let (rows, _) = read_used_rows(alloc, inputs, &mapping, tests)?;
    let exchange = exchange_rows(alloc, &mapping, &rows, host, mode)?;
    Ok((mapping, exchange))
}
