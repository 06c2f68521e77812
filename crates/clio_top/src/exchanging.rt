// Data, exchanged, and what is written of it.
ghost use Rattle.std.specs.Prelude.{IfOk};
ghost use Rattle.dx_stages.specs.Ending.{planned, planned_of};
ghost use Rattle.dx_stages.specs.Running.{Ran};
ghost use Rattle.dx_funcs.specs.Judging.{Decides, tested};
ghost use Rattle.dx_funcs.specs.Serving.{Serves, offered};
ghost use Rattle.clio_files.specs.Files.{FitsFiles};
ghost use Rattle.clio_files.specs.Texts.{FitTexts};
ghost use Rattle.clio_steps.specs.Steps.{program};
ghost use Rattle.clio_top.specs.Running.{IsPlanOf, exchange_stages};

use clio_accept::Mapping;
use clio_ending::{Done, Refusal};
use clio_files::{Output, into_files, print_files, summary};
use clio_steps::exchange_files;
use dx_base::{Items, Text};
use dx_exchange::{Exchange, Mode};
use dx_funcs::{Host, Meaning, Tests};
use dx_ports::Inputs;
use dx_stages::{Plan, Stop};
use std::alloc::{AllocError, Global};

// What is written of an exchange.
fn plan_exchange<F, M>(
    alloc: Global,
    mapping: &Mapping,
    exchange: Exchange,
    host: &Host<F, M>,
    mode: Mode,
    nested: bool,
) -> Result<Plan<Done>, AllocError>
where
    F: Fn(u32, &Items<Text>) -> Result<Text, AllocError>,
    M: Meaning,
    requires texts { FitTexts mapping.now.source mapping.now.target (offered host.now) mapping.now.rules }
    requires fits { FitsFiles mapping.now.rules mapping.now.target exchange }
    ensures { IfOk result (λ p. IsPlanOf (offered host.now) mode nested mapping.now exchange (planned_of p)) }
{
    let output = Output { mode, nested };
    let printed = print_files(alloc, mapping, &exchange, host, output)?;
    let text = summary(alloc, &printed)?;
    let files = into_files(alloc, printed)?;
    Ok(Plan {
        done: Done::Exchanged(exchange),
        files,
        text,
    })
}

/// What `exchange` writes.
pub(crate) fn exchange_plan<I: Inputs, F, P, M>(
    alloc: Global,
    inputs: &mut I,
    host: &Host<F, M>,
    tests: &Tests<P, M>,
    mode: Mode,
    nested: bool,
) -> Result<Plan<Done>, Stop<Refusal>>
where
    F: Fn(u32, &Items<Text>) -> Result<Text, AllocError>,
    P: Fn(u32, &Text) -> Result<bool, AllocError>,
    M: Meaning,
    requires serves { Serves F.Fn M.apply host.now }
    requires decides { Decides P.Fn M.passes tests.now }
    ensures { Ran (exchange_stages (program (offered host.now) (tested tests.now) M.apply M.passes) mode nested) (tt {0}) (planned result)
        (I.state inputs.old) (I.state inputs.new) }
{
    let (mapping, exchange) = exchange_files(alloc, inputs, host, tests, mode)?;
    Ok(plan_exchange(alloc, &mapping, exchange, host, mode, nested)?)
}
