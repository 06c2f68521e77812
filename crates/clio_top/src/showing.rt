// A mapping, shown: its rules, and their script.
ghost use Rattle.std.specs.Prelude.{◌≡◌, IfOk};
ghost use Rattle.dx_stages.specs.Ending.{planned, planned_of};
ghost use Rattle.dx_stages.specs.Running.{Ran};
ghost use Rattle.dx_funcs.specs.Judging.{tested};
ghost use Rattle.dx_funcs.specs.Serving.{offered};
ghost use Rattle.clio_files.specs.Texts.{FitTexts};
ghost use Rattle.clio_steps.specs.Steps.{program};
ghost use Rattle.clio_top.specs.Running.{show_stages, shown_plan};

use clio_accept::Mapping;
use clio_ending::{Done, Refusal};
use clio_files::{contents, print_texts};
use clio_steps::{Side, read_mapping};
use dx_base::{Items, Text};
use dx_exchange::Mode;
use dx_funcs::{Host, Meaning, Tests};
use dx_ports::Inputs;
use dx_stages::{Plan, Stop};
use std::alloc::{AllocError, Global};

// What is said of a mapping that is shown.
fn plan_shown<F, M>(
    alloc: Global,
    mapping: &Mapping,
    host: &Host<F, M>,
    mode: Mode,
) -> Result<Plan<Done>, AllocError>
where
    F: Fn(u32, &Items<Text>) -> Result<Text, AllocError>,
    M: Meaning,
    requires { FitTexts mapping.now.source mapping.now.target (offered host.now) mapping.now.rules }
    ensures { IfOk result (λ p. planned_of p ≡ shown_plan (offered host.now) mode mapping.now) }
{
    let printed = print_texts(alloc, mapping, host, mode)?;
    let text = contents(alloc, &printed)?;
    Ok(Plan {
        done: Done::Shown,
        files: Vec::new(alloc),
        text,
    })
}

/// What `show` says.
pub(crate) fn show_plan<I: Inputs, F, P, M>(
    alloc: Global,
    inputs: &mut I,
    host: &Host<F, M>,
    tests: &Tests<P, M>,
    mode: Mode,
) -> Result<Plan<Done>, Stop<Refusal>>
where
    F: Fn(u32, &Items<Text>) -> Result<Text, AllocError>,
    P: Fn(u32, &Text) -> Result<bool, AllocError>,
    M: Meaning,
    ensures { Ran (show_stages (program (offered host.now) (tested tests.now) M.apply M.passes) mode) (tt {0}) (planned result)
        (I.state inputs.old) (I.state inputs.new) }
{
    let mapping = read_mapping(alloc, inputs, Side::First, host, tests)?;
    Ok(plan_shown(alloc, &mapping, host, mode)?)
}
