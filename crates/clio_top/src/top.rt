// The top call.
ghost use Rattle.dx_stages.specs.Running.{Ran};
ghost use Rattle.dx_stages.specs.Ending.{planned};
ghost use Rattle.dx_funcs.specs.Judging.{Decides, tested};
ghost use Rattle.dx_funcs.specs.Serving.{Serves, offered};
ghost use Rattle.clio_steps.specs.Steps.{program};
ghost use Rattle.clio_top.specs.Commands.{IsInRange, run_stages, stages_of};
ghost use Rattle.clio_top.specs.Right.{IsRight};

use crate::command::{Command, command_of};
use crate::demo::demo_plan;
use crate::exchanging::exchange_plan;
use crate::showing::show_plan;
use clio_answer::answer_plan;
use clio_compare::compare_plan;
use clio_ending::{Done, Ending, Refusal, as_ending};
use clio_judge::judge_plan;
use dx_base::{Items, Text};
use dx_funcs::{Host, Meaning, Tests};
use dx_ports::{Inputs, Outputs};
use dx_stages::{Plan, Stop, carry_out};
use std::alloc::{AllocError, Global};

// What a command writes.
fn plan_command<I: Inputs, F, P, M>(
    alloc: Global,
    command: Command,
    inputs: &mut I,
    host: &Host<F, M>,
    tests: &Tests<P, M>,
) -> Result<Plan<Done>, Stop<Refusal>>
where
    F: Fn(u32, &Items<Text>) -> Result<Text, AllocError>,
    P: Fn(u32, &Text) -> Result<bool, AllocError>,
    M: Meaning,
    requires serves { Serves F.Fn M.apply host.now }
    requires decides { Decides P.Fn M.passes tests.now }
    requires range { IsInRange command }
    ensures { Ran (stages_of (program (offered host.now) (tested tests.now) M.apply M.passes) command) (tt {0}) (planned result)
        (I.state inputs.old) (I.state inputs.new) }
{
    match command {
        Command::Exchanging { mode, nested } => exchange_plan(
            alloc, inputs, host, tests, mode, nested,
        ),
        Command::Showing { mode } => show_plan(alloc, inputs, host, tests, mode),
        Command::Demonstrating { number, mode } => demo_plan(alloc, number, host, tests, mode),
        Command::Answering => answer_plan(alloc, inputs, host, tests),
        Command::Comparing => compare_plan(alloc, inputs, host, tests),
        Command::Judging => judge_plan(alloc, inputs, host, tests),
    }
}

// What the words ask for.
fn plan_words<I: Inputs, F, P, M>(
    alloc: Global,
    words: &[Text],
    inputs: &mut I,
    host: &Host<F, M>,
    tests: &Tests<P, M>,
) -> Result<Plan<Done>, Stop<Refusal>>
where
    F: Fn(u32, &Items<Text>) -> Result<Text, AllocError>,
    P: Fn(u32, &Text) -> Result<bool, AllocError>,
    M: Meaning,
    requires serves { Serves F.Fn M.apply host.now }
    requires decides { Decides P.Fn M.passes tests.now }
    ensures { Ran (run_stages (program (offered host.now) (tested tests.now) M.apply M.passes)) words.now (planned result)
        (I.state inputs.old) (I.state inputs.new) }
{
    match command_of(words) {
        Some(command) => plan_command(alloc, command, inputs, host, tests),
        None => Err(Stop::Refused(Refusal::Usage)),
    }
}

/// Runs the command that the words say. `exchange` reads `mapping.clio` and the files of the source, puts those of
/// the target and says the summary; `show` says rules and script; `demo` exchanges files that it makes, and says
/// counts; `answer` also reads `query.clio`, and puts the certain answers; `judge` also reads a given target, and
/// says the verdict; `compare` also reads `other.clio`, says whether the rules of each imply those of the other, and
/// puts two instances for a direction that is not so. Everything is computed before the first file is put.
///
/// A world is a look-up from names to bytes. There is one in which all that the reads of this run have answered
/// is so, and which is what the inputs hold, if they show it; and in each such world all that is promised is so
/// (specs/Right): what is done is as the words ask for it, after `Clash` there is no solution, what is left after any
/// ending, and that what can be done is done, if no call outside failed and memory suffices. In general the stages of
/// the words (`run_stages`) give this ending there, and what was written is what they allow.
pub fn run<I: Inputs, O: Outputs, F, P, M>(
    alloc: Global,
    words: &Vec<Text>,
    inputs: &mut I,
    outputs: &mut O,
    host: &Host<F, M>,
    tests: &Tests<P, M>,
) -> Ending
where
    F: Fn(u32, &Items<Text>) -> Result<Text, AllocError>,
    P: Fn(u32, &Text) -> Result<bool, AllocError>,
    M: Meaning,
    requires serves { Serves F.Fn M.apply host.now }
    requires decides { Decides P.Fn M.passes tests.now }
    ensures { IsRight (program (offered host.now) (tested tests.now) M.apply M.passes) words.now.items result
        (I.state inputs.old) (I.state inputs.new) (O.state outputs.old) (O.state outputs.new)
        (O.faults outputs.old) (O.faults outputs.new) }
{
    let plan = plan_words(alloc, words, inputs, host, tests);
    as_ending(carry_out(plan, outputs))
}
