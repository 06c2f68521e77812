//! The program: it reads `./NAME`, writes `./out/NAME`, and says to standard output.
//!
//! `main` gives the top call `run` of `clio_top` the words of the command line, the working folder (`clio_folder`),
//! and the shipped conversions and row tests, says the message of an ending that is not `Done` to standard error, and
//! ends with its status (specs/Exit). If there is no memory for the words, the conversions or the row tests, nothing
//! is printed, and the status is 9.
#![tactic(auto)]

ghost use Rattle.std.specs.Prelude.{◌≡◌, [], IfOk, length, map};
ghost use Rattle.std.specs.Process.{exit_status};
ghost use Rattle.dx_base.specs.Members.{◌∈◌};
ghost use Rattle.dx_funcs.specs.Judging.{Decides};
ghost use Rattle.dx_funcs.specs.Offers.{IsListed};
ghost use Rattle.dx_funcs.specs.Serving.{Serves};
ghost use Rattle.dx_funcs.specs.Shipped.{shipped_apply, shipped_conversions, shipped_passes, shipped_row_tests};
ghost use Rattle.dx_funcs.specs.Judging.{tested};
ghost use Rattle.dx_funcs.specs.Serving.{offered};
ghost use Rattle.clio_ending.specs.Ending.{status_of};
ghost use Rattle.clio_ending.specs.declared.ending.Ending.TheVariants.{Memory};
ghost use Rattle.clio_ending.specs.declared.ending.Ending.{Ending as EndingOf};
ghost use Rattle.clio_steps.specs.Steps.{program};
ghost use Rattle.clio_top.specs.Right.{IsRight};
ghost use Rattle.clio.specs.Exit.{IsExit};

use clio_ending::status_and_message;
use clio_folder::{FolderInputs, FolderOutputs};
use clio_terminal::{ShownText, shown};
use clio_top::{Ending, run};
use dx_base::{Items, Text};
use dx_funcs::{Host, Meaning, Shipped, Tests, check_row, convert, shipped_list, shipped_tests};
use dx_ports::{Inputs, Outputs};
use std::alloc::{AllocError, Global};
use std::process::ExitCode;
use std::rt::Env;
use std::{env, io, process};

// So many bytes are taken at first, and given back. The C library maps a block afresh if it is greater than each that
// it mapped before and got back; all others come from the memory that it has. So what is given back later is used
// again.
const FIRST_BLOCK: usize = 24 << 20;

// A block of so many bytes, of which none is used.
#[inline(never)]
fn first_block(alloc: Global) -> Result<Vec<u8>, AllocError>
    ensures { IfOk result (λ block. block.items ≡ []) }
{
    Vec::with_capacity(alloc, FIRST_BLOCK)
}

// The words after the program's name. If one of them is no text, the list is the empty word alone, which no
// command has.
fn words(rt: &(impl Env + AllocGlobal)) -> Result<Vec<Text>, AllocError> {
    let alloc = rt.alloc();
    let mut words = Vec::new(alloc);
    match env::args(rt) {
        Ok(arguments) => {
            for word in arguments.skip(1) {
                words.push(Text::from_string(alloc, word)?)?;
            }
        }
        Err(error) if error.kind() == io::ErrorKind::OutOfMemory => return Err(AllocError),
        Err(_) => words.push(Text::from_str(alloc, "")?)?,
    }
    Ok(words)
}

// What a terminal may be given of a message.
fn line_of(alloc: Global, message: Result<Text, AllocError>) -> Result<ShownText, AllocError> {
    let message = message?;
    shown(alloc, message.as_str())
}

// Says to standard error what is shown of a message, and never a message itself.
fn tell(rt: &impl Eprint, line: &ShownText) {
    // If standard error takes nothing, there is nobody to be told.
    eprintln!(rt; "{}", line.as_str()).ok();
}

// Says the message of an ending, and gives its status. If there is no memory for the message, nothing is said.
fn ended(rt: &(impl Eprint + AllocGlobal), ending: Ending) -> ExitCode
    ensures { exit_status result ≡ status_of ending }
{
    let (status, message) = status_and_message(rt.alloc(), ending);
    if status != 0 {
        if let Ok(line) = line_of(rt.alloc(), message) {
            tell(rt, &line);
        }
    }
    ExitCode::from(status)
}

// The status of a run that had no memory to begin. Nothing is printed.
fn no_memory(_: AllocError) -> ExitCode
    ensures { exit_status result ≡ status_of Memory }
{
    ExitCode::from(9)
}

// Whether a text passes a shipped row test.
fn passes(code: u32, text: &Text) -> Result<bool, AllocError>
    requires { code ∈ map (λ t. t.code) shipped_row_tests }
    ensures { IfOk result (λ b. b ≡ shipped_passes code text.now) }
{
    check_row(code, text)
}

// A run of these words with the shipped conversions and row tests, over what is read from and written to, and its
// status.
fn run_shipped<I: Inputs, O: Outputs>(
    rt: &(impl Eprint + AllocGlobal),
    words: &Vec<Text>,
    inputs: &mut I,
    outputs: &mut O,
) -> ExitCode
    ensures { IsExit words.now.items (exit_status result) (I.state inputs.old) (I.state inputs.new)
        (O.state outputs.old) (O.state outputs.new) (O.faults outputs.old) (O.faults outputs.new) }
{
    let alloc = rt.alloc();
    let list = match shipped_list(alloc) {
        Ok(list) => list,
        Err(error) => return no_memory(error),
    };
    let listed = match shipped_tests(alloc) {
        Ok(listed) => listed,
        Err(error) => return no_memory(error),
    };
    let conversions = |code: u32, args: &Items<Text>| -> Result<Text, AllocError>
        requires { IsListed shipped_conversions code (length args.now) }
        ensures { IfOk result (λ t. t ≡ shipped_apply code args.entry.now) }
    { convert(alloc, code, args) };
    let host: Host<_, Shipped> = Host::build(list, conversions);
    let row_tests = |code: u32, text: &Text| -> Result<bool, AllocError>
        requires { code ∈ map (λ t. t.code) shipped_row_tests }
        ensures { IfOk result (λ b. b ≡ shipped_passes code text.entry.now) }
    { passes(code, text) };
    let tests: Tests<_, Shipped> = Tests::build(listed, row_tests);
    let ending = run(alloc, words, inputs, outputs, &host, &tests);
    ended(rt, ending)
}

fn main(rt: HostRuntime) -> ExitCode {
    // Without the block all memory comes piece by piece.
    first_block(rt.alloc()).ok();
    let words = match words(&rt) {
        Ok(words) => words,
        Err(error) => return no_memory(error),
    };
    let mut inputs = FolderInputs::new(&rt);
    let mut outputs = FolderOutputs::new(&rt, process::id(rt.process()));
    run_shipped(&rt, &words, &mut inputs, &mut outputs)
}
