// Faults outside: each read, each write and each saying fails in turn.
ghost use Rattle.std.specs.Prelude.{◌≡◌, IfOk, length, map};
ghost use Rattle.dx_base.specs.Members.{◌∈◌};
ghost use Rattle.dx_funcs.specs.Offers.{IsListed};
ghost use Rattle.dx_funcs.specs.Judging.{Decides};
ghost use Rattle.dx_funcs.specs.Serving.{Serves};
ghost use Rattle.dx_funcs.specs.Shipped.{shipped_apply, shipped_conversions, shipped_passes, shipped_row_tests};

use crate::tests::shipped::passes;
use clio_ending::status_and_message;
use clio_top::{Ending, run};
use dx_base::{File, Items, Text};
use dx_funcs::{Host, Meaning, Shipped, Tests, convert, shipped_list, shipped_tests};
use dx_ports::{MemInputs, MemOutputs};
use std::alloc::{AllocError, Global};
use std::test::Fail;

/// A mapping: a name goes over, and a phone has no line.
pub const PEOPLE: &str =
    "mapping 1; source { set emp { name; } } target { set person { name, phone; } } \
line emp.name -> person.name;";

/// How a run ended, and what it left.
#[derive(Drop)]
struct Outcome {
    status: u8,
    message: Text,
    outputs: MemOutputs,
}

pub(crate) fn file(alloc: Global, name: &str, bytes: &[u8]) -> Result<File, AllocError> {
    let name = Text::from_str(alloc, name)?;
    let bytes = bytes.to_vec(alloc)?;
    Ok(File { name, bytes })
}

/// A mapping and two rows.
fn files(alloc: Global) -> Result<Vec<File>, AllocError> {
    let mut files = Vec::new(alloc);
    files.push(file(alloc, "mapping.clio", PEOPLE.as_bytes())?)?;
    files.push(file(alloc, "emp.csv", b"name\nann\nbob\n")?)?;
    Ok(files)
}

/// The status and the message of a command of one word on these files, if these calls of the inputs fail.
fn told_of<F, P, M>(
    alloc: Global,
    word: &str,
    reads: Vec<u64>,
    outputs: &mut MemOutputs,
    host: &Host<F, M>,
    tests: &Tests<P, M>,
) -> Result<(u8, Text), AllocError>
where
    F: Fn(u32, &Items<Text>) -> Result<Text, AllocError>,
    P: Fn(u32, &Text) -> Result<bool, AllocError>,
    M: Meaning,
    requires serves { Serves F.Fn M.apply host.now }
    requires decides { Decides P.Fn M.passes tests.now }
{
    let mut words = Vec::new(alloc);
    words.push(Text::from_str(alloc, word)?)?;
    let mut inputs = MemInputs::new(files(alloc)?, reads);
    let ending = run(alloc, &words, &mut inputs, outputs, host, tests);
    let (status, message) = status_and_message(alloc, ending);
    Ok((status, message?))
}

/// The same with the row tests that come with the program.
fn told_by<F: Fn(u32, &Items<Text>) -> Result<Text, AllocError>>(
    alloc: Global,
    word: &str,
    reads: Vec<u64>,
    outputs: &mut MemOutputs,
    host: &Host<F, Shipped>,
) -> Result<(u8, Text), AllocError>
    requires serves { Serves F.Fn ⟦<Shipped as Meaning>⟧.apply host.now }
{
    let row_tests = |code: u32, text: &Text| -> Result<bool, AllocError>
        requires { code ∈ map (λ t. t.code) shipped_row_tests }
        ensures { IfOk result (λ b. b ≡ shipped_passes code text.entry.now) }
    { passes(code, text) };
    let tests: Tests<_, Shipped> = Tests::build(shipped_tests(alloc)?, row_tests);
    told_of(alloc, word, reads, outputs, host, &tests)
}

/// The same with the conversions that come with the program.
fn told(
    alloc: Global,
    word: &str,
    reads: Vec<u64>,
    outputs: &mut MemOutputs,
) -> Result<(u8, Text), AllocError> {
    let conversions = |code: u32, args: &Items<Text>| -> Result<Text, AllocError>
        requires { IsListed shipped_conversions code (length args.now) }
        ensures { IfOk result (λ t. t ≡ shipped_apply code args.entry.now) }
    { convert(alloc, code, args) };
    let host: Host<_, Shipped> = Host::build(shipped_list(alloc)?, conversions);
    told_by(alloc, word, reads, outputs, &host)
}

/// How it ended and what it left in the outputs, if these calls of the inputs fail.
fn outcome_of(
    alloc: Global,
    word: &str,
    reads: Vec<u64>,
    mut outputs: MemOutputs,
) -> Result<Outcome, AllocError> {
    let (status, message) = told(alloc, word, reads, &mut outputs)?;
    Ok(Outcome {
        status,
        message,
        outputs,
    })
}

/// Adds a line `== NAME` and the text of a file.
fn add_file(all: &mut Vec<u8>, file: &File) -> Result<(), AllocError> {
    all.extend_from_slice(b"== ")?;
    all.extend_from_slice(file.name.bytes())?;
    all.extend_from_slice(b"\n")?;
    all.extend_from_slice(file.bytes.as_slice())
}

/// All files that were put, and what was said.
fn left(alloc: Global, outputs: &MemOutputs) -> Result<Vec<u8>, AllocError> {
    let mut all = Vec::new(alloc);
    for file in outputs.files() {
        add_file(&mut all, file)?;
    }
    all.extend_from_slice(outputs.said())?;
    Ok(all)
}

/// Whether a run of `exchange` ended and left what is wanted in the outputs, if these calls of the inputs fail.
fn ends_so(
    alloc: Global,
    reads: Vec<u64>,
    outputs: MemOutputs,
    status: u8,
    text: &str,
    files: &str,
) -> Result<bool, AllocError> {
    let outcome = outcome_of(alloc, "exchange", reads, outputs)?;
    let left = left(alloc, &outcome.outputs)?;
    Ok(
        outcome.status == status
            && outcome.message.as_str() == text
            && left.as_slice() == files.as_bytes(),
    )
}

/// Whether the read with this number, failing, leaves nothing and is reported.
fn read_fails(alloc: Global, number: u64, text: &str) -> Result<bool, AllocError> {
    let reads = vec![in alloc; number]?;
    let outputs = MemOutputs::new(alloc, Vec::new(alloc));
    ends_so(alloc, reads, outputs, 7, text, "")
}

#[test]
fn each_read_can_fail(rt: HostRuntime) -> Result<(), Fail> {
    assert!(rt; read_fails(rt.alloc(), 0, "read fault: mapping.clio")?);
    assert!(rt; read_fails(rt.alloc(), 1, "read fault: emp.csv")?);
    Ok(())
}

/// The files in their order, and what is said.
const FILES: [&str; 6] = [
    "== rules.txt\nrule emp(x0) -> person(x0, y0);\n",
    "== script.sql\nCREATE TABLE target.\"person\" (\"name\" TEXT, \"phone\" TEXT);\nCREATE TABLE m0 AS SELECT DISTINCT a0.\"name\" AS c0 FROM source.\"emp\" AS a0;\nINSERT INTO target.\"person\" SELECT m.c0, SKOLEM(0, 0, m.place) FROM m0 AS m;\n",
    "== person.csv\nname,phone\nann,?0.0.0\nbob,?0.0.1\n",
    "== nulls.csv\nnull,variable,value\n?0.0.0,x0,ann\n?0.0.1,x0,bob\n",
    "== fold.csv\nnull,value\n",
    "rules.txt 1\nscript.sql 3\nperson.csv 2\nnulls.csv 2\nfold.csv 0\n",
];

/// The first files in their order, so many, and after them what is said.
fn first_files(alloc: Global, number: usize) -> Result<String, AllocError> {
    let mut files = String::new(alloc);
    for file in FILES.iter().take(number) {
        files.push_str(*file)?;
    }
    Ok(files)
}

/// Whether the call of the outputs with this number, failing, leaves the files before it. The last number is of no call.
fn leaves_the_files_before(alloc: Global, number: usize) -> Result<bool, AllocError> {
    let files = first_files(alloc, number)?;
    let outputs = MemOutputs::new(alloc, vec![in alloc; number as u64]?);
    if number == 6 {
        return ends_so(alloc, Vec::new(alloc), outputs, 0, "", files.as_str());
    }
    let text = format!(in alloc; "write fault: {number} files written")?;
    ends_so(
        alloc,
        Vec::new(alloc),
        outputs,
        8,
        text.as_str(),
        files.as_str(),
    )
}

#[test]
fn each_write_can_fail(rt: HostRuntime) -> Result<(), Fail> {
    let alloc = rt.alloc();
    for number in 0..7 {
        assert!(rt; leaves_the_files_before(alloc, number)?);
    }
    Ok(())
}

/// Whether a run whose summary is cut after seven bytes is reported, and leaves all files and these bytes.
fn leaves_a_part(alloc: Global) -> Result<bool, AllocError> {
    let mut files = first_files(alloc, 5)?;
    files.push_str("rules.t")?;
    let outputs = MemOutputs::cutting(alloc, vec![in alloc; 5]?, 7);
    ends_so(
        alloc,
        Vec::new(alloc),
        outputs,
        8,
        "write fault: 5 files written",
        files.as_str(),
    )
}

#[test]
fn a_part_of_the_summary_can_be_said(rt: HostRuntime) -> Result<(), Fail> {
    assert!(rt; leaves_a_part(rt.alloc())?);
    Ok(())
}

/// Whether a run of `show` whose saying fails is reported, and leaves nothing.
fn saying_fails(alloc: Global) -> Result<bool, AllocError> {
    let outputs = MemOutputs::new(alloc, vec![in alloc; 0]?);
    let outcome = outcome_of(alloc, "show", Vec::new(alloc), outputs)?;
    let left = left(alloc, &outcome.outputs)?;
    Ok(
        outcome.status == 8
            && outcome.message.as_str() == "write fault: 0 files written"
            && left.is_empty(),
    )
}

#[test]
fn saying_rules_can_fail(rt: HostRuntime) -> Result<(), Fail> {
    assert!(rt; saying_fails(rt.alloc())?);
    Ok(())
}

#[test]
fn want_of_memory_has_its_message(rt: HostRuntime) -> Result<(), Fail> {
    let (status, message) = status_and_message(rt.alloc(), Ending::Memory);
    let text = message?;
    assert_eq!(rt; text.as_str(), "out of memory");
    assert_eq!(rt; status, 9);
    Ok(())
}
