// Row tests of one's own: the closure that is kept decides which rows the rules see.
ghost use Rattle.std.specs.Prelude.{◌≡◌, IfOk, length};
ghost use Rattle.dx_funcs.specs.Judging.{Decides};
ghost use Rattle.dx_funcs.specs.Offers.{IsListed};
ghost use Rattle.dx_funcs.specs.RowTests.{AreTests};
ghost use Rattle.dx_funcs.specs.Serving.{Serves};
ghost use Rattle.dx_funcs.specs.Shipped.{shipped_apply, shipped_conversions};
ghost use Rattle.clio_tests.specs.Own.{begins_with_a};

use crate::tests::faults::file;
use clio_ending::status_and_message;
use clio_top::run;
use dx_base::{File, Items, Text};
use dx_funcs::{Host, Meaning, RowTest, Tests, convert, shipped_list};
use dx_ports::{MemInputs, MemOutputs};
use std::alloc::{AllocError, Global};
use std::test::Fail;

/// A condition on a column that no rule uses.
const HELPERS: &str =
    "mapping 2; source { set emp { name, role; } } target { set person { name; } } \
only emp.role helps; line emp.name -> person.name;";

/// What the shipped conversions mean, and a row test of one's own.
#[derive(Clone, Copy)]
struct Own;

impl Meaning for Own {
    ghost apply = { shipped_apply };

    ghost passes = { begins_with_a };
}

/// Whether a text passes the row test 7: it begins with an `a`.
fn begins_with_a(code: u32, text: &Text) -> Result<bool, AllocError>
    ensures { IfOk result (λ b. b ≡ begins_with_a code text.now) }
{
    match text.bytes() {
        [first, ..] => Ok(code == 7 && *first == b'a'),
        [] => Ok(false),
    }
}

/// The mapping, and three rows.
fn files(alloc: Global) -> Result<Vec<File>, AllocError> {
    let rows = b"name,role\nann,boss\nbob,aide\ncid,apprentice\n";
    let mut files = Vec::new(alloc);
    files.push(file(alloc, "mapping.clio", HELPERS.as_bytes())?)?;
    files.push(file(alloc, "emp.csv", rows)?)?;
    Ok(files)
}

/// The status of an exchange over these files.
fn exchange<F, P, M>(
    alloc: Global,
    outputs: &mut MemOutputs,
    host: &Host<F, M>,
    tests: &Tests<P, M>,
) -> Result<u8, AllocError>
where
    F: Fn(u32, &Items<Text>) -> Result<Text, AllocError>,
    P: Fn(u32, &Text) -> Result<bool, AllocError>,
    M: Meaning,
    requires serves { Serves F.Fn M.apply host.now }
    requires decides { Decides P.Fn M.passes tests.now }
{
    let mut words = Vec::new(alloc);
    words.push(Text::from_str(alloc, "exchange")?)?;
    let mut inputs = MemInputs::new(files(alloc)?, Vec::new(alloc));
    let ending = run(alloc, &words, &mut inputs, outputs, host, tests);
    let (status, _) = status_and_message(alloc, ending);
    Ok(status)
}

/// The table of persons among the files that were put.
fn persons(alloc: Global, outputs: &MemOutputs) -> Result<Vec<u8>, AllocError> {
    for file in outputs.files() {
        if file.name.as_str() == "person.csv" {
            return file.bytes.as_slice().to_vec(alloc);
        }
    }
    Ok(Vec::new(alloc))
}

/// The row test, as it is listed.
fn own_tests(alloc: Global) -> Result<Items<RowTest>, AllocError>
    ensures { IfOk result (λ list. AreTests list) }
{
    let mut list = Items::new(alloc);
    list.push(RowTest {
        name: Text::from_str(alloc, "helps")?,
        code: 7,
    })?;
    Ok(list)
}

/// Whether an exchange with the row test of one's own puts these persons and ends well.
fn puts<F: Fn(u32, &Items<Text>) -> Result<Text, AllocError>>(
    alloc: Global,
    host: &Host<F, Own>,
    wanted: &[u8],
) -> Result<bool, AllocError>
    requires serves { Serves F.Fn ⟦<Own as Meaning>⟧.apply host.now }
{
    let row_tests = |code: u32, text: &Text| -> Result<bool, AllocError>
        ensures { IfOk result (λ b. b ≡ begins_with_a code text.entry.now) }
    { begins_with_a(code, text) };
    let tests: Tests<_, Own> = Tests::build(own_tests(alloc)?, row_tests);
    let mut outputs = MemOutputs::new(alloc, Vec::new(alloc));
    let status = exchange(alloc, &mut outputs, host, &tests)?;
    Ok(status == 0 && persons(alloc, &outputs)?.as_slice() == wanted)
}

#[test]
fn the_kept_closure_decides(rt: HostRuntime) -> Result<(), Fail> {
    let alloc = rt.alloc();
    let conversions = |code: u32, args: &Items<Text>| -> Result<Text, AllocError>
        requires { IsListed shipped_conversions code (length args.now) }
        ensures { IfOk result (λ t. t ≡ shipped_apply code args.entry.now) }
    { convert(alloc, code, args) };
    let host: Host<_, Own> = Host::build(shipped_list(alloc)?, conversions);
    assert!(rt; puts(alloc, &host, b"name\nbob\ncid\n")?);
    Ok(())
}
