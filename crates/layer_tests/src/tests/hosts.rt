// A host of a conversion that doesn't come with the program.
ghost use Rattle.std.specs.Prelude.{◌≡◌, [], IfOk, length, slice_index_or};
ghost use Rattle.dx_funcs.specs.Serving.{Serves};

use crate::tests::words;
use dx_base::{Items, Text};
use dx_funcs::{Conversion, Host, Meaning};
use std::alloc::{AllocError, Global};
use std::test::Fail;

/// A conversion gives the first of its texts.
struct First;

impl Meaning for First {
    ghost apply = { λ _ texts. slice_index_or texts 0 [] };
}

/// The text that the conversion of a name makes of texts. None if no conversion of this name takes so many.
fn answer<F: Fn(u32, &Items<Text>) -> Result<Text, AllocError>, M: Meaning>(
    host: &Host<F, M>,
    name: &Text,
    args: &Items<Text>,
) -> Result<Option<Text>, AllocError>
    requires { Serves F.Fn M.apply host.now }
{
    let Some(found) = host.find(name) else {
        return Ok(None);
    };
    let conversion = host.by_code(found.code);
    if args.len() != u64::from(conversion.arity) {
        return Ok(None);
    }
    Ok(Some(host.call(conversion.code, args)?))
}

/// What a host answers to a line: the name of a conversion, and its texts.
fn told<F: Fn(u32, &Items<Text>) -> Result<Text, AllocError>, M: Meaning>(
    alloc: Global,
    host: &Host<F, M>,
    line: &str,
) -> Result<String, AllocError>
    requires { Serves F.Fn M.apply host.now }
{
    let (name, texts) = line.split_once(" ").unwrap_or(("", ""));
    let name = Text::from_str(alloc, name)?;
    let texts = Items::from_vec(words(alloc, texts)?);
    format!(in alloc; "{:?} ", answer(host, &name, &texts)?)
}

/// The same of some lines.
fn all_told<F: Fn(u32, &Items<Text>) -> Result<Text, AllocError>, M: Meaning>(
    alloc: Global,
    host: &Host<F, M>,
    lines: &str,
) -> Result<String, AllocError>
    requires { Serves F.Fn M.apply host.now }
{
    let mut all = String::new(alloc);
    for line in lines.lines() {
        all.push_str(told(alloc, host, line)?.as_str())?;
    }
    Ok(all)
}

/// What a host answers that has one conversion of two texts: of two texts, of one, and under a name that it hasn't.
fn answers(alloc: Global) -> Result<String, AllocError> {
    let mut list = Items::new(alloc);
    list.push(Conversion {
        name: Text::from_str(alloc, "first")?,
        code: 9,
        arity: 2,
    })?;
    let function = |_code: u32, args: &Items<Text>| -> Result<Text, AllocError>
        requires { length args.now ≡ 2 }
        ensures { IfOk result (λ t. t ≡ slice_index_or args.entry.now 0 []) }
    { args.items()[0].copy() };
    let host: Host<_, First> = Host::build(list, function);
    all_told(alloc, &host, "first a b\nfirst a\ntrim a")
}

#[test]
fn a_host_answers_by_its_closure(rt: HostRuntime) -> Result<(), Fail> {
    assert_eq!(rt; answers(rt.alloc())?.as_str(), "Some(\"a\") None None ");
    Ok(())
}
