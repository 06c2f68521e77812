// Public calls one by one, with memory enough.
ghost use Rattle.std.specs.Prelude.{◌≡◌, IfOk, length, map};
ghost use Rattle.dx_base.specs.Members.{◌∈◌};
ghost use Rattle.dx_funcs.specs.Offers.{IsListed};
ghost use Rattle.dx_funcs.specs.Shipped.{shipped_apply, shipped_conversions, shipped_passes, shipped_row_tests};

use crate::tests::faults::PEOPLE;
use crate::tests::shipped::passes;
use clio_top::{AcceptFault, accept};
use dx_base::{Items, Text};
use dx_funcs::{Host, Meaning, Shipped, Tests, convert, shipped_list, shipped_tests};
use std::alloc::{AllocError, Global};
use std::test::Fail;

/// Whether the text of people is accepted, with its one rule and the table of its target.
fn is_accepted<F, P, M>(
    alloc: Global,
    host: &Host<F, M>,
    tests: &Tests<P, M>,
) -> Result<bool, AcceptFault>
where
    F: Fn(u32, &Items<Text>) -> Result<Text, AllocError>,
    P: Fn(u32, &Text) -> Result<bool, AllocError>,
    M: Meaning,
{
    let person = Text::from_str(alloc, "person")?;
    let emp = Text::from_str(alloc, "emp")?;
    let mapping = accept(alloc, PEOPLE.as_bytes(), host, tests)?;
    Ok(
        mapping.target.table_named(&person) == Some(0)
            && mapping.target.table_named(&emp) == None
            && mapping.conditions.len() == 0
            && mapping.rules.len() == 1,
    )
}

/// The same with the row tests that come with the program.
fn is_accepted_by<F: Fn(u32, &Items<Text>) -> Result<Text, AllocError>>(
    alloc: Global,
    host: &Host<F, Shipped>,
) -> Result<bool, AcceptFault> {
    let row_tests = |code: u32, text: &Text| -> Result<bool, AllocError>
        requires { code ∈ map (λ t. t.code) shipped_row_tests }
        ensures { IfOk result (λ b. b ≡ shipped_passes code text.entry.now) }
    { passes(code, text) };
    let tests: Tests<_, Shipped> = Tests::build(shipped_tests(alloc)?, row_tests);
    is_accepted(alloc, host, &tests)
}

#[test]
fn a_mapping_text_is_accepted(rt: HostRuntime) -> Result<(), Fail> {
    let alloc = rt.alloc();
    let conversions = |code: u32, args: &Items<Text>| -> Result<Text, AllocError>
        requires { IsListed shipped_conversions code (length args.now) }
        ensures { IfOk result (λ t. t ≡ shipped_apply code args.entry.now) }
    { convert(alloc, code, args) };
    let host: Host<_, Shipped> = Host::build(shipped_list(alloc)?, conversions);
    assert!(rt; is_accepted_by(alloc, &host)?);
    Ok(())
}
