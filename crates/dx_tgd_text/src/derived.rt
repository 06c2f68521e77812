// Derived variables, by the numbers of what they name.
ghost use Rattle.std.specs.Prelude.{◌≡◌, ◌⊎◌, ◌+◌, ◌-◌, ◌^◌, ◌<◌, ◌≤◌, ◌++◌, None, Some, MatchResult, length, map, take};
ghost use Rattle.dx_funcs.specs.Serving.{offered};
ghost use Rattle.dx_tokens.specs.declared.faults.TextFault.TheVariants.{Memory};
ghost use Rattle.dx_line_text.specs.Answers.{AnswersOrFault, ReadsOrMemory};
ghost use Rattle.dx_tgd_text.specs.Reading.{arg_fault, arg_of, args_fault, conversion_fault, derived_fault, derived_faults, derived_names, derived_of_text};

use crate::names::Names;
use dx_base::{Items, Text};
use dx_funcs::{Host, Meaning};
use dx_model::Derived;
use dx_schema_text::{CellText, DerivedText};
use dx_tokens::{TextFault, TextKind};
use std::alloc::{AllocError, Global};

// The variable that an argument names, which is one of the first `variables` known names.
fn read_arg(arg: &CellText, call: u64, known: &Names, variables: u32) -> Result<u32, TextFault>
    requires { variables ≤ length known.now }
    ensures { AnswersOrFault result
        (arg_of (take variables known.now) arg.now)
        (arg_fault (take variables known.now) call arg.now) }
{
    match arg {
        CellText::Name { name, place } => match known.find(name) {
            Some(number) if number < variables => Ok(number),
            _ => Err(TextFault::At {
                place: *place,
                kind: TextKind::Unsafe,
            }),
        },
        CellText::Literal(_) => Err(TextFault::At {
            place: call,
            kind: TextKind::Unsafe,
        }),
    }
}

fn read_args(
    alloc: Global,
    args: &[CellText],
    call: u64,
    known: &Names,
    variables: u32,
) -> Result<Items<u32>, TextFault>
    requires { variables ≤ length known.now }
    ensures { ReadsOrMemory result
        (map (arg_of (take variables known.now)) args.now)
        (args_fault (take variables known.now) call args.now) }
{
    let mut read = Items::new(alloc);
    for arg in args {
        read.push(read_arg(arg, call, known, variables)?)?;
    }
    Ok(read)
}

// A conversion of variables.
fn read_call<F, M>(
    alloc: Global,
    derived: &DerivedText,
    host: &Host<F, M>,
    known: &Names,
    variables: u32,
) -> Result<Derived, TextFault>
where
    F: Fn(u32, &Items<Text>) -> Result<Text, AllocError>,
    M: Meaning,
    requires { variables ≤ length known.now }
    ensures { ReadsOrMemory result
        (derived_of_text (offered host.now) (take variables known.now) derived.now)
        (conversion_fault (offered host.now) (take variables known.now) derived.now) }
{
    let place = derived.call_place;
    let Some(conversion) = host.find(&derived.call) else {
        return Err(TextFault::At {
            place,
            kind: TextKind::UnknownName,
        });
    };
    if u64::from(conversion.arity) != derived.args.len() {
        return Err(TextFault::At {
            place,
            kind: TextKind::Width,
        });
    }
    Ok(Derived {
        code: conversion.code,
        args: read_args(alloc, derived.args.items(), place, known, variables)?,
    })
}

// A derived variable, if the first `variables` known names are those of the premise.
fn read_one<F, M>(
    alloc: Global,
    derived: &DerivedText,
    host: &Host<F, M>,
    known: &Names,
    variables: u32,
) -> Result<Derived, TextFault>
where
    F: Fn(u32, &Items<Text>) -> Result<Text, AllocError>,
    M: Meaning,
    requires { variables ≤ length known.now }
    ensures { ReadsOrMemory result
        (derived_of_text (offered host.now) (take variables known.now) derived.now)
        (derived_fault (offered host.now) (take variables known.now) known.now derived.now) }
{
    if known.find(&derived.name).is_some() {
        return Err(TextFault::At {
            place: derived.place,
            kind: TextKind::Unsafe,
        });
    }
    read_call(alloc, derived, host, known, variables)
}

/// Derived variables, if the known names are those of the premise. After an Ok the derived ones are known too. Refused is,
/// variable by variable, a name that is known; a conversion that isn't listed, or takes another number of arguments; the first
/// argument that is no variable of the premise.
pub fn read_derived<F, M>(
    alloc: Global,
    derived: &[DerivedText],
    host: &Host<F, M>,
    known: &mut Names,
) -> Result<Items<Derived>, TextFault>
where
    F: Fn(u32, &Items<Text>) -> Result<Text, AllocError>,
    M: Meaning,
    requires { length known.old + length derived.now < 2 ^ 32 - 1 }
    ensures { MatchResult result
        (λ ds. (ds ≡ map (derived_of_text (offered host.now) known.old) derived.now)
        × (derived_faults (offered host.now) known.old known.old derived.now ≡ None)
        × (known.new ≡ known.old ++ derived_names derived.now))
        (λ e. (e ≡ Memory) ⊎ (derived_faults (offered host.now) known.old known.old derived.now ≡ Some e)) }
{
    let variables = known.len();
    let mut read = Items::new(alloc);
    for variable in derived {
        read.push(read_one(alloc, variable, host, known, variables)?)?;
        known.enter(&variable.name)?;
    }
    Ok(read)
}
