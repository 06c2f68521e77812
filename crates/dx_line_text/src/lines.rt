// Lines, by the numbers of what they name.
ghost use Rattle.std.specs.Prelude.{◌≡◌, ◌⊎◌, None, Some, IfErr, IfOk, OnOk};
ghost use Rattle.dx_base.specs.Members.{Each};
ghost use Rattle.dx_schema.specs.Tables.{model_tables};
ghost use Rattle.dx_funcs.specs.Names.{first_named};
ghost use Rattle.dx_funcs.specs.Serving.{offered};
ghost use Rattle.dx_tokens.specs.declared.faults.TextFault.TheVariants.{Memory};
ghost use Rattle.dx_lines.specs.Limits.{LineFits};
ghost use Rattle.dx_line_text.specs.Answers.{ReadsOrMemory};
ghost use Rattle.dx_line_text.specs.Naming.{source_call_fault, call_of, line_fault, line_of_text, lines_fault, lines_of, origin_of, source_fault, IsOffered};

use crate::places::{read_place, read_places};
use dx_base::{Items, Text};
use dx_funcs::{Host, Meaning};
use dx_lines::{Line, Origin};
use dx_schema::Schema;
use dx_schema_text::{LineText, PlaceText, SourceText};
use dx_tokens::{TextFault, TextKind};
use std::alloc::{AllocError, Global};

// A name, and where it stands.
#[derive(Clone, Copy)]
struct PlacedName<'a> {
    name: &'a Text,
    place: u64,
}

// A conversion of columns.
fn read_call<F, M>(
    alloc: Global,
    schema: &Schema,
    host: &Host<F, M>,
    called: PlacedName<'_>,
    args: &[PlaceText],
) -> Result<Origin, TextFault>
where
    F: Fn(u32, &Items<Text>) -> Result<Text, AllocError>,
    M: Meaning,
    ensures { ReadsOrMemory result
        (call_of schema.now (first_named (offered host.now) called.entry.name.now) args.now)
        (source_call_fault schema.now (first_named (offered host.now) called.entry.name.now) called.entry.place args.now) }
{
    let Some(conversion) = host.find(called.name) else {
        return Err(TextFault::At {
            place: called.place,
            kind: TextKind::UnknownName,
        });
    };
    if conversion.arity as usize != args.len() {
        return Err(TextFault::At {
            place: called.place,
            kind: TextKind::Width,
        });
    }
    Ok(Origin::Call {
        code: conversion.code,
        args: read_places(alloc, schema, args)?,
    })
}

// Where a line's values come from.
fn read_source<F, M>(
    alloc: Global,
    schema: &Schema,
    host: &Host<F, M>,
    source: &SourceText,
) -> Result<Origin, TextFault>
where
    F: Fn(u32, &Items<Text>) -> Result<Text, AllocError>,
    M: Meaning,
    ensures { ReadsOrMemory result
        (origin_of schema.now (offered host.now) source.now)
        (source_fault schema.now (offered host.now) source.now) }
{
    match source {
        SourceText::Column(place) => Ok(Origin::Column(read_place(schema, place)?)),
        SourceText::Literal(text) => Ok(Origin::Literal(text.copy()?)),
        SourceText::Call { name, place, args } => {
            let called = PlacedName {
                name,
                place: *place,
            };
            read_call(alloc, schema, host, called, args.items())
        }
    }
}

// A line.
fn read_line<F, M>(
    alloc: Global,
    line: &LineText,
    source: &Schema,
    target: &Schema,
    host: &Host<F, M>,
) -> Result<Line, TextFault>
where
    F: Fn(u32, &Items<Text>) -> Result<Text, AllocError>,
    M: Meaning,
    ensures { ReadsOrMemory result
        (line_of_text source.now target.now (offered host.now) line.now)
        (line_fault source.now target.now (offered host.now) line.now) }
{
    let origin = read_source(alloc, source, host, &line.source)?;
    let column = read_place(target, &line.target)?;
    Ok(Line {
        target: column,
        source: origin,
    })
}

/// The lines, by the numbers of the sets, columns and conversions that they name.
///
/// # Errors
///
/// `At` with the first fault in the order of the text. `Memory` if there is no memory, which may come at any point.
///
/// 1. Line by line, the source before the target; of a place the set before its column: a set or a column of this name
///    isn't there (`UnknownName`).
/// 2. Of a conversion first its name, which isn't listed (`UnknownName`); then, at its name, that it takes another
///    number of arguments (`Width`); then its arguments from left to right.
pub fn read_lines<F, M>(
    alloc: Global,
    lines: &[LineText],
    source: &Schema,
    target: &Schema,
    host: &Host<F, M>,
) -> Result<Items<Line>, TextFault>
where
    F: Fn(u32, &Items<Text>) -> Result<Text, AllocError>,
    M: Meaning,
    ensures lines { IfOk result (λ ls. ls ≡ lines_of source.now target.now (offered host.now) lines.now) }
    ensures none { OnOk result (lines_fault source.now target.now (offered host.now) lines.now ≡ None) }
    ensures fault { IfErr result (λ e. (e ≡ Memory) ⊎ (lines_fault source.now target.now (offered host.now) lines.now ≡ Some e)) }
    ensures fit { IfOk result (λ ls. Each ls (LineFits (model_tables source.now) (model_tables target.now))) }
    ensures listed { IfOk result (λ ls. Each ls (IsOffered (offered host.now))) }
{
    let mut read = Items::new(alloc);
    for line in lines {
        read.push(read_line(alloc, line, source, target, host)?)?;
    }
    Ok(read)
}
