// The files of an exchange.
ghost use Rattle.std.specs.Prelude.{IfOk, map};
ghost use Rattle.dx_funcs.specs.Serving.{offered};
ghost use Rattle.clio_files.specs.Files.{AreFiles, FitsFiles, printed_view};
ghost use Rattle.clio_files.specs.Texts.{FitTexts};

use crate::nested::push_roots;
use crate::nulls::nulls_of;
use crate::printed::Printed;
use crate::sheets::{fold_file, nulls_file};
use crate::tables::push_tables;
use crate::texts::print_texts;
use clio_accept::Mapping;
use dx_base::{Items, Text};
use dx_exchange::{Exchange, Mode};
use dx_funcs::{Host, Meaning};
use std::alloc::{AllocError, Global};

/// How an exchange is printed: the mode of its script, and whether each target root is printed as a document too.
#[derive(Clone, Copy)]
pub struct Output {
    pub mode: Mode,
    pub nested: bool,
}

/// The files of an exchange of a mapping, in order: its rules, their script in this mode, each target table, what the
/// nulls of the target stand for, the fold, and, if they are asked for, each target root with its inner sets as a document.
///
/// # Errors
///
/// Out of memory.
pub fn print_files<F, M>(
    alloc: Global,
    mapping: &Mapping,
    exchange: &Exchange,
    host: &Host<F, M>,
    output: Output,
) -> Result<Vec<Printed>, AllocError>
where
    F: Fn(u32, &Items<Text>) -> Result<Text, AllocError>,
    M: Meaning,
    requires texts { FitTexts mapping.now.source mapping.now.target (offered host.now) mapping.now.rules }
    requires fits { FitsFiles mapping.now.rules mapping.now.target exchange.now }
    ensures { IfOk result (λ ps. AreFiles mapping.now.source mapping.now.target (offered host.now) output.mode output.nested
        mapping.now.rules exchange.now (map printed_view ps.items)) }
{
    let nulls = nulls_of(alloc, &exchange.target)?;
    let mut printed = print_texts(alloc, mapping, host, output.mode)?;
    push_tables(alloc, "", &mapping.target, &exchange.target, &mut printed)?;
    printed.push(nulls_file(alloc, mapping.rules.items(), &exchange.matches, &nulls)?)?;
    printed.push(fold_file(alloc, &exchange.fold)?)?;
    if output.nested {
        push_roots(alloc, &mapping.target, &exchange.target, &mut printed)?;
    }
    Ok(printed)
}
