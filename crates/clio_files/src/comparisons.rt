// The files of a comparison, and what is said of it.
ghost use Rattle.std.specs.Prelude.{◌≡◌, IfOk, OnOk, map, string_bytes};
ghost use Rattle.clio_files.specs.Comparisons.{AddsDirection, AreComparedFiles, FitsAnswer, FitsComparison, HaveNoMarks};
ghost use Rattle.clio_files.specs.Comparisons.{compared_text, direction_text};
ghost use Rattle.clio_files.specs.Files.{printed_view};

use crate::printed::Printed;
use crate::summaries::summary;
use crate::tables::push_tables;
use dx_compare::{Answer, Comparison};
use dx_schema::Schema;
use std::alloc::{AllocError, Global};

// Adds the files of a direction.
fn push_direction(
    alloc: Global,
    direction: &str,
    source: &Schema,
    target: &Schema,
    answer: &Answer,
    files: &mut Vec<Printed>,
) -> Result<(), AllocError>
    requires fits { FitsAnswer source.now target.now answer.now }
    requires source_marks { HaveNoMarks source.now }
    requires target_marks { HaveNoMarks target.now }
    ensures { OnOk result (AddsDirection direction.now source.now target.now answer.now (map printed_view files.old.items)
        (map printed_view files.new.items)) }
{
    match answer {
        Answer::Implies => Ok(()),
        Answer::Refuted {
            source: rows,
            target: made,
            ..
        } => {
            let front = format!(in alloc; "{direction}_source_")?;
            push_tables(alloc, front.as_str(), source, rows, files)?;
            let front = format!(in alloc; "{direction}_target_")?;
            push_tables(alloc, front.as_str(), target, made, files)
        }
    }
}

/// The files of a comparison, forward first: for each direction that is refuted the tables of the two instances that refute it.
///
/// # Errors
///
/// Out of memory.
pub fn print_comparison(
    alloc: Global,
    source: &Schema,
    target: &Schema,
    comparison: &Comparison,
) -> Result<Vec<Printed>, AllocError>
    requires { FitsComparison source.now target.now comparison.now }
    ensures { IfOk result (λ ps. AreComparedFiles source.now target.now comparison.now (map printed_view ps.items)) }
{
    let mut files = Vec::new(alloc);
    let Comparison { forward, backward } = comparison;
    push_direction(alloc, "forward", source, target, forward, &mut files)?;
    push_direction(alloc, "backward", source, target, backward, &mut files)?;
    Ok(files)
}

// The line of a direction.
fn direction_line(alloc: Global, direction: &str, answer: &Answer) -> Result<String, AllocError>
    ensures { IfOk result (λ s. string_bytes s ≡ direction_text direction.now answer.now) }
{
    match answer {
        Answer::Implies => format!(in alloc; "{direction} yes\n"),
        Answer::Refuted { rule, .. } => format!(in alloc; "{direction} no {rule}\n"),
    }
}

/// What is said of a comparison whose files are these: a line for each direction, and then one for each file.
///
/// # Errors
///
/// Out of memory.
pub fn compared_text(
    alloc: Global,
    comparison: &Comparison,
    printed: &[Printed],
) -> Result<Vec<u8>, AllocError>
    ensures { IfOk result (λ text. text.items ≡ compared_text comparison.now (map printed_view printed.now)) }
{
    let mut text = Vec::new(alloc);
    text.extend_from_slice(direction_line(alloc, "forward", &comparison.forward)?.as_bytes())?;
    text.extend_from_slice(direction_line(alloc, "backward", &comparison.backward)?.as_bytes())?;
    text.extend_from_slice(&summary(alloc, printed)?)?;
    Ok(text)
}
