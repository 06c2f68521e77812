// The answers of a query as a file.
ghost use Rattle.std.specs.Prelude.{◌≡◌, ◌∷◌, ◌++◌, [], ℕ, List, IfOk, OnOk, map};
ghost use Rattle.dx_instance.specs.ValueText.{const_text};
ghost use Rattle.clio_files.specs.Answers.{answers_sheet, column_names};
ghost use Rattle.clio_files.specs.Files.{printed_view};
ghost use Rattle.clio_files.specs.Printing.{AreRecords};
ghost use Rattle.clio_files.specs.Sheets.{file_of};

use crate::printed::Printed;
use crate::records::Records;
use crate::sheets::sheet_file;
use dx_base::Text;
use dx_model::Tuples;
use std::alloc::{AllocError, Global};

// The header: `c` and the number of each column.
fn push_column_names(width: u32, records: &mut Records) -> Result<(), AllocError>
    ensures { AreRecords records.old [] → OnOk result (AreRecords records.new (column_names 0 width ∷ [])) }
{
    for column in 0..width {
        records.numbered(b'c', column)?;
    }
    records.end()
}

// The record of an answer.
fn push_answer(texts: &[Text], records: &mut Records) -> Result<(), AllocError>
    ensures { (rs : List (List (List ℕ))) → AreRecords records.old rs
        → OnOk result (AreRecords records.new (rs ++ map const_text texts.now ∷ [])) }
{
    for text in texts {
        records.constant(text)?;
    }
    records.end()
}

/// `answers.csv`: the answers of a query of this width, with the columns `c0`, `c1` and so on.
///
/// # Errors
///
/// Out of memory.
pub fn answers_file(alloc: Global, width: u32, rows: &Tuples) -> Result<Printed, AllocError>
    ensures { IfOk result (λ p. printed_view p ≡ file_of (answers_sheet width rows.now)) }
{
    let mut records = Records::new(alloc);
    push_column_names(width, &mut records)?;
    for place in 0..rows.len() {
        push_answer(rows.tuple(place), &mut records)?;
    }
    sheet_file(alloc, "answers.csv", records)
}
