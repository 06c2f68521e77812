// Files of records: what nulls stand for, and what becomes of them.
ghost use Rattle.std.specs.Prelude.{◌≡◌, ℕ, List, [], ◌∷◌, ◌++◌, IfOk, OnOk, codes, length, map};
ghost use Rattle.dx_base.specs.Members.{Each};
ghost use Rattle.dx_model.specs.Rules.{exported as exported_of};
ghost use Rattle.dx_rule_text.specs.Printed.{variable_text};
ghost use Rattle.dx_instance.specs.NullMaps.{pairs_of};
ghost use Rattle.dx_instance.specs.ValueText.{const_text, null_text, value_text_of};
ghost use Rattle.dx_csv.specs.Lines.{NeedsNoQuotes};
ghost use Rattle.clio_files.specs.Files.{printed_view};
ghost use Rattle.clio_files.specs.Printing.{AreRecords};
ghost use Rattle.clio_files.specs.Sheets.{HasTexts, Sheet, file_of, fold_sheet, nulls_sheet, term_records};

use crate::printed::Printed;
use crate::records::Records;
use dx_base::{File, Items, Text};
use dx_csv::show_null;
use dx_instance::NullMap;
use dx_model::{NullId, NullPair, Rule, Value};
use dx_tgd::{RuleMatches, Tuple, exported};
use std::alloc::{AllocError, Global};

// How many bytes a record of a null and a variable mostly takes at most. What is not filled costs no memory.
const USUAL_BYTES: usize = 32;

/// The file of a sheet, of which the header is the first of the records.
pub(crate) fn sheet_file(alloc: Global, name: &str, records: Records) -> Result<Printed, AllocError>
    ensures { IfOk result (λ p. (s : Sheet) → name.now ≡ s.name → AreRecords records (s.header ∷ s.records) → printed_view p ≡ file_of s) }
{
    let Records { lines, count } = records;
    Ok(Printed {
        file: File {
            name: Text::from_str(alloc, name)?,
            bytes: lines.into_bytes(),
        },
        count: count.saturating_sub(1),
    })
}

// The record of a null and a variable, the null by its text.
fn push_term(
    null: &[u8],
    variable: u32,
    text: &Text,
    records: &mut Records,
) -> Result<(), AllocError>
    requires { NeedsNoQuotes null.now }
    ensures { (rs : List (List (List ℕ))) → AreRecords records.old rs
        → OnOk result (AreRecords records.new (rs ++ (null.now ∷ variable_text variable ∷ const_text text.now ∷ []) ∷ [])) }
{
    records.plain_field(null)?;
    records.numbered(b'x', variable)?;
    records.constant(text)?;
    records.end()
}

// The records of one null, which is shown as this text: one for each exported variable of its rule.
fn push_terms(
    null: &NullId,
    shown: &[u8],
    variables: &[u32],
    tuple: &Tuple,
    records: &mut Records,
) -> Result<(), AllocError>
    requires shown { shown.now ≡ null_text null.now }
    requires plain { NeedsNoQuotes (null_text null.now) }
    requires wide { length tuple.now ≡ length variables.now }
    ensures { (rs : List (List (List ℕ))) → AreRecords records.old rs
        → OnOk result (AreRecords records.new (rs ++ term_records null.now (map variable_text variables.now) tuple.now)) }
{
    for column in 0..variables.len() {
        push_term(shown, variables[column], tuple.text(column), records)?;
    }
    Ok(())
}

// The exported variables of each rule.
fn all_exported(alloc: Global, rules: &[Rule]) -> Result<Items<Items<u32>>, AllocError>
    ensures { IfOk result (λ lists. lists ≡ map exported_of rules.now) }
{
    let mut lists = Items::new(alloc);
    for rule in rules {
        lists.push(Items::from_vec(exported(alloc, rule)?))?;
    }
    Ok(lists)
}

// How many bytes the records of nulls of these rules mostly take at most.
fn usual_bytes(lists: &[Items<u32>], nulls: &[NullId]) -> usize {
    let mut widest = 0usize;
    for variables in lists {
        widest = widest.max(variables.items().len());
    }
    nulls
        .len()
        .saturating_mul(widest)
        .saturating_mul(USUAL_BYTES)
}

// The header of what nulls stand for.
fn push_nulls_header(records: &mut Records) -> Result<(), AllocError>
    ensures { AreRecords records.old []
        → OnOk result (AreRecords records.new ((codes "null" ∷ codes "variable" ∷ codes "value" ∷ []) ∷ [])) }
{
    records.field(b"null")?;
    records.field(b"variable")?;
    records.field(b"value")?;
    records.end()
}

/// What each null stands for.
pub(crate) fn nulls_file(
    alloc: Global,
    rules: &[Rule],
    matches: &RuleMatches,
    nulls: &[NullId],
) -> Result<Printed, AllocError>
    requires { Each nulls.now (HasTexts rules.now matches.now) }
    ensures { IfOk result (λ p. printed_view p ≡ file_of (nulls_sheet rules.now matches.now nulls.now)) }
{
    let lists = all_exported(alloc, rules)?;
    let mut records = Records::new(alloc);
    records.make_room(usual_bytes(lists.items(), nulls));
    push_nulls_header(&mut records)?;
    let mut shown = Vec::new(alloc);
    for null in nulls {
        let variables = lists.items()[null.rule as usize].items();
        let tuple = matches.tuple(null.rule, null.row);
        show_null(null, &mut shown)?;
        push_terms(null, &shown, variables, &tuple, &mut records)?;
    }
    sheet_file(alloc, "nulls.csv", records)
}

// The header of what nulls become.
fn push_fold_header(records: &mut Records) -> Result<(), AllocError>
    ensures { AreRecords records.old [] → OnOk result (AreRecords records.new ((codes "null" ∷ codes "value" ∷ []) ∷ [])) }
{
    records.field(b"null")?;
    records.field(b"value")?;
    records.end()
}

// The record of what a null becomes.
fn push_pair(pair: &NullPair, records: &mut Records) -> Result<(), AllocError>
    ensures { (rs : List (List (List ℕ))) → AreRecords records.old rs
        → OnOk result (AreRecords records.new (rs ++ (null_text pair.now.null ∷ value_text_of pair.now.value ∷ []) ∷ [])) }
{
    records.value(&Value::Null(pair.null))?;
    records.value(&pair.value)?;
    records.end()
}

/// What each null that the fold lists becomes.
pub(crate) fn fold_file(alloc: Global, fold: &NullMap) -> Result<Printed, AllocError>
    ensures { IfOk result (λ p. printed_view p ≡ file_of (fold_sheet (pairs_of fold.now))) }
{
    let pairs = fold.pairs()?;
    let mut records = Records::new(alloc);
    push_fold_header(&mut records)?;
    for pair in pairs.as_slice() {
        push_pair(pair, &mut records)?;
    }
    sheet_file(alloc, "fold.csv", records)
}
