// Tests of calls: for each kind of calls a list of cases.
mod documents;
mod hosts;
mod mapping_texts;
mod ports;
mod scripts;
mod sets;
mod values;
mod variants;

use dx_base::Text;
use std::alloc::{AllocError, Global};
use std::test::Fail;

/// The words of a text.
fn words(alloc: Global, text: &str) -> Result<Vec<Text>, AllocError> {
    let mut words = Vec::new(alloc);
    for word in text.split(' ') {
        words.push(Text::from_str(alloc, word)?)?;
    }
    Ok(words)
}

/// What is called with the text of a case.
#[derive(Clone, Copy)]
enum Kind {
    Closes,
    Document,
    Gathered,
    KeptOfNone,
    Nested,
    Printed,
    Scan,
    Script,
    Sets,
    Text,
    Tokens,
    Unfolded,
    Value,
}

/// The answer of a call, in words.
fn answer(alloc: Global, kind: Kind, text: &str) -> Result<String, AllocError> {
    match kind {
        Kind::Closes => sets::closes(alloc, text),
        Kind::Document => documents::said(alloc, text),
        Kind::Gathered => values::ranked(alloc, text),
        Kind::KeptOfNone => variants::kept_of_none(alloc, text),
        Kind::Nested => documents::nested(alloc, text),
        Kind::Printed => mapping_texts::printed(alloc, text),
        Kind::Scan => mapping_texts::scanned(alloc, text),
        Kind::Script => scripts::printed(alloc, text),
        Kind::Sets => sets::built(alloc, text),
        Kind::Text => mapping_texts::read(alloc, text),
        Kind::Tokens => mapping_texts::tokens_of(alloc, text),
        Kind::Unfolded => variants::unfolded(alloc, text),
        Kind::Value => values::read(alloc, text),
    }
}

/// How many cases are answered as they are to be before one that isn't. Between each two of them is an empty line, and in each
/// the answer that is wanted follows after `=>`.
fn passing(alloc: Global, kind: Kind, cases: &str) -> Result<usize, AllocError> {
    for (number, case) in cases.split("\n\n").enumerate() {
        let (text, wanted) = case.split_once("\n=> ").unwrap_or(("", ""));
        if answer(alloc, kind, text)?.as_str() != wanted {
            return Ok(number);
        }
    }
    Ok(cases.split("\n\n").count())
}

#[test]
fn sets_are_built_or_refused(rt: HostRuntime) -> Result<(), Fail> {
    assert_eq!(rt; passing(rt.alloc(), Kind::Sets, sets::SETS)?, 43);
    Ok(())
}

#[test]
fn conclusions_fit_or_not(rt: HostRuntime) -> Result<(), Fail> {
    assert_eq!(rt; passing(rt.alloc(), Kind::Closes, sets::CONCLUSIONS)?, 5);
    Ok(())
}

#[test]
fn a_scan_goes_on_where_nothing_is_wrong(rt: HostRuntime) -> Result<(), Fail> {
    assert_eq!(rt; passing(rt.alloc(), Kind::Scan, mapping_texts::SCANNED)?, 2);
    Ok(())
}

#[test]
fn tokens_and_their_faults_have_places(rt: HostRuntime) -> Result<(), Fail> {
    assert_eq!(rt;
        passing(rt.alloc(), Kind::Tokens, mapping_texts::TOKENS)?,
        7
    );
    Ok(())
}

#[test]
fn texts_say_lines_and_rules(rt: HostRuntime) -> Result<(), Fail> {
    assert_eq!(rt; passing(rt.alloc(), Kind::Text, mapping_texts::TEXTS)?, 9);
    Ok(())
}

#[test]
fn sets_are_printed_so_and_read_again(rt: HostRuntime) -> Result<(), Fail> {
    assert_eq!(rt;
        passing(rt.alloc(), Kind::Printed, mapping_texts::PRINTED)?,
        8
    );
    Ok(())
}

#[test]
fn scripts_are_read_and_printed(rt: HostRuntime) -> Result<(), Fail> {
    assert_eq!(rt; passing(rt.alloc(), Kind::Script, scripts::SCRIPTS)?, 14);
    Ok(())
}

#[test]
fn values_and_their_texts(rt: HostRuntime) -> Result<(), Fail> {
    assert_eq!(rt; passing(rt.alloc(), Kind::Value, values::VALUES)?, 9);
    Ok(())
}

#[test]
fn equal_values_get_one_rank(rt: HostRuntime) -> Result<(), Fail> {
    assert_eq!(rt; passing(rt.alloc(), Kind::Gathered, values::GATHERED)?, 5);
    Ok(())
}

#[test]
fn rows_below_no_row_are_left_out(rt: HostRuntime) -> Result<(), Fail> {
    assert_eq!(rt; passing(rt.alloc(), Kind::Nested, documents::NESTED)?, 2);
    Ok(())
}

#[test]
fn equal_objects_say_equal_facts(rt: HostRuntime) -> Result<(), Fail> {
    assert_eq!(rt;
        passing(rt.alloc(), Kind::Document, documents::DOCUMENTS)?,
        1
    );
    Ok(())
}

#[test]
fn tables_have_these_unfoldings(rt: HostRuntime) -> Result<(), Fail> {
    assert_eq!(rt; passing(rt.alloc(), Kind::Unfolded, variants::UNFOLDED)?, 8);
    Ok(())
}

#[test]
fn variants_of_a_schema_are_few(rt: HostRuntime) -> Result<(), Fail> {
    assert_eq!(rt; passing(rt.alloc(), Kind::KeptOfNone, variants::LIMITS)?, 2);
    Ok(())
}
