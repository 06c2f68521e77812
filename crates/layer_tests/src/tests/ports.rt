// Texts, the fakes of files, and records.
use crate::tests::words;
use dx_base::{File, Items, Text};
use dx_csv::{load_table, print_records};
use dx_ports::{Inputs, MemInputs, MemOutputs, Outputs, PutFault};
use dx_schema_text::tokens;
use std::alloc::{AllocError, Global};
use std::test::Fail;

/// Whether a text and its copy are equal, as one that is made of its bytes is.
fn copied(alloc: Global, text: &str) -> Result<bool, AllocError> {
    let text = Text::from_str(alloc, text)?;
    let copy = text.copy()?;
    match Text::from_bytes(alloc, text.bytes()) {
        Ok(made) => Ok(made.is(&copy)),
        Err(_) => Ok(false),
    }
}

#[test]
fn texts_are_copied_and_made_of_their_bytes(rt: HostRuntime) -> Result<(), Fail> {
    assert!(rt; copied(rt.alloc(), "żółw")?);
    Ok(())
}

/// What is told of a text of these bytes, and of their tokens.
fn refused(alloc: Global, bytes: &[u8]) -> Result<String, AllocError> {
    let text = Text::from_bytes(alloc, bytes).err();
    let tokens = tokens(alloc, bytes).err();
    format!(in alloc; "{text:?} {tokens:?}")
}

#[test]
fn texts_are_made_of_utf8_alone(rt: HostRuntime) -> Result<(), Fail> {
    let wanted = "Some(NotUtf8) Some(At { place: 2, kind: Ended })";
    assert_eq!(rt; refused(rt.alloc(), b"\"\xC3")?.as_str(), wanted);
    Ok(())
}

/// Two files with one name.
fn files(alloc: Global) -> Result<Vec<File>, AllocError> {
    let mut files = Vec::new(alloc);
    for bytes in [b"one", b"two"] {
        files.push(File {
            name: Text::from_str(alloc, "a")?,
            bytes: bytes.to_vec(alloc)?,
        })?;
    }
    Ok(files)
}

/// What is answered to a fetch, and what is in the buffer then.
fn fetched_once(
    alloc: Global,
    inputs: &mut MemInputs,
    name: &str,
    limit: u64,
    into: &mut Vec<u8>,
) -> Result<String, AllocError> {
    let name = Text::from_str(alloc, name)?;
    let answer = inputs.fetch(&name, limit, into);
    format!(in alloc; "{answer:?} {into:?} ")
}

/// What is fetched of files in memory, of which the third fetch fails.
fn fetched(alloc: Global) -> Result<String, AllocError> {
    let mut inputs = MemInputs::new(files(alloc)?, vec![in alloc; 2]?);
    let mut into = Vec::new(alloc);
    let mut told = String::new(alloc);
    for (name, limit) in [("a", 3), ("a", 2), ("a", 3), ("b", 3)] {
        let answer = fetched_once(alloc, &mut inputs, name, limit, &mut into)?;
        told.push_str(answer.as_str())?;
    }
    Ok(told)
}

#[test]
fn inputs_in_memory_hold_the_first_of_equal_names(rt: HostRuntime) -> Result<(), Fail> {
    let wanted = "Ok(()) [111, 110, 101] Err(Long) [] Err(Failed) [] Err(Absent) [] ";
    assert_eq!(rt; fetched(rt.alloc())?.as_str(), wanted);
    Ok(())
}

/// What is answered to two puts of a file and two sayings.
fn answers(outputs: &mut MemOutputs, name: &Text) -> [Result<(), PutFault>; 4] {
    [
        outputs.put(name, b"1"),
        outputs.put(name, b"2"),
        outputs.say(b"3"),
        outputs.say(b"4"),
    ]
}

/// What is put and said, of which the second call and the fourth fail.
fn put(alloc: Global) -> Result<String, AllocError> {
    let mut outputs = MemOutputs::new(alloc, vec![in alloc; 1, 3]?);
    let name = Text::from_str(alloc, "a")?;
    let answers = answers(&mut outputs, &name);
    format!(in alloc; "{answers:?} {:?} {:?}", outputs.files(), outputs.said())
}

#[test]
fn outputs_in_memory_count_puts_and_says_together(rt: HostRuntime) -> Result<(), Fail> {
    let wanted =
        "[Ok(()), Err(Failed), Ok(()), Err(Failed)] [File { name: \"a\", bytes: [49] }] [51]";
    assert_eq!(rt; put(rt.alloc())?.as_str(), wanted);
    Ok(())
}

/// What is said by three calls, of which the first and the last fail but for two bytes.
fn cut(alloc: Global) -> Result<String, AllocError> {
    let mut outputs = MemOutputs::cutting(alloc, vec![in alloc; 0, 2]?, 2);
    let answers = [outputs.say(b"123"), outputs.say(b"456"), outputs.say(b"7")];
    format!(in alloc; "{answers:?} {:?}", outputs.said())
}

#[test]
fn outputs_in_memory_cut_what_is_said(rt: HostRuntime) -> Result<(), Fail> {
    let wanted = "[Err(Failed), Ok(()), Err(Failed)] [49, 50, 52, 53, 54, 55]";
    assert_eq!(rt; cut(rt.alloc())?.as_str(), wanted);
    Ok(())
}

/// How many rows a file has under the columns `x` and `y`.
fn loaded(alloc: Global, bytes: &[u8]) -> Result<String, AllocError> {
    let columns = words(alloc, "x y")?;
    if columns.len() > 2 {
        return Err(AllocError);
    }
    match load_table(alloc, bytes, &columns) {
        Ok(rows) => format!(in alloc; "{rows:?}"),
        Err(fault) => format!(in alloc; "{fault:?}"),
    }
}

/// A record of the words of each text, as they are printed.
fn printed(alloc: Global, texts: &[&str]) -> Result<Text, AllocError> {
    let mut records = Vec::new(alloc);
    for text in texts {
        records.push(Items::from_vec(words(alloc, *text)?))?;
    }
    print_records(alloc, &records)
}

#[test]
fn records_are_read_and_printed(rt: HostRuntime) -> Result<(), Fail> {
    let alloc = rt.alloc();
    let wanted = "[Row { values: [Const(\"1\"), Const(\"a, b\")] }]";
    assert_eq!(rt; loaded(alloc, b"x,y\n1,\"a, b\"\n")?.as_str(), wanted);
    let text = printed(alloc, &["x a,b", "\" "])?;
    assert_eq!(rt; text.as_str(), "x,\"a,b\"\n\"\"\"\",\n");
    Ok(())
}
