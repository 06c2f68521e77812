// Texts as strings.
ghost use Rattle.std.specs.Prelude.{◌≡◌, ◌++◌, OnOk, encode_utf8, string_bytes};
ghost use Rattle.dx_tokens.specs.Quoted.{escaped, quoted};

use std::alloc::AllocError;

// One character of a string.
fn push_escaped(character: char, out: &mut String) -> Result<(), AllocError>
    ensures { OnOk result (string_bytes out.new ≡ string_bytes out.old ++ escaped (encode_utf8 character)) }
{
    match character {
        '"' => out.push_str("\\\""),
        '\\' => out.push_str("\\\\"),
        plain => out.push(plain),
    }
}

/// Appends a text as a string: between quotation marks, with a backslash before each quotation mark and each backslash
/// of the text.
///
/// # Errors
///
/// `AllocError` if there is no memory: then `out` may have a part of it.
pub fn push_string(text: &str, out: &mut String) -> Result<(), AllocError>
    ensures { OnOk result (string_bytes out.new ≡ string_bytes out.old ++ quoted text.now) }
{
    out.push('"')?;
    for character in text.chars() {
        push_escaped(character, out)?;
    }
    out.push('"')?;
    Ok(())
}
