// Names in double quotes, and texts in single quotes.
ghost use Rattle.std.specs.Prelude.{◌≡◌, ◌++◌, OnOk, encode_utf8, string_bytes};
ghost use Rattle.dx_script_tokens.specs.Quoted.{doubled, single_quoted};
ghost use Rattle.dx_script_text.specs.Print.{name_text};

use dx_base::Text;
use std::alloc::AllocError;

/// Appends a name in double quotes.
pub(crate) fn push_name(name: &Text, out: &mut String) -> Result<(), AllocError>
    ensures { OnOk result (string_bytes out.new ≡ string_bytes out.old ++ name_text name.now) }
{
    out.push_str("\"")?;
    out.push_str(name.as_str())?;
    out.push_str("\"")?;
    Ok(())
}

// One character of a text in single quotes.
fn push_doubled(character: char, out: &mut String) -> Result<(), AllocError>
    ensures { OnOk result (string_bytes out.new ≡ string_bytes out.old ++ doubled (encode_utf8 character)) }
{
    match character {
        '\'' => out.push_str("''"),
        plain => out.push(plain),
    }
}

/// Appends a text in single quotes, with each single quote of the text doubled.
pub(crate) fn push_quoted(text: &str, out: &mut String) -> Result<(), AllocError>
    ensures { OnOk result (string_bytes out.new ≡ string_bytes out.old ++ single_quoted text.now) }
{
    out.push('\'')?;
    for character in text.chars() {
        push_doubled(character, out)?;
    }
    out.push('\'')?;
    Ok(())
}
