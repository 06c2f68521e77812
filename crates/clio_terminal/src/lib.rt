//! What a message looks like at a terminal: no text in it can command the terminal, forge a line, or turn the direction
//! of writing.
//!
//! A message may hold texts of the data: cells, names of members, words of a mapping. `shown` writes each character
//! that is not harmless as `\u{..}`, and leaves all others.
#![tactic(auto)]

ghost use Rattle.std.specs.Prelude.{◌≡◌, ◌++◌, IfOk, OnOk, chars, encode_utf8_all, string_bytes};
ghost use Rattle.clio_terminal.specs.Shown.{escape_unicode, is_harmful, shown, shown_character};

use std::alloc::{AllocError, Global};

mod laws;

pub use laws::shown_is_harmless;

// Whether a character can do more than to be seen.
fn is_harmful(character: char) -> bool
    ensures { result ≡ is_harmful character }
{
    character.is_control()
        || matches!(character, '\u{61c}' | '\u{200e}'..='\u{200f}' | '\u{202a}'..='\u{202e}' | '\u{2066}'..='\u{2069}')
}

fn push_escape(character: char, out: &mut String) -> Result<(), AllocError>
    ensures { OnOk result (string_bytes out.new ≡ string_bytes out.old ++ encode_utf8_all (escape_unicode character)) }
{
    'escape: for digit in character.escape_unicode() {
        out.push(digit)?;
    }
    Ok(())
}

fn push_shown(character: char, out: &mut String) -> Result<(), AllocError>
    ensures { OnOk result (string_bytes out.new ≡ string_bytes out.old ++ encode_utf8_all (shown_character character)) }
{
    if is_harmful(character) {
        return push_escape(character, out);
    }
    out.push(character)
}

/// What is shown of a text. `shown` alone makes one, so what takes one can't be given a text as it is.
#[derive(Drop)]
pub struct ShownText {
    text: String,
}

impl ShownText {
    /// The characters that are shown.
    pub fn as_str(&self) -> &str
        ensures { result.now ≡ string_bytes self.now.text }
    {
        self.text.as_str()
    }
}

/// A text as it is shown.
///
/// # Errors
///
/// `AllocError` if there is no memory.
pub fn shown(alloc: Global, text: &str) -> Result<ShownText, AllocError>
    ensures { IfOk result (λ s. string_bytes s.text ≡ encode_utf8_all (shown (chars text.now))) }
{
    let mut out = String::new(alloc);
    'text: for character in text.chars() {
        push_shown(character, &mut out)?;
    }
    Ok(ShownText { text: out })
}

#[cfg(test)]
mod tests;
