// What each shipped conversion does to its texts, and what each shipped row test asks of one.
ghost use Rattle.std.specs.Prelude.{◌≡◌, IfOk};
ghost use Rattle.std.specs.List.{list_all};
ghost use Rattle.std.specs.Char.{is_ascii_digit};
ghost use Rattle.dx_funcs.specs.Shipped.{digits_of, is_filled, is_numeric, paired, trimmed};

use dx_base::Text;
use std::alloc::{AllocError, Global};

/// The text without the spaces at its front and its end.
pub fn trim(alloc: Global, text: &Text) -> Result<Text, AllocError>
    ensures { IfOk result (λ t. t ≡ trimmed text.now) }
{
    let rest = text.as_str().trim_start_matches(' ');
    Text::from_str(alloc, rest.trim_end_matches(' '))
}

/// The digits of the text, in order.
pub fn digits(alloc: Global, text: &Text) -> Result<Text, AllocError>
    ensures { IfOk result (λ t. t ≡ digits_of text.now) }
{
    let mut kept = String::new(alloc);
    for byte in text.bytes() {
        if byte.is_ascii_digit() {
            kept.push(char::from(*byte))?;
        }
    }
    Text::from_string(alloc, kept)
}

/// The first text, one space, the second.
pub fn pair(alloc: Global, first: &Text, second: &Text) -> Result<Text, AllocError>
    ensures { IfOk result (λ t. t ≡ paired first.now second.now) }
{
    let joined = format!(in alloc; "{} {}", first.as_str(), second.as_str())?;
    Text::from_string(alloc, joined)
}

/// Whether the text isn't empty.
pub fn is_filled(text: &Text) -> bool
    ensures { result ≡ is_filled text.now }
{
    !text.bytes().is_empty()
}

// Whether each byte of the text is a digit.
fn has_digits_alone(text: &Text) -> bool
    ensures { result ≡ list_all is_ascii_digit text.now }
{
    text.bytes().iter().all(|byte| byte.is_ascii_digit())
}

/// Whether the text isn't empty and has digits alone.
pub fn is_numeric(text: &Text) -> bool
    ensures { result ≡ is_numeric text.now }
{
    is_filled(text) && has_digits_alone(text)
}
