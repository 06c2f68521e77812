// Numbers in decimal.
ghost use Rattle.std.specs.Prelude.{◌≡◌, ◌≤◌, ◌+◌, ◌<◌, ◌^◌, length, true};
ghost use Rattle.dx_tokens.specs.Tokens.{is_digit};
ghost use Rattle.dx_script_tokens.specs.Numbers.{more_digits, number_at, numeral_of, with_digit};

use dx_tokens::is_digit_byte;

// A value with one digit more, if that does not pass the greatest.
fn with_digit(value: u32, digit: u8) -> Option<u32>
    ensures { result ≡ with_digit value digit }
{
    if !is_digit_byte(digit) {
        return None;
    }
    let next = 10 * u64::from(value) + u64::from(digit - b'0');
    if next <= 4_294_967_295 {
        Some(next as u32)
    } else {
        None
    }
}

// How many digits go on after a value, and the value with them.
fn more_digits(first: u32, digits: &[u8]) -> (usize, u32)
    ensures value { result ≡ more_digits first digits.now }
    ensures within { result.0 ≤ length digits.now }
{
    let mut value = first;
    let mut len = 0usize;
    let mut rest = digits;
    'digits: while let Some((digit, others)) = rest.split_first() {
        let Some(next) = with_digit(value, *digit) else {
            return (len, value);
        };
        value = next;
        len += 1;
        rest = others;
    }
    (len, value)
}

/// The length and the value of the number that a digit begins.
pub(crate) fn number(b: u8, rest: &[u8]) -> (usize, u32)
    requires digit { is_digit b ≡ true }
    requires room { length rest.now + 1 < 2 ^ 64 }
    ensures value { result ≡ number_at b rest.now }
    ensures some { 1 ≤ result.0 }
    ensures within { result.0 ≤ 1 + length rest.now }
{
    if b == b'0' {
        return (1, 0);
    }
    let (len, value) = more_digits(u32::from(b - b'0'), rest);
    (len + 1, value)
}

/// The value of bytes that are one number, if they are.
#[tactic(auto, unfolding(crate::specs::Numbers::numeral_of))]
pub(crate) fn numeral(bytes: &[u8]) -> Option<u32>
    ensures { result ≡ numeral_of bytes.now }
{
    let (first, rest) = bytes.split_first()?;
    if !is_digit_byte(*first) {
        return None;
    }
    let (len, value) = number(*first, rest);
    if len == bytes.len() {
        Some(value)
    } else {
        None
    }
}
