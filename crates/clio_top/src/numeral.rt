// Numerals among the words.
ghost use Rattle.std.specs.Prelude.{◌≡◌};
ghost use Rattle.clio_top.specs.Words.{number_after, numeral_number};

use dx_base::Text;
use dx_gen::EMPLOYEES;

// The number of digits; none if one is no digit, or the number of those up to it is over 100,000.
fn number_of(digits: &[u8]) -> Option<u32>
    ensures { result ≡ number_after 0 digits.now }
{
    let mut number = 0;
    for digit in digits {
        if !digit.is_ascii_digit() {
            return None;
        }
        number = 10 * number + u32::from(*digit - b'0');
        if number > EMPLOYEES {
            return None;
        }
    }
    Some(number)
}

/// The number of a numeral without a leading zero, from 1 to 100,000.
pub(crate) fn number_in(word: &Text) -> Option<u32>
    ensures { result ≡ numeral_number word.now }
{
    match word.bytes() {
        [] | [b'0', ..] => None,
        digits => number_of(digits),
    }
}
