// The conversions and the row tests that come with the program.
ghost use Rattle.std.specs.Prelude.{◌≡◌, ◌≤◌, IfOk, Ok, length};
ghost use Rattle.dx_funcs.specs.RowTests.{AreTests};
ghost use Rattle.dx_funcs.specs.Offers.{IsListed, IsOffer};
ghost use Rattle.dx_funcs.specs.Shipped.{shipped_apply, shipped_conversions, shipped_passes, shipped_row_tests};

use crate::conversion::Conversion;
use crate::meaning::Meaning;
use crate::row_test::RowTest;
use crate::steps::{digits, is_filled, is_numeric, pair, trim};
use dx_base::{Items, Text};
use std::alloc::{AllocError, Global};

/// What the conversions and the row tests that come with the program mean.
#[derive(Clone, Copy)]
pub struct Shipped;

impl Meaning for Shipped {
    ghost apply = { shipped_apply };

    ghost passes = { shipped_passes };
}

fn conversion(alloc: Global, name: &str, code: u32, arity: u32) -> Result<Conversion, AllocError>
    ensures { IfOk result (λ c. c ≡ record { name = name.now; code = code; arity = arity }) }
{
    Ok(Conversion {
        name: Text::from_str(alloc, name)?,
        code,
        arity,
    })
}

/// The conversions that come with the program, in order of their codes.
///
/// # Errors
///
/// `AllocError` if there is no memory.
#[tactic(auto, using(crate::proofs::Offered::shipped_offer))]
pub fn shipped_list(alloc: Global) -> Result<Items<Conversion>, AllocError>
    ensures list { IfOk result (λ list. list ≡ shipped_conversions) }
    ensures offer { IfOk result (λ list. IsOffer list) }
{
    let mut list = Items::new(alloc);
    list.push(conversion(alloc, "trim", 0, 1)?)?;
    list.push(conversion(alloc, "digits", 1, 1)?)?;
    list.push(conversion(alloc, "pair", 2, 2)?)?;
    Ok(list)
}

/// The text that a shipped conversion makes of texts.
///
/// # Errors
///
/// `AllocError` if there is no memory.
pub fn convert(alloc: Global, code: u32, args: &Items<Text>) -> Result<Text, AllocError>
    requires { IsListed shipped_conversions code (length args.now) }
    ensures { IfOk result (λ t. t ≡ shipped_apply code args.now) }
{
    match (code, args.items()) {
        (0, [text]) => trim(alloc, text),
        (1, [text]) => digits(alloc, text),
        (2, [first, second]) => pair(alloc, first, second),
        _ => unreachable!(),
    }
}

fn row_test(alloc: Global, name: &str, code: u32) -> Result<RowTest, AllocError>
    ensures { IfOk result (λ t. t ≡ record { name = name.now; code = code }) }
{
    Ok(RowTest {
        name: Text::from_str(alloc, name)?,
        code,
    })
}

/// The row tests that come with the program, in order of their codes.
///
/// # Errors
///
/// `AllocError` if there is no memory.
#[tactic(auto, using(crate::proofs::Judged::shipped_are_tests))]
pub fn shipped_tests(alloc: Global) -> Result<Items<RowTest>, AllocError>
    ensures list { IfOk result (λ list. list ≡ shipped_row_tests) }
    ensures tests { IfOk result (λ list. AreTests list) }
{
    let mut list = Items::new(alloc);
    list.push(row_test(alloc, "filled", 0)?)?;
    list.push(row_test(alloc, "numeric", 1)?)?;
    Ok(list)
}

/// Whether a text passes a shipped row test. It takes no memory.
///
/// # Errors
///
/// None.
pub fn check_row(code: u32, text: &Text) -> Result<bool, AllocError>
    requires { code ≤ 1 }
    ensures { result ≡ Ok (shipped_passes code text.now) }
{
    if code == 0 {
        Ok(is_filled(text))
    } else {
        Ok(is_numeric(text))
    }
}
