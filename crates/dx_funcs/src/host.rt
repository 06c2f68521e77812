// A list of conversions, and the closure that computes them.
ghost use Rattle.std.specs.Prelude.{◌≡◌, None, Some, IfOk, IfSome, IsUtf8, MatchOption, length, map};
ghost use Rattle.dx_base.specs.Members.{◌∈◌, Each};
ghost use Rattle.dx_funcs.specs.Names.{TakesTexts, call_named, conversion_name, first_named};
ghost use Rattle.dx_funcs.specs.Offers.{IsOffer, IsOffer-prop, IsListed};

use crate::conversion::Conversion;
use crate::meaning::Meaning;
use dx_base::{Items, Text};
use std::alloc::AllocError;
use std::marker::PhantomData;

/// Conversions, and the closure that computes them. `M` is what they mean.
#[derive(Drop)]
pub struct Host<F, M> {
    list: Items<Conversion>,
    function: F,
    meaning: PhantomData<M>,
    ghost offer: { IsOffer list } by { IsOffer-prop list },
}

impl<F: Fn(u32, &Items<Text>) -> Result<Text, AllocError>, M: Meaning> Host<F, M> {
    ghost use Rattle.dx_funcs.specs.Serving.{AnswersCalls, Serves, offered};

    /// Stores a closure beside the list of what it computes.
    pub fn build(list: Items<Conversion>, function: F) -> Host<F, M>
        requires offer { IsOffer list }
        requires answers { AnswersCalls F.Fn function M.apply list }
        ensures offered { offered result ≡ list }
        ensures serves { Serves F.Fn M.apply result }
    {
        Host {
            list,
            function,
            meaning: PhantomData,
        }
    }

    /// The conversion of this name. None if none is listed.
    pub fn find(&self, name: &Text) -> Option<&Conversion>
        ensures found { MatchOption result (first_named (offered self.now) name.now ≡ None)
            (λ c. first_named (offered self.now) name.now ≡ Some c.now) }
        ensures listed { IfSome result (λ c. (c.now ∈ offered self.now) × (c.now.name ≡ name.now)) }
    {
        self.list
            .items()
            .iter()
            .find(|conversion| conversion.name.is(name))
    }

    /// The conversion of this code.
    pub fn by_code(&self, code: u32) -> &Conversion
        requires { code ∈ map (λ c. c.code) (offered self.now) }
        ensures listed { result.now ∈ offered self.now }
        ensures code { result.now.code ≡ code }
        ensures name { result.now.name ≡ conversion_name (offered self.now) code }
    {
        for conversion in self.list.items() {
            if conversion.code == code {
                return conversion;
            }
        }
        unreachable!()
    }

    /// The text that a conversion makes of texts.
    ///
    /// # Errors
    ///
    /// `AllocError` if the closure answers it.
    pub fn call(&self, code: u32, args: &Items<Text>) -> Result<Text, AllocError>
        requires serves { Serves F.Fn M.apply self.now }
        requires listed { IsListed (offered self.now) code (length args.now) }
        ensures { IfOk result (λ t. t ≡ M.apply code args.now) }
    {
        are_utf8(args.items());
        (self.function)(code, args)
    }

    /// The text that the conversion of this name makes of texts.
    ///
    /// # Errors
    ///
    /// `AllocError` if the closure answers it.
    pub fn call_named(&self, name: &Text, args: &Items<Text>) -> Result<Text, AllocError>
        requires serves { Serves F.Fn M.apply self.now }
        requires takes { TakesTexts (offered self.now) name.now (length args.now) }
        ensures { IfOk result (λ t. t ≡ call_named M.apply (offered self.now) name.now args.now) }
    {
        match self.find(name) {
            Some(conversion) => self.call(conversion.code, args),
            None => unreachable!(),
        }
    }
}

// The bytes of each text are UTF-8: a fact of the type, said of a list.
fn are_utf8(texts: &[Text])
    ensures { Each texts.now IsUtf8 }
{
    for text in texts {
        prove!(text.bytes().len() <= usize::MAX);
    }
}
