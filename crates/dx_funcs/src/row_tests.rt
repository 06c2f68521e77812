// A list of row tests, and the closure that decides them.
ghost use Rattle.std.specs.Prelude.{◌≡◌, ◌↔◌, IfOk, IfSome, IsSome, map};
ghost use Rattle.dx_base.specs.Members.{◌∈◌};
ghost use Rattle.dx_funcs.specs.RowTests.{AreTests, AreTests-prop};

use crate::meaning::Meaning;
use crate::row_test::RowTest;
use dx_base::{Items, Text};
use std::alloc::AllocError;
use std::marker::PhantomData;

/// Row tests, and the closure that decides them. `M` is what they mean.
#[derive(Drop)]
pub struct Tests<P, M> {
    list: Items<RowTest>,
    function: P,
    meaning: PhantomData<M>,
    ghost tests: { AreTests list } by { AreTests-prop list },
}

impl<P: Fn(u32, &Text) -> Result<bool, AllocError>, M: Meaning> Tests<P, M> {
    ghost use Rattle.dx_funcs.specs.Judging.{Decides, Judges, tested};

    /// Stores a closure beside the list of what it decides.
    pub fn build(list: Items<RowTest>, function: P) -> Tests<P, M>
        requires tests { AreTests list }
        requires judges { Judges P.Fn function M.passes list }
        ensures tested { tested result ≡ list }
        ensures decides { Decides P.Fn M.passes result }
    {
        Tests {
            list,
            function,
            meaning: PhantomData,
        }
    }

    /// The row test of this name. None if none is listed.
    pub fn find(&self, name: &Text) -> Option<&RowTest>
        ensures some { IfSome result (λ t. (t.now ∈ tested self.now) × (t.now.name ≡ name.now)) }
        ensures none { IsSome result ↔ (name.now ∈ map (λ t. t.name) (tested self.now)) }
    {
        self.list.items().iter().find(|test| test.name.is(name))
    }

    /// Whether a text passes the row test of a code.
    ///
    /// # Errors
    ///
    /// `AllocError` if the closure answers it.
    pub fn check(&self, code: u32, text: &Text) -> Result<bool, AllocError>
        requires decides { Decides P.Fn M.passes self.now }
        requires listed { code ∈ map (λ t. t.code) (tested self.now) }
        ensures { IfOk result (λ b. b ≡ M.passes code text.now) }
    {
        prove!(text.bytes().len() <= usize::MAX);
        (self.function)(code, text)
    }
}
