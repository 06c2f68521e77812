// Which facts had no place in a search: a matter of time alone.
ghost use Rattle.std.specs.Prelude.{◌≡◌, ◌↔◌, ◌<◌, ◌/◌, IfOk, IsTrue, replicate, slice_index_or};

use std::alloc::{AllocError, Global};

/// Up to how many failures a search takes the next fact without a wide look.
const FEW_FAILURES: usize = 32;

/// More failures than so many times the facts that are moved are many.
const TIMES: usize = 4;

/// How often the facts of a search had no place, in all and each.
#[derive(Drop)]
pub(crate) struct Failures {
    all: usize,
    each: Vec<u32>,
}

impl Failures {
    /// Room for so many facts.
    ///
    /// # Errors
    ///
    /// `AllocError` if there is no memory.
    pub(crate) fn reserve(alloc: Global, facts: usize) -> Result<Failures, AllocError>
        ensures all { IfOk result (λ f. f.all ≡ 0) }
        ensures each { IfOk result (λ f. f.each.items ≡ replicate facts 0) }
    {
        let each = vec![in alloc; 0u32; facts]?;
        Ok(Failures { all: 0, each })
    }

    /// None yet.
    pub(crate) fn clear(&mut self)
        ensures all { self.new.all ≡ 0 }
        ensures each { self.new.each ≡ self.old.each }
    {
        self.all = 0;
    }

    /// How often the fact at this place had no place.
    pub(crate) fn of(&self, fact: usize) -> u32
        ensures { result ≡ slice_index_or self.now.each.items fact 0 }
    {
        match self.each.get(fact) {
            None => 0,
            Some(count) => *count,
        }
    }

    /// Whether there are many, if so many facts are moved.
    pub(crate) fn are_many(&self, moved: usize) -> bool
        ensures { IsTrue result ↔ ((32 < self.now.all) × (moved < self.now.all / 4)) }
    {
        self.all > FEW_FAILURES && self.all / TIMES > moved
    }

    // Makes each of the first counts 0.
    fn forget(&mut self, facts: usize) {
        for fact in 0..facts {
            if let Some(count) = self.each.get_mut(fact) {
                *count = 0;
            }
        }
    }

    /// One more: the fact at this place, of so many, had no place.
    pub(crate) fn note(&mut self, fact: usize, facts: usize) {
        if self.all == 0 {
            self.forget(facts);
        }
        self.all = self.all.saturating_add(1);
        if let Some(count) = self.each.get_mut(fact) {
            *count = count.saturating_add(1);
        }
    }
}
