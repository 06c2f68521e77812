// What a variable can still become.
ghost use Rattle.std.specs.Prelude.{◌≡◌, ◌≤◌, ◌^◌, ℕ, IfOk, length, true};
ghost use Rattle.dx_base.specs.Members.{◌∈◌};
ghost use Rattle.dx_solver.specs.Domains.{DomainHas, domain_size};

use crate::values::Values;
use std::alloc::{AllocError, Global};

/// What a variable can still become: anything, one number, or one of these.
#[derive(Drop)]
pub(crate) enum Domain {
    Any,
    One(u32),
    Many(Values),
}

impl Domain {
    /// These numbers.
    pub(crate) fn of(list: Vec<u32>) -> Domain
        ensures all { (n : ℕ) → n ∈ list.items → DomainHas result n }
        ensures few { (m : ℕ) → domain_size m result ≤ length list.items }
    {
        let values = Values::of(list);
        let items = values.items();
        if items.len() == 1 {
            return Domain::One(items[0]);
        }
        Domain::Many(values)
    }

    /// Whether it has the number.
    pub(crate) fn has(&self, number: u32) -> bool
        ensures { DomainHas self.now number → result ≡ true }
    {
        match self {
            Domain::Any => true,
            Domain::One(only) => *only == number,
            Domain::Many(values) => values.has(number),
        }
    }

    /// How many numbers it has; more than any list has if it has all.
    pub(crate) fn size(&self) -> u64
        ensures { result ≡ domain_size (2 ^ 32) self.now }
    {
        match self {
            Domain::Any => 1 << 32,
            Domain::One(_) => 1,
            Domain::Many(values) => values.items().len() as u64,
        }
    }

    /// A copy.
    ///
    /// # Errors
    ///
    /// `AllocError` if there is no memory.
    pub(crate) fn copy(&self, alloc: Global) -> Result<Domain, AllocError>
        ensures { IfOk result (λ d. d ≡ self.now) }
    {
        match self {
            Domain::Any => Ok(Domain::Any),
            Domain::One(only) => Ok(Domain::One(*only)),
            Domain::Many(values) => Ok(Domain::Many(values.copy(alloc)?)),
        }
    }
}
