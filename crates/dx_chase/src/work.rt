// The demands that wait.
ghost use Rattle.std.specs.Prelude.{◌≡◌, ◌++◌, ◌∷◌, [], IfSome, IfNone, OnOk};
ghost use Rattle.std.specs.List.{range_with_len};
ghost use Rattle.dx_chase.specs.Work.{AddsNumbers};

use std::alloc::{AllocError, Global};
use std::marker::Model;

/// The numbers that wait. A contract sees the list of them: those below `fresh`, which were never taken, and then those
/// that came since.
#[derive(Drop)]
pub struct Work {
    fresh: u64,
    woken: Vec<u64>,
}

impl Model for Work {
    ghost use Rattle.std.specs.Prelude.{List, ℕ, ◌++◌};
    ghost use Rattle.std.specs.List.{range_with_len};

    ghost Value = { List ℕ };

    ghost view = { λ w. range_with_len 0 w.fresh ++ w.woken.items };
}

impl Work {
    /// The numbers below n.
    pub fn new(alloc: Global, n: u64) -> Work
        ensures { result ≡ range_with_len 0 n }
    {
        Work {
            fresh: n,
            woken: Vec::new(alloc),
        }
    }

    /// The last number, which waits no more.
    pub fn pop(&mut self) -> Option<u64>
        ensures some { IfSome result (λ one. self.old ≡ self.new ++ one ∷ []) }
        ensures none { IfNone result (self.old ≡ []) }
        ensures empty { IfNone result (self.new ≡ []) }
    {
        if let Some(one) = self.woken.pop() {
            return Some(one);
        }
        if self.fresh == 0 {
            return None;
        }
        self.fresh -= 1;
        Some(self.fresh)
    }

    /// One number more, at the end.
    ///
    /// # Errors
    ///
    /// `AllocError` if there is no memory.
    pub fn push(&mut self, one: u64) -> Result<(), AllocError>
        ensures { OnOk result (self.new ≡ self.old ++ one ∷ []) }
    {
        self.woken.push(one)?;
        Ok(())
    }

    /// More numbers. One that was never taken waits already.
    ///
    /// # Errors
    ///
    /// `AllocError` if there is no memory.
    pub fn add(&mut self, more: &[u64]) -> Result<(), AllocError>
        ensures { OnOk result (AddsNumbers more.now self.old self.new) }
    {
        for one in more {
            if *one < self.fresh {
                continue;
            }
            self.woken.push(*one)?;
        }
        Ok(())
    }
}
