// Which variables are known.
ghost use Rattle.std.specs.Prelude.{◌↔◌, ◌<◌, ◌≤◌, ◌∷◌, [], ℕ, IfOk, IsTrue};
ghost use Rattle.dx_base.specs.Members.{Each};
ghost use Rattle.dx_joins.specs.Joining.{variables_of_patterns};
ghost use Rattle.dx_joins.specs.Knowing.{HasPlaces, IsCovered, IsKnown, IsMet, NowKnown};

use crate::pattern::Pattern;
use std::alloc::{AllocError, Global};

/// The variables of the patterns that were gone through, by their numbers.
#[derive(Drop)]
pub(crate) struct Known {
    marks: Vec<bool>,
}

// The greater of two numbers.
fn greater(a: usize, b: usize) -> usize
    ensures first { a ≤ result }
    ensures second { b ≤ result }
{
    if a < b { b } else { a }
}

/// A number above these variables, and no less than another.
pub(crate) fn above(least: usize, variables: &[u32]) -> usize
    ensures least { least ≤ result }
    ensures above { Each variables.now (λ x. x < result) }
{
    let mut above = least;
    for variable in variables {
        above = greater(above, *variable as usize + 1);
    }
    above
}

/// A number above all variables of the patterns.
pub(crate) fn above_all(patterns: &[Pattern]) -> usize
    ensures { Each (variables_of_patterns patterns.now) (λ x. x < result) }
{
    let mut all = 0;
    for pattern in patterns {
        all = above(all, &pattern.variables);
    }
    all
}

impl Known {
    /// None of the patterns' variables.
    pub(crate) fn none(alloc: Global, patterns: &[Pattern]) -> Result<Known, AllocError>
        ensures none { IfOk result (λ known. (x : ℕ) → ¬ (IsKnown known x)) }
        ensures places { IfOk result (λ known. HasPlaces known (variables_of_patterns patterns.now)) }
    {
        let marks = vec![in alloc; false; above_all(patterns)]?;
        Ok(Known { marks })
    }

    /// Whether the variable is known.
    pub(crate) fn has(&self, variable: u32) -> bool
        ensures { IsTrue result ↔ IsKnown self.now variable }
    {
        let place = variable as usize;
        place < self.marks.len() && self.marks[place]
    }

    /// Whether a variable of the pattern is known.
    pub(crate) fn meets(&self, pattern: &Pattern) -> bool
        ensures { IsTrue result ↔ IsMet self.now pattern.now }
    {
        pattern.variables.iter().any(|variable| self.has(*variable))
    }

    /// Whether each variable of the pattern is known.
    pub(crate) fn covers(&self, pattern: &Pattern) -> bool
        ensures { IsTrue result ↔ IsCovered self.now pattern.now }
    {
        pattern.variables.iter().all(|variable| self.has(*variable))
    }

    // Now the variable is known too, if there is a place for it.
    fn mark(&mut self, variable: u32)
        ensures { NowKnown self.old self.new (variable ∷ []) }
    {
        let place = variable as usize;
        if place < self.marks.len() {
            self.marks[place] = true;
        }
    }

    /// Now those of the pattern are known too.
    pub(crate) fn add(&mut self, pattern: &Pattern)
        ensures { NowKnown self.old self.new pattern.now.variables.items }
    {
        for variable in &pattern.variables {
            self.mark(*variable);
        }
    }
}
