// How often variables are still used.
ghost use Rattle.std.specs.Prelude.{◌<◌, length};

use crate::known::{Known, above, above_all};
use crate::pattern::Pattern;
use crate::plan::has;
use std::alloc::{AllocError, Global};

/// For each variable, by its number, how many of the patterns that are still to be joined have it, and one more if it is
/// shown.
#[derive(Drop)]
pub(crate) struct Uses {
    counts: Vec<usize>,
}

// Whether the variable of a column stands in no column before it.
fn is_first(variables: &[u32], column: usize) -> bool
    requires { column < length variables.now }
{
    !has(&variables[..column], variables[column])
}

impl Uses {
    /// How often the patterns, and what is shown, use variables.
    pub(crate) fn of(
        alloc: Global,
        patterns: &[Pattern],
        shown: &[u32],
    ) -> Result<Uses, AllocError> {
        let count = above(above_all(patterns), shown);
        let counts = vec![in alloc; 0; count]?;
        let mut uses = Uses { counts };
        uses.add(shown);
        for pattern in patterns {
            uses.add(&pattern.variables);
        }
        Ok(uses)
    }

    // How often a variable is used.
    fn count(&self, variable: u32) -> usize {
        let place = variable as usize;
        if place < self.counts.len() {
            self.counts[place]
        } else {
            0
        }
    }

    // Now the variable is used so often, if there is a place for it.
    fn set(&mut self, variable: u32, count: usize) {
        let place = variable as usize;
        if place < self.counts.len() {
            self.counts[place] = count;
        }
    }

    // One use more of each of these variables.
    fn add(&mut self, variables: &[u32]) {
        for column in 0..variables.len() {
            let variable = variables[column];
            if is_first(variables, column) {
                self.set(variable, self.count(variable).saturating_add(1));
            }
        }
    }

    /// One use less of each variable of the pattern.
    pub(crate) fn done(&mut self, pattern: &Pattern) {
        let variables = &pattern.variables;
        for column in 0..variables.len() {
            let variable = variables[column];
            if is_first(variables, column) {
                self.set(variable, self.count(variable).saturating_sub(1));
            }
        }
    }

    // By how many variables more must be kept after one of these patterns that has the variable: none less if another
    // pattern needs it or it is shown, and one more if it was not known before.
    fn change(&self, variable: u32, known: &Known) -> i64 {
        let kept = i64::from(self.count(variable) > 1);
        let before = i64::from(known.has(variable));
        kept.saturating_sub(before)
    }

    /// How many variables more than before must be kept once one of the patterns is joined.
    pub(crate) fn growth(&self, pattern: &Pattern, known: &Known) -> i64 {
        let variables = &pattern.variables;
        let mut growth = 0i64;
        for column in 0..variables.len() {
            if is_first(variables, column) {
                growth = growth.saturating_add(self.change(variables[column], known));
            }
        }
        growth
    }
}
