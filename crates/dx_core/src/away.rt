// Blocks that can be moved away as a whole.
//
// If all rows of a block can become rows of others, none of its rows is needed, and tried one by one all of them would go. So the
// block goes at once, and what is left is the same. It is asked first without the rows of any larger block: a search in those can
// take long.
ghost use Rattle.std.specs.Prelude.{◌≡◌, ℕ, false, true, IfOk, IfSome, OnOk, length, map};
ghost use Rattle.dx_base.specs.Members.{Each};
ghost use Rattle.dx_model.specs.Instances.{given};
ghost use Rattle.dx_blocks.specs.Numbered.{IsRowIn, fact_of};
ghost use Rattle.dx_solver.specs.Marks.{is_out};
ghost use Rattle.dx_core.specs.Asking.{MovesOff, pairs_by};
ghost use Rattle.dx_core.specs.Left.{facts_left};
ghost use Rattle.dx_core.specs.Sparing.{IsAsked, with_back};

use crate::asking::atoms_of;
use crate::sparing::Reduction;
use crate::task::{FEW, Task};
use dx_blocks::{At, NumberBlock};
use dx_solver::solve;
use std::alloc::{AllocError, Global};

// Whether a row is the first of these.
fn is_first(rows: &[At], at: At) -> bool {
    match rows.first() {
        None => false,
        Some(first) => first.table == at.table && first.place == at.place,
    }
}

/// How many rows may be taken out for all larger blocks together.
const MOST: usize = 20_000_000;

/// The rows of larger blocks, each of which is asked once without all of them; none if that takes long.
///
/// # Errors
///
/// `AllocError` if there is no memory.
pub(crate) fn rows_of_larger(alloc: Global, blocks: &[NumberBlock]) -> Result<Vec<At>, AllocError> {
    let mut count = 0usize;
    let mut larger = Vec::new(alloc);
    for block in blocks {
        let rows = block.rows.items();
        if rows.len() > FEW {
            count = count.saturating_add(1);
            larger.extend_from_slice(rows)?;
        }
    }
    if larger.len().saturating_mul(count) > MOST {
        return Ok(Vec::new(alloc));
    }
    Ok(larger)
}

impl<'a> Reduction<'a> {
    // Whether there is such a row, and it is left.
    fn is_left(&self, at: At) -> bool
        ensures row { result ≡ true → IsRowIn self.now.numbers at }
        ensures left { result ≡ true → is_out self.now.taken at.table at.place ≡ false }
        ensures gone { result ≡ false → IsRowIn self.now.numbers at → is_out self.now.taken at.table at.place ≡ true }
    {
        if at.table >= self.numbers.tables() || at.place >= self.numbers.count(at.table) {
            return false;
        }
        !self.taken.has(at.table, at.place)
    }

    // Takes out those of these rows that are left, and gives them.
    fn take_left(&mut self, rows: &[At]) -> Result<Vec<At>, AllocError>
        ensures numbers { self.new.numbers ≡ self.old.numbers }
        ensures there { IfOk result (λ gone. Each gone.items (IsRowIn self.old.numbers)) }
        ensures back { IfOk result (λ gone. with_back self.new.taken gone.items ≡ self.old.taken) }
        ensures out { OnOk result (Each rows.now
            (λ at. IsRowIn self.old.numbers at → is_out self.new.taken at.table at.place ≡ true)) }
        ensures others { OnOk result ((t p : ℕ) → is_out self.new.taken t p ≡ false → is_out self.old.taken t p ≡ false) }
    {
        prove!((self.numbers.len() as u64) < 1 << 32);
        let mut gone = Vec::new(self.alloc);
        for at in rows {
            if !self.is_left(*at) {
                continue;
            }
            self.taken.take_out(at.table, at.place);
            gone.push(*at)?;
        }
        Ok(gone)
    }

    // Puts rows back that were taken out, the last first.
    fn put_left(&mut self, gone: Vec<At>)
        requires { Each gone.items (IsRowIn self.old.numbers) }
        ensures numbers { self.new.numbers ≡ self.old.numbers }
        ensures back { self.new.taken ≡ with_back self.old.taken gone.items }
    {
        prove!((self.numbers.len() as u64) < 1 << 32);
        let mut left = gone;
        while let Some(at) = left.pop() {
            self.taken.put_back(at.table, at.place);
        }
    }

    // Numbers for the nulls of a block, so that its rows become rows that are left, neither its own nor any of these others, if there
    // are some.
    fn ask_without(
        &mut self,
        task: &Task<'_>,
        others: &[At],
        at: At,
    ) -> Result<Option<Vec<u32>>, AllocError>
        requires { IsAsked self.old.numbers self.old.taken task.now.block.now task.now.known.items at }
        ensures numbers { self.new.numbers ≡ self.old.numbers }
        ensures taken { OnOk result (self.new.taken ≡ self.old.taken) }
        ensures long { IfOk result (λ o. IfSome o (λ xs. length xs.items ≡ length task.now.block.now.nulls)) }
        ensures moves { IfOk result (λ o. IfSome o (λ xs. MovesOff
            (given (pairs_by self.old.numbers task.now.block.now.nulls xs.items)) (facts_left self.old.numbers self.old.taken)
            (map (fact_of self.old.numbers) task.now.block.now.rows) (fact_of self.old.numbers at))) }
    {
        prove!((self.numbers.len() as u64) < 1 << 32);
        let nulls = task.block.nulls.items();
        let rows = task.block.rows.items();
        let atoms = atoms_of(self.alloc, &self.numbers, nulls, &self.taken, rows)?;
        let own = self.take_left(rows)?;
        let gone = self.take_left(others)?;
        let answer = solve(self.alloc, &self.numbers, &self.taken, &atoms, &task.known)?;
        self.put_left(gone);
        self.put_left(own);
        Ok(answer)
    }

    // The same without the rows of any larger block, if there is another one.
    fn ask_without_larger(
        &mut self,
        task: &Task<'_>,
        at: At,
    ) -> Result<Option<Vec<u32>>, AllocError>
        requires { IsAsked self.old.numbers self.old.taken task.now.block.now task.now.known.items at }
        ensures numbers { self.new.numbers ≡ self.old.numbers }
        ensures taken { OnOk result (self.new.taken ≡ self.old.taken) }
        ensures long { IfOk result (λ o. IfSome o (λ xs. length xs.items ≡ length task.now.block.now.nulls)) }
        ensures moves { IfOk result (λ o. IfSome o (λ xs. MovesOff
            (given (pairs_by self.old.numbers task.now.block.now.nulls xs.items)) (facts_left self.old.numbers self.old.taken)
            (map (fact_of self.old.numbers) task.now.block.now.rows) (fact_of self.old.numbers at))) }
    {
        if task.larger.len() <= task.block.rows.items().len() {
            return Ok(None);
        }
        let answer = self.ask_without(task, task.larger, at)?;
        Ok(answer)
    }

    /// Numbers for the nulls of a block, so that its rows become rows of others that are left, if there are some. This is asked for its
    /// first row alone, before any is taken out: if there are none then, there are none later.
    ///
    /// # Errors
    ///
    /// `AllocError` if there is no memory.
    pub(crate) fn ask_away(
        &mut self,
        task: &Task<'_>,
        at: At,
    ) -> Result<Option<Vec<u32>>, AllocError>
        requires { IsAsked self.old.numbers self.old.taken task.now.block.now task.now.known.items at }
        ensures numbers { self.new.numbers ≡ self.old.numbers }
        ensures taken { OnOk result (self.new.taken ≡ self.old.taken) }
        ensures long { IfOk result (λ o. IfSome o (λ xs. length xs.items ≡ length task.now.block.now.nulls)) }
        ensures moves { IfOk result (λ o. IfSome o (λ xs. MovesOff
            (given (pairs_by self.old.numbers task.now.block.now.nulls xs.items)) (facts_left self.old.numbers self.old.taken)
            (map (fact_of self.old.numbers) task.now.block.now.rows) (fact_of self.old.numbers at))) }
    {
        if !is_first(task.block.rows.items(), at) {
            return Ok(None);
        }
        let away = self.ask_without_larger(task, at)?;
        if let Some(answer) = away {
            return Ok(Some(answer));
        }
        let answer = self.ask_without(task, &[], at)?;
        Ok(answer)
    }
}
