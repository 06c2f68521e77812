// A join of partial matches with the rows of a pattern's table.
ghost use Rattle.std.specs.Prelude.{◌≡◌, ◌<◌, IfOk, IfSome, length};
ghost use Rattle.dx_instance.specs.Shown.{NumbersBelow, numbers_of_table};
ghost use Rattle.dx_joins.specs.Collecting.{Collects};
ghost use Rattle.dx_joins.specs.Planning.{CanJoin, IndexesTable, IsJoinPlan, Pairs, PairsIn, PairsOf};

use crate::collected::Collected;
use crate::index::{Index, key_at};
use crate::pairs::{agree, are_marked, gather};
use crate::plan::Plan;
use dx_instance::{Numbers, Rows};
use std::alloc::{AllocError, Global};

/// How rows of partial matches are put together with the rows of a table, of which those count whose numbers are all marked.
#[derive(Clone, Copy)]
pub(crate) struct Pairing<'a, 'n> {
    pub(crate) plan: &'a Plan,
    pub(crate) marks: &'a [bool],
    pub(crate) source: &'a Numbers<'n>,
    pub(crate) table: u32,
    ghost inside: { table < length source.now.tables },
    ghost marked: { length marks.now ≡ length source.now.symbols },
    ghost wide: { (numbers_of_table source.now.tables table).width ≡ length plan.now.right.items },
}

impl<'a, 'n> Pairing<'a, 'n> {
    // Collects what comes of two rows, if anything does. Answers whether there are more rows than are wanted.
    fn join_pair(
        &self,
        left: &[u32],
        right: &[u32],
        buffer: &mut Vec<u32>,
        out: &mut Collected,
    ) -> Result<bool, AllocError>
        requires ready { CanJoin self.now.plan.now (length left.now) out.old }
        requires right { length right.now ≡ length self.now.plan.now.right.items }
        requires below { NumbersBelow (length self.now.marks.now) right.now }
        ensures { IfOk result (λ full. Collects full out.old out.new (Pairs self.now.plan.now self.now.marks.now left.now right.now)) }
    {
        if !are_marked(self.marks, right) {
            return Ok(false);
        }
        if !agree(left, right, &self.plan.firsts) {
            return Ok(false);
        }
        gather(left, right, &self.plan.places, buffer)?;
        out.push(buffer)
    }

    // Collects what comes of a row and the rows of the table that the index tells.
    fn join_row(
        &self,
        index: &Index,
        left: &[u32],
        buffer: &mut Vec<u32>,
        out: &mut Collected,
    ) -> Result<bool, AllocError>
        requires ready { CanJoin self.now.plan.now (length left.now) out.old }
        requires index { IndexesTable self.now.plan.now self.now.source.now.tables self.now.table index.now }
        ensures { IfOk result (λ full. Collects full out.old out.new
            (PairsIn self.now.plan.now self.now.marks.now self.now.source.now.tables self.now.table left.now)) }
    {
        let count = self.source.count(self.table);
        let mut place = index.first(key_at(left, &self.plan.by_left));
        while place < count {
            let right = self.source.row(self.table, place);
            if self.join_pair(left, right, buffer, out)? {
                return Ok(true);
            }
            place = index.next(place);
        }
        Ok(false)
    }

    // Collects what comes of a row and each row of the table.
    fn join_all(
        &self,
        left: &[u32],
        buffer: &mut Vec<u32>,
        out: &mut Collected,
    ) -> Result<bool, AllocError>
        requires { CanJoin self.now.plan.now (length left.now) out.old }
        ensures { IfOk result (λ full. Collects full out.old out.new
            (PairsIn self.now.plan.now self.now.marks.now self.now.source.now.tables self.now.table left.now)) }
    {
        for place in 0..self.source.count(self.table) {
            let right = self.source.row(self.table, place);
            if self.join_pair(left, right, buffer, out)? {
                return Ok(true);
            }
        }
        Ok(false)
    }

    // The index of the table by the columns that are joined, if there are any.
    fn index(&self, alloc: Global) -> Result<Option<Index>, AllocError>
        requires plan { IsJoinPlan self.now.plan.now }
        ensures { IfOk result (λ index. IfSome index (IndexesTable self.now.plan.now self.now.source.now.tables self.now.table)) }
    {
        if self.plan.by_right.is_empty() {
            return Ok(None);
        }
        Ok(Some(Index::build(alloc, self.source, self.table, &self.plan.by_right)?))
    }

    // Collects what comes of a row and the rows of the table: those that the index tells, or all of them if there is none.
    fn join_left(
        &self,
        index: &Option<Index>,
        left: &[u32],
        buffer: &mut Vec<u32>,
        out: &mut Collected,
    ) -> Result<bool, AllocError>
        requires ready { CanJoin self.now.plan.now (length left.now) out.old }
        requires index { IfSome index.now (IndexesTable self.now.plan.now self.now.source.now.tables self.now.table) }
        ensures { IfOk result (λ full. Collects full out.old out.new
            (PairsIn self.now.plan.now self.now.marks.now self.now.source.now.tables self.now.table left.now)) }
    {
        match index {
            None => self.join_all(left, buffer, out),
            Some(index) => self.join_row(index, left, buffer, out),
        }
    }

    /// Collects what comes of each row and the rows of the table. Answers whether there are more rows than are wanted.
    ///
    /// # Errors
    ///
    /// `AllocError` if there is no memory, or no place number is left.
    pub(crate) fn join(
        &self,
        alloc: Global,
        rows: &Rows,
        out: &mut Collected,
    ) -> Result<bool, AllocError>
        requires { CanJoin self.now.plan.now rows.now.width out.old }
        ensures { IfOk result (λ full. Collects full out.old out.new
            (PairsOf self.now.plan.now self.now.marks.now self.now.source.now.tables self.now.table rows.now.rows)) }
    {
        let made = self.index(alloc)?;
        let index = &made;
        let mut buffer = Vec::new(alloc);
        for place in 0..rows.count() {
            let left = rows.row(place);
            if self.join_left(index, left, &mut buffer, out)? {
                return Ok(true);
            }
        }
        Ok(false)
    }
}
