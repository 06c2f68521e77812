// Rows of numbers that are collected, each once in the end.
ghost use Rattle.std.specs.Prelude.{◌≡◌, ◌↔◌, ◌<◌, ◌≤◌, ◌-◌, ◌^◌, ◌++◌, ◌∷◌, [], ℕ, List, IfOk, OnOk, OnErr, MatchOption, length};
ghost use Rattle.std.specs.Bool.{OnTrue};
ghost use Rattle.dx_base.specs.Members.{◌∈◌, ◌⊆◌};
ghost use Rattle.dx_instance.specs.Cells.{NumbersAscend};
ghost use Rattle.dx_joins.specs.Collecting.{RowsExactly, Collects, FirstAscend, MoreThan};

use dx_base::no_number_left;
use dx_instance::Rows;
use std::alloc::{AllocError, Global};
use std::cmp::Ordering;
use std::marker::Model;

/// Rows of one width, of which no more than so many distinct ones are wanted. The first of them ascend.
#[derive(Drop)]
pub(crate) struct Collected {
    alloc: Global,
    most: u64,
    ascending: u32,
    rows: Rows,
}

impl Model for Collected {
    ghost use Rattle.dx_joins.specs.Collecting.{Collection, FirstAscend};

    ghost Value = { Collection };

    ghost view = { λ c. record { width = c.rows.width; most = c.most; rows = c.rows.rows } };

    ghost invariant = { λ c. FirstAscend c.ascending c.rows.rows };
}

// Whether the last row is this one.
fn ends_with(rows: &Rows, row: &[u32]) -> bool
    ensures { OnTrue result (row.now ∈ rows.now.rows) }
{
    let count = rows.count();
    count > 0 && rows.row(count - 1) == row
}

// How many of the first rows ascend when this one goes last.
fn ascending_with(rows: &Rows, ascending: u32, row: &[u32]) -> u32
    requires first { FirstAscend ascending rows.now.rows }
    requires room { length rows.now.rows < 2 ^ 32 - 1 }
    ensures { FirstAscend result (rows.now.rows ++ row.now ∷ []) }
{
    let count = rows.count();
    if count != ascending {
        return ascending;
    }
    if count == 0 {
        return 1;
    }
    if rows.row(count - 1).cmp(&row) == Ordering::Less {
        return ascending + 1;
    }
    ascending
}

// Puts the rows in order once most of them are out of it. Answers how many of the first rows ascend.
fn settle(alloc: Global, rows: &mut Rows, ascending: u32) -> Result<u32, AllocError>
    requires { FirstAscend ascending rows.old.rows }
    ensures first { IfOk result (λ n. FirstAscend n rows.new.rows) }
    ensures few { IfOk result (λ n. n < 2 ^ 32) }
    ensures same { OnOk result ((rows.old.rows ⊆ rows.new.rows) × (rows.new.rows ⊆ rows.old.rows)) }
    ensures width { OnOk result (rows.new.width ≡ rows.old.width) }
    ensures err { OnErr result (rows.new ≡ rows.old) }
{
    if rows.count() / 2 <= ascending.max(512) {
        return Ok(ascending);
    }
    let settled = rows.in_order(alloc)?;
    let count = settled.count();
    *rows = settled;
    Ok(count)
}

// The rows in order, each once.
fn in_order(alloc: Global, rows: Rows, ascending: u32) -> Result<Rows, AllocError>
    requires { FirstAscend ascending rows.rows }
    ensures width { IfOk result (λ r. r.width ≡ rows.width) }
    ensures ascend { IfOk result (λ r. NumbersAscend r.rows) }
    ensures same { IfOk result (λ r. (t : List ℕ) → (t ∈ r.rows) ↔ (t ∈ rows.rows)) }
{
    if ascending == rows.count() {
        return Ok(rows);
    }
    rows.in_order(alloc)
}

impl Collected {
    /// No rows, with room for so many. If there is no memory for it, no room is made.
    pub(crate) fn new(alloc: Global, width: u32, most: u64, room: u32) -> Collected
        ensures { result ≡ record { width = width; most = most; rows = [] } }
    {
        let mut rows = Rows::new(alloc, width);
        rows.make_room(room);
        Collected {
            alloc,
            most,
            ascending: 0,
            rows,
        }
    }

    /// One row more. Answers whether there are more distinct rows than are wanted.
    ///
    /// # Errors
    ///
    /// `AllocError` if there is no memory, or no place number is left.
    pub(crate) fn push(&mut self, row: &[u32]) -> Result<bool, AllocError>
        requires width { length row.now ≡ self.old.width }
        ensures { IfOk result (λ full. Collects full self.old self.new (λ t. t ≡ row.now)) }
    {
        if ends_with(&self.rows, row) {
            return Ok(false);
        }
        let count = self.rows.count();
        if count == u32::MAX {
            return Err(no_number_left(u64::from(count)));
        }
        let ascending = ascending_with(&self.rows, self.ascending, row);
        self.rows.push(row)?;
        self.ascending = ascending;
        self.ascending = settle(self.alloc, &mut self.rows, ascending)?;
        Ok(self.ascending as u64 > self.most)
    }

    /// The rows, ascending and each once. None if there are more of them than are wanted.
    ///
    /// # Errors
    ///
    /// `AllocError` if there is no memory.
    pub(crate) fn finish(self) -> Result<Option<Rows>, AllocError>
        ensures { IfOk result (λ o. MatchOption o
            (MoreThan self.most (λ t. t ∈ self.rows))
            (λ r. RowsExactly self.width (λ t. t ∈ self.rows) r × (length r.rows ≤ self.most))) }
    {
        let Collected {
            alloc,
            most,
            ascending,
            rows,
        } = self;
        let rows = in_order(alloc, rows, ascending)?;
        if rows.count() as u64 > most {
            return Ok(None);
        }
        Ok(Some(rows))
    }
}
