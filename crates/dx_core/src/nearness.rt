// Rows of a block that are near one another since they share nulls. Which rows are near is a matter of time alone.
ghost use Rattle.dx_base.specs.Members.{Each};
ghost use Rattle.dx_blocks.specs.Numbered.{IsRowIn};

use dx_blocks::At;
use dx_instance::Numbers;
use std::alloc::{AllocError, Global};

/// Which rows of a block hold which of its nulls, all by their places in the block's lists.
#[derive(Drop)]
pub(crate) struct Ties {
    nulls_by_row: Vec<Vec<usize>>,
    rows_by_null: Vec<Vec<usize>>,
}

// The places of a row's nulls in the list of nulls.
fn places_of_nulls(
    alloc: Global,
    numbers: &Numbers<'_>,
    nulls: &[u32],
    at: At,
) -> Result<Vec<usize>, AllocError>
    requires { IsRowIn numbers.now at }
{
    let mut places = Vec::new(alloc);
    for number in numbers.row(at.table, at.place) {
        if let Ok(place) = nulls.binary_search(number) {
            places.push(place)?;
        }
    }
    Ok(places)
}

// Lists with nothing in them.
fn empty_lists(alloc: Global, count: usize) -> Result<Vec<Vec<usize>>, AllocError> {
    let mut lists = Vec::new(alloc);
    for _ in 0..count {
        lists.push(Vec::new(alloc))?;
    }
    Ok(lists)
}

// Adds a row to the lists of these nulls.
fn add_row(
    rows_by_null: &mut Vec<Vec<usize>>,
    nulls: &[usize],
    row: usize,
) -> Result<(), AllocError> {
    for null in nulls {
        if let Some(rows) = rows_by_null.get_mut(*null) {
            rows.push(row)?;
        }
    }
    Ok(())
}

// Adds those of the rows that are not yet there, until there are so many.
fn add_new(near: &mut Vec<usize>, rows: &[usize], limit: usize) -> Result<(), AllocError> {
    for row in rows {
        if near.len() >= limit {
            return Ok(());
        }
        if !near.contains(row) {
            near.push(*row)?;
        }
    }
    Ok(())
}

impl Ties {
    /// No ties. It takes no memory.
    pub(crate) fn none(alloc: Global) -> Ties {
        Ties {
            nulls_by_row: Vec::new(alloc),
            rows_by_null: Vec::new(alloc),
        }
    }

    /// The ties of these rows by these nulls.
    ///
    /// # Errors
    ///
    /// `AllocError` if there is no memory.
    pub(crate) fn new(
        alloc: Global,
        numbers: &Numbers<'_>,
        nulls: &[u32],
        rows: &[At],
    ) -> Result<Ties, AllocError>
        requires { Each rows.now (IsRowIn numbers.now) }
    {
        let mut nulls_by_row = Vec::new(alloc);
        let mut rows_by_null = empty_lists(alloc, nulls.len())?;
        for row in 0..rows.len() {
            let places = places_of_nulls(alloc, numbers, nulls, rows[row])?;
            add_row(&mut rows_by_null, &places, row)?;
            nulls_by_row.push(places)?;
        }
        Ok(Ties {
            nulls_by_row,
            rows_by_null,
        })
    }

    // Adds rows that hold one of these nulls, if it is not known.
    fn add_tied(
        &self,
        near: &mut Vec<usize>,
        nulls: &[usize],
        known: &[Option<u32>],
        limit: usize,
    ) -> Result<(), AllocError> {
        for null in nulls {
            if let Some(None) = known.get(*null) {
                if let Some(rows) = self.rows_by_null.get(*null) {
                    add_new(near, rows, limit)?;
                }
            }
        }
        Ok(())
    }

    // The places of rows near a row with the nulls at these places, breadth first, as many as the limit at most.
    fn near(
        &self,
        alloc: Global,
        nulls: &[usize],
        known: &[Option<u32>],
        limit: usize,
    ) -> Result<Vec<usize>, AllocError> {
        let mut near = Vec::new(alloc);
        self.add_tied(&mut near, nulls, known, limit)?;
        for turn in 0..limit {
            if turn >= near.len() {
                return Ok(near);
            }
            let row = near[turn];
            if let Some(more) = self.nulls_by_row.get(row) {
                self.add_tied(&mut near, more, known, limit)?;
            }
        }
        Ok(near)
    }
}

/// The places of rows near this one.
///
/// # Errors
///
/// `AllocError` if there is no memory.
pub(crate) fn places_near(
    alloc: Global,
    numbers: &Numbers<'_>,
    ties: &Ties,
    nulls: &[u32],
    known: &[Option<u32>],
    at: At,
    limit: usize,
) -> Result<Vec<usize>, AllocError>
    requires { IsRowIn numbers.now at }
{
    let held = places_of_nulls(alloc, numbers, nulls, at)?;
    ties.near(alloc, &held, known, limit)
}
