// The picks that choices of occurrences give, put into an ascending list, of as many as there may be ways.
ghost use Rattle.std.specs.Prelude.{◌≡◌, ◌≤◌, ◌<◌, ◌∷◌, IfOk, IfErr, OnOk, insert, length, map};
ghost use Rattle.dx_base.specs.Members.{behind};
ghost use Rattle.dx_lines.specs.Ways.{pick, put_in};
ghost use Rattle.dx_ways.specs.declared.fault.WaysFault.TheVariants.{TooMany};
ghost use Rattle.dx_ways.specs.Tried.{ExceedsWays, picks_by, put_all, tried};

use crate::fault::WaysFault;
use crate::picks::{copy_term, pick_order};
use crate::seen::{has_table, term_of};
use dx_base::limits::WAYS;
use dx_lines::{Origin, Pick, Place, Term};
use dx_logical::Occurrence;
use std::alloc::{AllocError, Global};
use std::cmp::Ordering;

/// Where a pick stands in an ascending list, or else where it belongs.
fn place_for(found: &[Pick], pick: &Pick) -> Result<usize, usize>
    ensures found { IfOk result (λ i. found.now ≡ put_in pick.now found.now) }
    ensures room { IfErr result (λ i. i ≤ length found.now) }
    ensures missing { IfErr result (λ i. insert found.now i pick.now ≡ put_in pick.now found.now) }
{
    for i in 0..found.len() {
        match pick_order(pick, &found[i]) {
            Ordering::Less => return Err(i),
            Ordering::Equal => return Ok(i),
            Ordering::Greater => {}
        }
    }
    Err(found.len())
}

/// Inserts a pick at a place.
fn insert_pick(found: &mut Vec<Pick>, place: usize, pick: Pick) -> Result<(), AllocError>
    requires { place ≤ length found.old.items }
    ensures { OnOk result (found.new.items ≡ insert found.old.items place pick) }
{
    found.insert(place, pick)?;
    Ok(())
}

/// Puts a pick into an ascending list, if it isn't there.
fn put_pick(found: &mut Vec<Pick>, pick: Pick) -> Result<(), WaysFault>
    requires { length found.old.items ≤ WAYS }
    ensures put { OnOk result (found.new.items ≡ put_in pick found.old.items) }
    ensures few { OnOk result (length found.new.items ≤ WAYS) }
    ensures many { IfErr result (λ e. e ≡ TooMany → WAYS < length (put_in pick found.old.items)) }
{
    match place_for(found, &pick) {
        Ok(_) => Ok(()),
        Err(place) => {
            if found.len() as u64 >= WAYS {
                return Err(WaysFault::TooMany);
            }
            insert_pick(found, place, pick)?;
            Ok(())
        }
    }
}

/// Puts in that each of the variables gets this term.
fn add_term(
    alloc: Global,
    term: &Term,
    variables: &[u32],
    found: &mut Vec<Pick>,
) -> Result<(), WaysFault>
    requires { length found.old.items ≤ WAYS }
    ensures all { OnOk result (found.new.items ≡ put_all found.old.items (map (λ y. pick y term.now) variables.now)) }
    ensures few { OnOk result (length found.new.items ≤ WAYS) }
    ensures many { IfErr result (λ e. e ≡ TooMany → ExceedsWays (put_all found.old.items (map (λ y. pick y term.now) variables.now))) }
{
    for variable in variables {
        let pick = Pick {
            variable: *variable,
            term: copy_term(alloc, term)?,
        };
        put_pick(found, pick)?;
    }
    Ok(())
}

/// A choice with an occurrence as well.
fn with_occurrence<'a>(
    alloc: Global,
    occurrence: &'a Occurrence,
    choice: &[&'a Occurrence],
) -> Result<Vec<&'a Occurrence>, AllocError>
    ensures { IfOk result (λ os. behind os.items ≡ occurrence.now ∷ behind choice.now) }
{
    let mut more = Vec::new(alloc);
    more.push(occurrence)?;
    more.extend_from_slice(choice)?;
    Ok(more)
}

/// What is tried for a line: the source that gives the terms, the variables that get them, and the occurrences that are
/// chosen from.
#[derive(Clone, Copy)]
pub struct Trial<'a> {
    pub source: &'a Origin,
    pub variables: &'a [u32],
    pub among: &'a [&'a Occurrence],
}

impl<'a> Trial<'a> {
    /// Puts in what the source gives the variables under a choice.
    fn add_picks(
        &self,
        alloc: Global,
        choice: &[&Occurrence],
        found: &mut Vec<Pick>,
    ) -> Result<(), WaysFault>
        requires { length found.old.items ≤ WAYS }
        ensures all { OnOk result (found.new.items
            ≡ put_all found.old.items (picks_by self.now.source.now self.now.variables.now (behind choice.now))) }
        ensures few { OnOk result (length found.new.items ≤ WAYS) }
        ensures many { IfErr result (λ e. e ≡ TooMany → ExceedsWays
            (put_all found.old.items (picks_by self.now.source.now self.now.variables.now (behind choice.now)))) }
    {
        match term_of(alloc, self.source, choice)? {
            None => Ok(()),
            Some(term) => add_term(alloc, &term, self.variables, found),
        }
    }

    /// Puts in what the source gives the variables under each choice that has an occurrence as well for each table that
    /// the columns name.
    pub fn add_tried(
        &self,
        alloc: Global,
        places: &[Place],
        choice: &[&'a Occurrence],
        found: &mut Vec<Pick>,
    ) -> Result<(), WaysFault>
        requires { length found.old.items ≤ WAYS }
        ensures all { OnOk result (found.new.items ≡ put_all found.old.items (tried self.now.source.now
            self.now.variables.now (behind self.now.among.now) places.now (behind choice.now))) }
        ensures few { OnOk result (length found.new.items ≤ WAYS) }
        ensures many { IfErr result (λ e. e ≡ TooMany → ExceedsWays (put_all found.old.items (tried self.now.source.now
            self.now.variables.now (behind self.now.among.now) places.now (behind choice.now)))) }
    {
        let Some((first, rest)) = places.split_first() else {
            return self.add_picks(alloc, choice, found);
        };
        if has_table(choice, first.table) {
            return self.add_tried(alloc, rest, choice, found);
        }
        for occurrence in self.among {
            if occurrence.table == first.table {
                let more = with_occurrence(alloc, occurrence, choice)?;
                self.add_tried(alloc, rest, &more, found)?;
            }
        }
        Ok(())
    }
}
