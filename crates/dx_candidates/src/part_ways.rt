// The ways of the greatest proper parts of two unfoldings.
ghost use Rattle.std.specs.Prelude.{◌≡◌, ◌++◌, IfErr, OnOk, map};
ghost use Rattle.std.specs.List.{list_any};
ghost use Rattle.dx_base.specs.Members.{Each, ◌⊆◌};
ghost use Rattle.dx_lines.specs.Ways.{ways as ways_of};
ghost use Rattle.dx_candidates.specs.Parts.{are_among as are_among_of};
ghost use Rattle.dx_candidates.specs.declared.fault.CandFault.TheVariants.{Memory};
ghost use Rattle.dx_candidates.specs.Pairs.{HaveFewWays};

use crate::fault::CandFault;
use dx_base::Items;
use dx_lines::{Line, Pick};
use dx_logical::Occurrence;
use dx_ways::{is_among, ways};
use std::alloc::Global;

/// Lines, and the occurrences of source tables and of target tables that they are read between.
#[derive(Clone, Copy)]
pub(crate) struct LinesBetween<'a> {
    pub lines: &'a [Line],
    pub from: &'a [Occurrence],
    pub to: &'a [Occurrence],
}

impl<'a> LinesBetween<'a> {
    // The ways of each of these parts of the source's unfolding with the whole of the target's.
    pub(crate) fn add_source_ways(
        &self,
        alloc: Global,
        parts: &[Items<Occurrence>],
        found: &mut Items<Items<Pick>>,
    ) -> Result<(), CandFault>
        requires parts { Each parts.now (λ part. part ⊆ self.now.from.now) }
        requires ready { HaveFewWays self.now.lines.now self.now.from.now self.now.to.now }
        ensures ways { OnOk result (found.new ≡ found.old
            ++ map (λ part. ways_of self.now.lines.now part self.now.to.now) parts.now) }
        ensures fault { IfErr result (λ e. e ≡ Memory) }
    {
        for part in parts {
            let some = ways(alloc, self.lines, part.items(), self.to)?;
            found.push(Items::from_vec(some))?;
        }
        Ok(())
    }

    // The ways of the whole of the source's unfolding with each of these parts of the target's.
    pub(crate) fn add_target_ways(
        &self,
        alloc: Global,
        parts: &[Items<Occurrence>],
        found: &mut Items<Items<Pick>>,
    ) -> Result<(), CandFault>
        requires parts { Each parts.now (λ part. part ⊆ self.now.to.now) }
        requires ready { HaveFewWays self.now.lines.now self.now.from.now self.now.to.now }
        ensures ways { OnOk result (found.new ≡ found.old
            ++ map (ways_of self.now.lines.now self.now.from.now) parts.now) }
        ensures fault { IfErr result (λ e. e ≡ Memory) }
    {
        for part in parts {
            let some = ways(alloc, self.lines, self.from, part.items())?;
            found.push(Items::from_vec(some))?;
        }
        Ok(())
    }
}

// Whether each pick is one of these.
fn are_among(found: &[Pick], picks: &[Pick]) -> bool
    ensures { result ≡ are_among_of picks.now found.now }
{
    picks.iter().all(|pick| is_among(found, pick))
}

// Whether some part has all these picks among its ways.
pub(crate) fn is_in_part(parts: &[Items<Pick>], picks: &[Pick]) -> bool
    ensures { result ≡ list_any (are_among_of picks.now) parts.now }
{
    parts.iter().any(|found| are_among(found.items(), picks))
}
