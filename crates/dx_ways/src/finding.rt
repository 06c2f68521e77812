// The ways between occurrences.
ghost use Rattle.std.specs.Prelude.{◌≡◌, ◌≤◌, ◌<◌, IfOk, IfErr, OnOk, length};
ghost use Rattle.dx_base.specs.declared.limits.TheConstants.{WAYS};
ghost use Rattle.dx_base.specs.Members.{Each};
ghost use Rattle.dx_lines.specs.Ways.{line_ways, ways as ways_of};
ghost use Rattle.dx_lines.specs.Reading.{CanBeRead, IsReached};
ghost use Rattle.dx_ways.specs.declared.fault.WaysFault.TheVariants.{TooMany};
ghost use Rattle.dx_ways.specs.Laws.{PicksAscend};
ghost use Rattle.dx_ways.specs.Tried.{put_all};

use crate::fault::WaysFault;
use crate::seen::{column_variables, has_tables, named, unlike};
use crate::trying::Trial;
use dx_lines::{Line, Origin, Pick};
use dx_logical::Occurrence;
use std::alloc::Global;

/// Puts in the ways that a line gives between occurrences.
fn add_line(
    alloc: Global,
    line: &Line,
    from: &[Occurrence],
    to: &[Occurrence],
    found: &mut Vec<Pick>,
) -> Result<(), WaysFault>
    requires ascends { PicksAscend found.old.items }
    requires few { length found.old.items ≤ WAYS }
    ensures all { OnOk result (found.new.items ≡ put_all found.old.items (line_ways from.now to.now line.now)) }
    ensures few { OnOk result (length found.new.items ≤ WAYS) }
    ensures many { IfErr result (λ e. e ≡ TooMany → WAYS < length (put_all found.old.items (line_ways from.now to.now line.now))) }
{
    if let Origin::Literal(_) = &line.source {
        return Ok(());
    }
    let variables = column_variables(alloc, to, line.target)?;
    if variables.is_empty() {
        return Ok(());
    }
    let places = named(&line.source);
    let among = unlike(alloc, from, places)?;
    if !has_tables(&among, places) {
        return Ok(());
    }
    let trial = Trial {
        source: &line.source,
        variables: &variables,
        among: &among,
    };
    trial.add_tried(alloc, places, &[], found)
}

/// The ways that lines give between occurrences of source tables and of target tables, ascending.
///
/// # Errors
///
/// `TooMany` if there are more than 64 ways. `Memory` if there is no memory.
pub fn ways(
    alloc: Global,
    lines: &[Line],
    from: &[Occurrence],
    to: &[Occurrence],
) -> Result<Vec<Pick>, WaysFault>
    requires from { Each lines.now (CanBeRead from.now) }
    requires to { Each lines.now (IsReached to.now) }
    ensures ways { IfOk result (λ found. found.items ≡ ways_of lines.now from.now to.now) }
    ensures few { IfOk result (λ found. length found.items ≤ WAYS) }
    ensures many { IfErr result (λ e. e ≡ TooMany → WAYS < length (ways_of lines.now from.now to.now)) }
{
    let mut found = Vec::new(alloc);
    for line in lines {
        add_line(alloc, line, from, to, &mut found)?;
    }
    Ok(found)
}
