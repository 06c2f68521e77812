// What the steps before a step make.
ghost use Rattle.std.specs.Prelude.{◌≡◌, ◌↔◌, ◌<◌, ◌≤◌, IsTrue, List, MatchOption, length, map, slice_index_or};
ghost use Rattle.dx_base.specs.Members.{◌∈◌};
ghost use Rattle.dx_base.specs.Texts.{Text as AnyText};
ghost use Rattle.dx_script.specs.Fits.{created, created_in, kept_in, rules_with_keep, match_widths};

use crate::form::Step;
use dx_base::Text;

/// How many match tables the steps make.
pub(crate) fn match_count(steps: &[Step]) -> usize
    ensures { result ≡ length (match_widths steps.now) }
{
    let mut count: usize = 0;
    for step in steps {
        if let Step::MatchRows { .. } = step {
            count += 1;
        }
    }
    count
}

/// How many columns the match table of a rule has. None if the steps don't make it.
pub(crate) fn match_width(steps: &[Step], rule: u32) -> Option<u64>
    ensures { MatchOption result (length (match_widths steps.now) ≤ rule)
        (λ width. (rule < length (match_widths steps.now)) × (slice_index_or (match_widths steps.now) rule 0 ≡ width)) }
{
    let mut count: u64 = 0;
    for step in steps {
        if let Step::MatchRows { select, .. } = step {
            if count == u64::from(rule) {
                return Some(select.len());
            }
            count += 1;
        }
    }
    None
}

// Whether the step makes the keep table of a rule.
fn keeps(step: &Step, number: u32) -> bool
    ensures { IsTrue result ↔ (number ∈ kept_in step.now) }
{
    match step {
        Step::KeepRows { rule, .. } => *rule == number,
        _ => false,
    }
}

/// Whether the steps make the keep table of a rule.
pub(crate) fn is_kept(steps: &[Step], number: u32) -> bool
    ensures { IsTrue result ↔ (number ∈ rules_with_keep steps.now) }
{
    steps.iter().any(|step| keeps(step, number))
}

// Whether the step creates a table of this name.
fn creates(step: &Step, name: &Text) -> bool
    ensures { IsTrue result ↔ (name.now ∈ map (λ (t : AnyText × List AnyText). t.0) (created_in step.now)) }
{
    match step {
        Step::Create { table, .. } => table.is(name),
        _ => false,
    }
}

/// Whether the steps create a table of this name.
pub(crate) fn is_created(steps: &[Step], name: &Text) -> bool
    ensures { IsTrue result ↔ (name.now ∈ map (λ (t : AnyText × List AnyText). t.0) (created steps.now)) }
{
    steps.iter().any(|step| creates(step, name))
}

/// The steps up to the last that makes a keep table.
pub(crate) fn through_keeps(steps: &[Step]) -> &[Step]
    ensures { rules_with_keep result.now ≡ rules_with_keep steps.now }
{
    let mut end = 0;
    for number in 0..steps.len() {
        if let Step::KeepRows { .. } = &steps[number] {
            end = number + 1;
        }
    }
    &steps[..end]
}
