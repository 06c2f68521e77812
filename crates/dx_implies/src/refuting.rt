// What shows that a rule does not follow from others.
ghost use Rattle.std.specs.Prelude.{◌<◌, ◌-◌, ◌^◌, ◌∷◌, IfErr, IfNone, IfOk, IfSome, OnOk, length};
ghost use Rattle.dx_base.specs.Members.{Each};
ghost use Rattle.dx_model.specs.Following.{Follows};
ghost use Rattle.dx_model.specs.Values.{Conversions};
ghost use Rattle.dx_implies.specs.Frozen.{IsFrozenRefusal, PassesFrozen};
ghost use Rattle.dx_implies.specs.Refuting.{IsRefutation};
ghost use Rattle.dx_implies.specs.Testing.{IsPlainTestable};

use crate::between::Between;
use crate::freezing::frozen_with;
use crate::implying::{follows, made_of};
use crate::refusing::told_as_frozen;
use dx_instance::Instance;
use dx_model::Rule;
use dx_tgd::CanonFault;
use std::alloc::Global;

/// Two instances that satisfy some rules, and not another.
#[derive(Drop)]
pub struct Refutation {
    pub source: Instance,
    pub target: Instance,
}

/// What shows that a rule does not follow from others, none of which has derived variables: its premise, with the prefix and the
/// digits of x as the text of variable x, and what the others make of it. None exactly if the rule follows. No literal may
/// begin with the prefix.
///
/// # Errors
///
/// `Limit` exactly if the canonical cells of the others on the frozen premise of the rule are more than the limit. `Memory` at any
/// point.
pub fn refuted(
    alloc: Global,
    rule: &Rule,
    others: &[Rule],
    between: &Between<'_>,
) -> Result<Option<Refutation>, CanonFault>
    requires rules { Each (rule.now ∷ others.now) (IsPlainTestable between.now) }
    requires few { length others.now < 2 ^ 32 - 1 }
    ensures follows { IfOk result (λ o. IfNone o ((convert : Conversions) → Follows convert others.now rule.now)) }
    ensures refuted { IfOk result (λ o. IfSome o
        (IsRefutation between.now.prefix.now between.now.source.now between.now.target.now others.now rule.now)) }
    ensures within { OnOk result (¬ (PassesFrozen between.now.limit others.now rule.now)) }
    ensures refused { IfErr result (IsFrozenRefusal between.now.limit (PassesFrozen between.now.limit others.now rule.now)) }
{
    if follows(alloc, rule, others, between)? {
        return Ok(None);
    }
    let premise = frozen_with(alloc, rule, between.prefix, between.source)?;
    match made_of(alloc, others, &premise, between) {
        Ok(made) => Ok(Some(Refutation {
            source: premise,
            target: made.instance,
        })),
        Err(fault) => Err(told_as_frozen(fault)),
    }
}
