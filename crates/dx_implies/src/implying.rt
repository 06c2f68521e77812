// Whether a rule follows from others.
ghost use Rattle.std.specs.Prelude.{◌≡◌, ◌↔◌, ◌<◌, ◌≤◌, ◌-◌, ◌^◌, ◌∷◌, [], ℕ, IfErr, IfOk, IsTrue, None, OnOk, length, replicate};
ghost use Rattle.dx_base.specs.Members.{◌∈◌, ◌≈◌, Each};
ghost use Rattle.dx_model.specs.declared.values.Value.{Value as AnyValue};
ghost use Rattle.dx_model.specs.declared.rules.Rule.{Rule as RuleOf};
ghost use Rattle.dx_model.specs.Fitting.{AtomsFitWidths, RuleFits};
ghost use Rattle.dx_model.specs.Following.{Follows, frozen_text, underived};
ghost use Rattle.dx_model.specs.Rules.{AreRows, canonical, fact_of_atom};
ghost use Rattle.dx_model.specs.Values.{Conversions};
ghost use Rattle.dx_schema.specs.Tables.{model_tables, schema_widths};
ghost use Rattle.dx_instance.specs.Stored.{facts, widths};
ghost use Rattle.dx_tgd.specs.Counting.{canonical_cells};
ghost use Rattle.dx_tgd.specs.Found.{IsCanonicalRefusal as IsTooLarge};
ghost use Rattle.dx_solver.specs.Questions.{HasImageRow};
ghost use Rattle.dx_implies.specs.Asking.{AtomFitsTable};
ghost use Rattle.dx_implies.specs.Frozen.{IsFrozenRefusal, PassesFrozen};
ghost use Rattle.dx_implies.specs.Testing.{IsTestable, PlainRuleFits};

use crate::asking::{above_atoms, atoms_of};
use crate::between::Between;
use crate::bounding::make_few;
use crate::freezing::frozen_with;
use crate::host::NoConversions;
use crate::nearby::joined_rules;
use crate::prefixes::{marks, marks_in};
use crate::refusing::told_as_frozen;
use dx_base::{Items, Text};
use dx_funcs::Host;
use dx_instance::{Instance, Numbers};
use dx_model::Rule;
use dx_schema::Schema;
use dx_solver::{PatternAtom, Taken, solve};
use dx_tgd::{CanonFault, Made, canonical_plain};
use std::alloc::{AllocError, Global};
use std::slice::from_ref;

/// No number for so many variables.
#[tactic(auto, using(std::proofs::lemmas::List::replicate_more))]
fn nothing_known(alloc: Global, count: usize) -> Result<Vec<Option<u32>>, AllocError>
    ensures { IfOk result (λ known. known.items ≡ replicate count None) }
{
    let mut known = Vec::with_capacity(alloc, count)?;
    for _ in 0..count {
        known.push(None)?;
    }
    Ok(known)
}

/// Whether atoms of numbers can be rows of the instance, with some numbers for their variables.
fn can_stand(
    alloc: Global,
    numbers: &Numbers<'_>,
    atoms: &[PatternAtom],
) -> Result<bool, AllocError>
    requires { Each atoms.now (AtomFitsTable numbers.now.tables) }
    ensures { IfOk result (λ b. IsTrue b ↔ ((a : ℕ → ℕ) × Each atoms.now (HasImageRow numbers.now.tables [] a))) }
{
    let known = nothing_known(alloc, above_atoms(atoms))?;
    let taken = Taken::none(alloc);
    let answer = solve(alloc, numbers, &taken, atoms, &known)?;
    Ok(answer.is_some())
}

/// Whether the conclusion of the rule stands in the instance, with the texts of its variables and some values of its
/// existential variables.
fn has_conclusion(
    alloc: Global,
    rule: &Rule,
    prefix: &Text,
    instance: &Instance,
) -> Result<bool, AllocError>
    requires { AtomsFitWidths (widths instance.now) rule.now.conclusion }
    ensures { IfOk result (λ b. IsTrue b ↔ ((values : ℕ → AnyValue) × Each rule.now.conclusion
        (λ a. fact_of_atom (frozen_text prefix.now) values a ∈ facts instance.now))) }
{
    let numbers = instance.numbers();
    match atoms_of(alloc, rule.conclusion.items(), prefix, &numbers)? {
        None => Ok(false),
        Some(atoms) => can_stand(alloc, &numbers, &atoms),
    }
}

/// Makes an index of each column.
fn index_all(instance: &mut Instance) -> Result<(), AllocError>
    ensures { OnOk result (instance.new ≡ instance.old) }
{
    for table in 0..instance.tables() {
        for column in 0..instance.width(table) {
            instance.index(table, column)?;
        }
    }
    Ok(())
}

/// The same of an instance that is given away: it gets an index of each column.
fn stands_in(
    alloc: Global,
    rule: &Rule,
    prefix: &Text,
    instance: Instance,
) -> Result<bool, AllocError>
    requires { AtomsFitWidths (widths instance) rule.now.conclusion }
    ensures { IfOk result (λ b. IsTrue b ↔ ((values : ℕ → AnyValue) × Each rule.now.conclusion
        (λ a. fact_of_atom (frozen_text prefix.now) values a ∈ facts instance))) }
{
    let mut indexed = instance;
    index_all(&mut indexed)?;
    has_conclusion(alloc, rule, prefix, &indexed)
}

/// What rules without derived variables make of a frozen premise.
pub(crate) fn made_of(
    alloc: Global,
    rules: &[Rule],
    premise: &Instance,
    between: &Between<'_>,
) -> Result<Made, CanonFault>
    requires rules { Each rules.now (PlainRuleFits (widths premise.now) (schema_widths between.now.target.now)) }
    requires few { length rules.now < 2 ^ 32 - 1 }
    ensures matches { IfOk result (λ m. AreRows (λ _ _. []) rules.now (facts premise.now) m.matches) }
    ensures within { IfOk result (λ m. canonical_cells rules.now m.matches ≤ between.now.limit) }
    ensures facts { IfOk result (λ m. facts m.instance ≈ canonical 0 rules.now m.matches) }
    ensures widths { IfOk result (λ m. widths m.instance ≡ schema_widths between.now.target.now) }
    ensures refused { IfErr result (IsTooLarge (λ _ _. []) rules.now (facts premise.now) between.now.limit) }
{
    let host: Host<_, NoConversions> = Host::build(
        Items::new(alloc),
        |_code: u32, _texts: &Items<Text>| Text::from_str(alloc, ""),
    );
    canonical_plain(alloc, rules, premise, &host, between.target, between.limit)
}

/// Whether the rule follows from those of the others that have no derived variables. The prefix is one with which no literal
/// begins. Only those are joined that can add to what the conclusion asks, if the cells of all are within the limit anyway.
pub(crate) fn follows(
    alloc: Global,
    rule: &Rule,
    others: &[Rule],
    between: &Between<'_>,
) -> Result<bool, CanonFault>
    requires rules { Each (rule.now ∷ others.now) (IsTestable between.now) }
    requires plain { rule.now.derived ≡ [] }
    requires few { length others.now < 2 ^ 32 - 1 }
    ensures follows { IfOk result (λ b. (convert : Conversions) → IsTrue b ↔ Follows convert (underived others.now) rule.now) }
    ensures within { OnOk result (¬ (PassesFrozen between.now.limit (underived others.now) rule.now)) }
    ensures refused { IfErr result (IsFrozenRefusal between.now.limit (PassesFrozen between.now.limit (underived others.now) rule.now)) }
{
    let premise = frozen_with(alloc, rule, between.prefix, between.source)?;
    let few = make_few(alloc, others, &premise, between.limit)?;
    let joined = joined_rules(alloc, others, &premise, rule.conclusion.items(), !few)?;
    match made_of(alloc, joined.as_slice(), &premise, between) {
        Ok(made) => Ok(stands_in(alloc, rule, between.prefix, made.instance)?),
        Err(fault) => Err(told_as_frozen(fault)),
    }
}

/// Whether a rule follows from others, none of which has derived variables: each two instances that satisfy the others satisfy it.
///
/// # Errors
///
/// `Limit` exactly if the canonical cells of the others on the frozen premise of the rule are more than the limit. `Memory` at any
/// point.
pub fn implied(
    alloc: Global,
    rule: &Rule,
    others: &[Rule],
    source: &Schema,
    target: &Schema,
    limit: u64,
) -> Result<bool, CanonFault>
    requires fits { Each (rule.now ∷ others.now) (RuleFits (model_tables source.now) (model_tables target.now)) }
    requires plain { Each (rule.now ∷ others.now) (λ (d : RuleOf). d.derived ≡ []) }
    requires few { length others.now < 2 ^ 32 - 1 }
    requires limit { limit < 2 ^ 32 - 1 }
    ensures follows { IfOk result (λ b. (convert : Conversions) → IsTrue b ↔ Follows convert others.now rule.now) }
    ensures within { OnOk result (¬ (PassesFrozen limit others.now rule.now)) }
    ensures refused { IfErr result (IsFrozenRefusal limit (PassesFrozen limit others.now rule.now)) }
{
    let most = marks_in(others, marks_in(from_ref(rule), 0));
    let prefix = marks(alloc, most + 1)?;
    let between = Between {
        source,
        target,
        prefix: &prefix,
        limit,
    };
    follows(alloc, rule, others, &between)
}
