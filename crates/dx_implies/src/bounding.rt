// How many canonical cells rules can make at most, without joining anything.
ghost use Rattle.std.specs.Prelude.{◌≡◌, ◌<◌, ◌-◌, ◌^◌, ℕ, IfOk, IfSome, length};
ghost use Rattle.std.specs.Bool.{OnTrue};
ghost use Rattle.dx_base.specs.Members.{◌∈◌, Each};
ghost use Rattle.dx_model.specs.declared.rules.Atom.{Atom as AtomOf};
ghost use Rattle.dx_model.specs.declared.rules.Cell.TheVariants.{Var};
ghost use Rattle.dx_model.specs.declared.rules.Rule.{Rule as RuleOf};
ghost use Rattle.dx_model.specs.Fitting.{IsRule};
ghost use Rattle.dx_model.specs.Rules.{cells_of};
ghost use Rattle.dx_implies.specs.Bounds.{HasFewTexts, MakeFewCells, MakesFewCells};
ghost use Rattle.dx_implies.specs.Laws.{IsPlainRule};

use crate::nearby::is_nearby;
use dx_instance::Instance;
use dx_model::{Atom, Rule};
use dx_tgd::exported;
use std::alloc::{AllocError, Global};

/// A number of texts that each variable of a premise has at most in its matches: no more than there are symbols, or rows in one
/// of its tables.
fn most_texts(atoms: &[Atom], source: &Instance) -> u32
    requires { Each atoms.now (λ (a : AtomOf). a.table < length source.now) }
    ensures { (x : ℕ) → Var x ∈ cells_of atoms.now → HasFewTexts source.now atoms.now x result }
{
    let mut rows = 0;
    for atom in atoms {
        rows = source.count(atom.table).max(rows);
    }
    source.numbers().len().min(rows)
}

/// How many tuples so many variables can have that each have one of so many texts, unless they are more than the limit.
fn most_tuples(variables: usize, texts: u32, limit: u64) -> Option<u64>
    requires { limit < 2 ^ 32 - 1 }
    ensures few { IfSome result (λ n. n ≡ texts ^ variables) }
    ensures small { IfSome result (λ n. n < 2 ^ 32) }
{
    let mut most: u64 = 1;
    for _ in 0..variables {
        most *= texts as u64;
        if most > limit {
            return None;
        }
    }
    Some(most)
}

/// How many cells the conclusion of a rule has.
fn conclusion_cells(rule: &Rule) -> u64
    requires { length (cells_of rule.now.conclusion) < 2 ^ 32 - 1 }
    ensures { result ≡ length (cells_of rule.now.conclusion) }
{
    let mut count = 0;
    for atom in rule.conclusion.items() {
        count += atom.cells.len();
    }
    count
}

/// A number of canonical cells that the rule makes at most, if it is known without joining tables.
fn most_cells(
    alloc: Global,
    rule: &Rule,
    source: &Instance,
    limit: u64,
) -> Result<Option<u64>, AllocError>
    requires rule { IsPlainRule rule.now }
    requires tables { Each rule.now.premise (λ (a : AtomOf). a.table < length source.now) }
    requires limit { limit < 2 ^ 32 - 1 }
    ensures { IfOk result (λ o. IfSome o (MakesFewCells source.now rule.now)) }
{
    let variables = exported(alloc, rule)?;
    let texts = most_texts(rule.premise.items(), source);
    match most_tuples(variables.len(), texts, limit) {
        None => Ok(None),
        Some(tuples) => Ok(Some(tuples * conclusion_cells(rule))),
    }
}

/// Whether it is known, without joining tables, that the canonical cells of the rules are within the limit.
pub(crate) fn make_few(
    alloc: Global,
    rules: &[Rule],
    source: &Instance,
    limit: u64,
) -> Result<bool, AllocError>
    requires rules { Each rules.now IsRule }
    requires tables { Each rules.now (λ (d : RuleOf). Each d.premise (λ (a : AtomOf). a.table < length source.now)) }
    requires limit { limit < 2 ^ 32 - 1 }
    ensures { IfOk result (λ b. OnTrue b (MakeFewCells source.now rules.now limit)) }
{
    let mut left = limit;
    for rule in rules {
        if is_nearby(rule, source) {
            let Some(cells) = most_cells(alloc, rule, source, left)? else {
                return Ok(false);
            };
            if cells > left {
                return Ok(false);
            }
            left -= cells;
        }
    }
    Ok(true)
}
