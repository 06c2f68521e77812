// What the matches of a premise and derived variables give to any variables.
ghost use Rattle.std.specs.Prelude.{◌≡◌, ◌↔◌, ◌<◌, ◌≤◌, ◌+◌, ◌^◌, ◌++◌, [], ℕ, IfOk, IfSome, IsTrue, MatchOption, length, max};
ghost use Rattle.std.specs.List.{range_with_len};
ghost use Rattle.dx_base.specs.Members.{◌∈◌, Each};
ghost use Rattle.dx_model.specs.declared.rules.Derived.{Derived as AnyDerived};
ghost use Rattle.dx_model.specs.Rules.{after_cells, cells_of};
ghost use Rattle.dx_funcs.specs.Offers.{IsListed};
ghost use Rattle.dx_funcs.specs.Serving.{Serves, offered};
ghost use Rattle.dx_instance.specs.Numbers.{ValuesDiffer, Extends};
ghost use Rattle.dx_instance.specs.Stored.{widths};
ghost use Rattle.dx_instance.specs.Shown.{shown_tables};
ghost use Rattle.dx_joins.specs.Collecting.{TakesPlaces};
ghost use Rattle.dx_joins.specs.Planning.{FewAmong};
ghost use Rattle.dx_joins.specs.Shown.{FitsMatching, IsMatchTuple, MoreTuples, StandFor, shown_facts};
ghost use Rattle.dx_joins.specs.Derivations.{DerivesTo, GivenBy, HasTextRows, IsComputed, IsTextRow, IsVariableWanted};

use crate::collected::Collected;
use crate::computed::Derivation;
use crate::pairs::gather;
use crate::plan::{copied, has, places};
use crate::texts::premise_shown;
use dx_base::{Items, Text};
use dx_funcs::{Host, Meaning};
use dx_instance::{Numbers, Rows, Symbols};
use dx_model::{Atom, Cell, Derived};
use std::alloc::{AllocError, Global};

// The number after the variables of cells, which is no less than `least`.
fn after(cells: &[Cell], least: u64) -> u64
    requires { least ≤ 2 ^ 32 }
    ensures number { result ≡ max least (after_cells cells.now) }
    ensures low { result ≤ 2 ^ 32 }
{
    let mut next = least;
    for cell in cells {
        if let Cell::Var(number) = cell {
            next = next.max(u64::from(*number) + 1);
        }
    }
    next
}

// How many variables the premise has.
fn premise_variables(premise: &[Atom]) -> u64
    ensures number { result ≡ after_cells (cells_of premise.now) }
    ensures low { result ≤ 2 ^ 32 }
{
    let mut next = 0;
    for atom in premise {
        next = after(atom.cells.items(), next);
    }
    next
}

// Whether the variable is an argument of a derived variable.
fn is_argument(x: u32, derived: &[Derived]) -> bool
    ensures { IsTrue result ↔ ((e : AnyDerived) × (e ∈ derived.now) × (x ∈ e.args)) }
{
    derived.iter().any(|one| has(one.args.items(), x))
}

// Whether the variable is an argument of a derived variable, or is shown.
fn is_wanted(x: u32, derived: &[Derived], shown: &[u32]) -> bool
    ensures { IsTrue result ↔ IsVariableWanted derived.now shown.now x }
{
    if has(shown, x) {
        return true;
    }
    is_argument(x, derived)
}

// The variables below a number that derived variables need or that are shown.
fn wanted_variables(
    alloc: Global,
    derived: &[Derived],
    shown: &[u32],
    first: u32,
) -> Result<Vec<u32>, AllocError>
    ensures below { IfOk result (λ v. Each v.items (λ x. x < first)) }
    ensures all { IfOk result (λ v. (x : ℕ) → x < first → IsVariableWanted derived.now shown.now x → x ∈ v.items) }
    ensures few { IfOk result (λ v. length v.items ≤ first) }
{
    let mut variables = Vec::new(alloc);
    for x in 0..first {
        if is_wanted(x, derived, shown) {
            variables.push(x)?;
        }
    }
    Ok(variables)
}

// The variables, and after them as many as there are derived ones.
fn names_of(alloc: Global, wanted: &[u32], first: u32, count: u32) -> Result<Vec<u32>, AllocError>
    requires { first + count < 2 ^ 32 }
    ensures { IfOk result (λ v. v.items ≡ wanted.now ++ range_with_len first count) }
{
    let mut names = copied(alloc, wanted)?;
    for i in 0..count {
        names.push(first + i)?;
    }
    Ok(names)
}

// Collects what a row and its derived variables give to the variables at these places of both. Answers whether there are
// more rows than are wanted.
fn derive_row<F: Fn(u32, &Items<Text>) -> Result<Text, AllocError>, M: Meaning>(
    derivation: &Derivation<'_, '_, F, M>,
    row: &[u32],
    places: &[usize],
    symbols: &mut Symbols,
    out: &mut Collected,
) -> Result<bool, AllocError>
    requires computed { Each derivation.now.derived.now (IsComputed F.Fn M.apply derivation.now.host.now derivation.now.wanted.now) }
    requires row { IsTextRow symbols.old (length derivation.now.wanted.now) row.now }
    requires places { TakesPlaces (length derivation.now.wanted.now + length derivation.now.derived.now) places.now out.old }
    ensures grows { Extends symbols.old symbols.new }
    ensures apart { ValuesDiffer symbols.new }
    ensures derives { IfOk result (λ full. DerivesTo M.apply derivation.now.wanted.now derivation.now.derived.now places.now
        symbols.old symbols.new row.now full out.old out.new) }
{
    let mut buffer = Vec::new(derivation.alloc);
    let mut gathered = Vec::new(derivation.alloc);
    derivation.derive(row, symbols, &mut buffer)?;
    gather(&buffer, &[], places, &mut gathered)?;
    out.push(&gathered)
}

// The rows that rows and their derived variables give to the variables.
fn derived_rows<F: Fn(u32, &Items<Text>) -> Result<Text, AllocError>, M: Meaning>(
    derivation: &Derivation<'_, '_, F, M>,
    rows: &Rows,
    shown: &[u32],
    symbols: &mut Symbols,
    most: u64,
) -> Result<Option<Rows>, AllocError>
    requires computed { Each derivation.now.derived.now (IsComputed F.Fn M.apply derivation.now.host.now derivation.now.wanted.now) }
    requires rows { HasTextRows symbols.old (length derivation.now.wanted.now) rows.now }
    requires shown { FewAmong
        (derivation.now.wanted.now ++ range_with_len derivation.now.first (length derivation.now.derived.now)) shown.now }
    ensures grows { Extends symbols.old symbols.new }
    ensures apart { ValuesDiffer symbols.new }
    ensures rows { IfOk result (λ o. MatchOption o
        (MoreTuples most (GivenBy M.apply derivation.now.wanted.now derivation.now.derived.now derivation.now.first shown.now
        symbols.old rows.now.rows))
        (StandFor (length shown.now) (GivenBy M.apply derivation.now.wanted.now derivation.now.derived.now derivation.now.first shown.now
        symbols.old rows.now.rows) symbols.new)) }
    ensures within { IfOk result (λ o. IfSome o (λ r. length r.rows ≤ most)) }
{
    let count = derivation.derived.len() as u32;
    let names = names_of(derivation.alloc, derivation.wanted, derivation.first, count)?;
    let places = places(derivation.alloc, &names, shown)?;
    let mut out = Collected::new(derivation.alloc, shown.len() as u32, most, rows.count());
    for place in 0..rows.count() {
        let row = rows.row(place);
        if derive_row(derivation, row, &places, symbols, &mut out)? {
            return Ok(None);
        }
    }
    out.finish()
}

/// Rows of numbers that stand for what the matches of a premise and derived variables give to the shown variables, which
/// may repeat and come in any order. The numbers are those of `symbols`, where the texts of derived variables go last.
/// None if there are more than `most` different ones.
///
/// # Errors
///
/// `AllocError` if there is no memory, a table of partial matches has more rows than have numbers, or the host answers it.
pub fn shown_rows<F: Fn(u32, &Items<Text>) -> Result<Text, AllocError>, M: Meaning>(
    alloc: Global,
    premise: &[Atom],
    derived: &[Derived],
    shown: &[u32],
    source: &Numbers,
    symbols: &mut Symbols,
    host: &Host<F, M>,
    most: u64,
) -> Result<Option<Rows>, AllocError>
    requires serves { Serves F.Fn M.apply host.now }
    requires listed { Each derived.now (λ (e : AnyDerived). IsListed (offered host.now) e.code (length e.args)) }
    requires fits { FitsMatching (widths (shown_tables source.now.symbols source.now.tables)) premise.now derived.now shown.now }
    requires symbols { Extends source.now.symbols symbols.old }
    ensures grows { Extends symbols.old symbols.new }
    ensures apart { ValuesDiffer symbols.new }
    ensures rows { IfOk result (λ o. MatchOption o
        (MoreTuples most (IsMatchTuple M.apply premise.now derived.now (shown_facts source.now) shown.now))
        (StandFor (length shown.now) (IsMatchTuple M.apply premise.now derived.now (shown_facts source.now) shown.now) symbols.new)) }
    ensures within { IfOk result (λ o. IfSome o (λ r. length r.rows ≤ most)) }
{
    // The call tells that the symbols are distinct.
    prove!(symbols.len() < 4_294_967_296);
    if derived.is_empty() {
        return premise_shown(alloc, premise, shown, source, most);
    }
    let first = premise_variables(premise) as u32;
    let wanted = wanted_variables(alloc, derived, shown, first)?;
    match premise_shown(alloc, premise, &wanted, source, u64::MAX)? {
        Some(rows) => {
            let derivation = Derivation {
                alloc,
                wanted: &wanted,
                derived,
                first,
                host,
            };
            derived_rows(&derivation, &rows, shown, symbols, most)
        }
        None => unreachable!(),
    }
}
