// Rules that are written by hand.
ghost use Rattle.std.specs.Prelude.{codes};
ghost use Rattle.dx_grammar.specs.Readers.{many, with_front, ReadsAs};
ghost use Rattle.dx_schema_text.specs.Grammar.{mark_is};
ghost use Rattle.dx_schema_text.specs.Reading.{name_reader, literal_reader, cell_reader, comma_cell, cells_reader, atom_reader, comma_atom, atoms_reader, derived_reader, comma_derived, where_reader, optional_where, rule_reader};

use crate::lexemes::{
    after_keyword, after_mark, next_is_keyword, next_is_mark, next_is_word, string, word,
};
use crate::texts::{AtomText, CellText, DerivedText, RuleText};
use dx_base::Items;
use dx_grammar::ReadError;
use dx_tokens::Lexeme;
use std::alloc::Global;

#[tactic(auto, unfolding(crate::specs::Reading::name_reader))]
fn name(tokens: &[Lexeme]) -> Result<(CellText, &[Lexeme]), ReadError>
    ensures { ReadsAs (λ x. (x.0, x.1.now)) result (name_reader tokens.now) }
{
    let (word, rest) = word(tokens)?;
    let name = CellText::Name {
        name: word.text.copy()?,
        place: word.place,
    };
    Ok((name, rest))
}

#[tactic(auto, unfolding(crate::specs::Reading::literal_reader))]
fn literal(tokens: &[Lexeme]) -> Result<(CellText, &[Lexeme]), ReadError>
    ensures { ReadsAs (λ x. (x.0, x.1.now)) result (literal_reader tokens.now) }
{
    let (text, rest) = string(tokens)?;
    Ok((CellText::Literal(text.text.copy()?), rest))
}

// A name, or if strings may stand, a name or a string.
#[tactic(auto, unfolding(crate::specs::Reading::cell_reader))]
fn cell(strings: bool, tokens: &[Lexeme]) -> Result<(CellText, &[Lexeme]), ReadError>
    ensures { ReadsAs (λ x. (x.0, x.1.now)) result (cell_reader strings tokens.now) }
{
    if !strings || next_is_word(tokens) {
        name(tokens)
    } else {
        literal(tokens)
    }
}

#[tactic(auto, unfolding(crate::specs::Reading::comma_cell))]
fn next_cell(strings: bool, tokens: &[Lexeme]) -> Result<(CellText, &[Lexeme]), ReadError>
    ensures { ReadsAs (λ x. (x.0, x.1.now)) result (comma_cell strings tokens.now) }
{
    let rest = after_mark(tokens, b",")?;
    cell(strings, rest)
}

// These cells, and those that follow, each after a comma.
fn more_cells(
    strings: bool,
    cells: Items<CellText>,
    tokens: &[Lexeme],
) -> Result<(Items<CellText>, &[Lexeme]), ReadError>
    ensures { ReadsAs (λ x. (x.0, x.1.now)) result (with_front cells (many (mark_is (codes ",")) (comma_cell strings) tokens.now)) }
{
    let mut cells = cells;
    let mut rest = tokens;
    'cells: while next_is_mark(rest, b",") {
        let (next, after) = next_cell(strings, rest)?;
        cells.push(next)?;
        rest = after;
    }
    Ok((cells, rest))
}

/// Cells parted by commas, and what is left after them: names, and if strings may stand, names and strings.
///
/// # Errors
///
/// `Left` with how many tokens are left at the first that can't stand. `Memory` if there is no memory.
#[tactic(auto, unfolding(crate::specs::Reading::cells_reader))]
pub fn cells(
    alloc: Global,
    strings: bool,
    tokens: &[Lexeme],
) -> Result<(Items<CellText>, &[Lexeme]), ReadError>
    ensures { ReadsAs (λ x. (x.0, x.1.now)) result (cells_reader strings tokens.now) }
{
    let (first, rest) = cell(strings, tokens)?;
    let mut cells = Items::new(alloc);
    cells.push(first)?;
    more_cells(strings, cells, rest)
}

#[tactic(auto, unfolding(crate::specs::Reading::atom_reader))]
fn atom(alloc: Global, strings: bool, tokens: &[Lexeme]) -> Result<(AtomText, &[Lexeme]), ReadError>
    ensures { ReadsAs (λ x. (x.0, x.1.now)) result (atom_reader strings tokens.now) }
{
    let (set, rest) = word(tokens)?;
    let rest = after_mark(rest, b"(")?;
    let (cells, rest) = cells(alloc, strings, rest)?;
    let rest = after_mark(rest, b")")?;
    let atom = AtomText {
        set: set.text.copy()?,
        place: set.place,
        cells,
    };
    Ok((atom, rest))
}

#[tactic(auto, unfolding(crate::specs::Reading::comma_atom))]
fn next_atom(
    alloc: Global,
    strings: bool,
    tokens: &[Lexeme],
) -> Result<(AtomText, &[Lexeme]), ReadError>
    ensures { ReadsAs (λ x. (x.0, x.1.now)) result (comma_atom strings tokens.now) }
{
    let rest = after_mark(tokens, b",")?;
    atom(alloc, strings, rest)
}

// These atoms, and those that follow, each after a comma.
fn more_atoms(
    alloc: Global,
    strings: bool,
    atoms: Items<AtomText>,
    tokens: &[Lexeme],
) -> Result<(Items<AtomText>, &[Lexeme]), ReadError>
    ensures { ReadsAs (λ x. (x.0, x.1.now)) result (with_front atoms (many (mark_is (codes ",")) (comma_atom strings) tokens.now)) }
{
    let mut atoms = atoms;
    let mut rest = tokens;
    'atoms: while next_is_mark(rest, b",") {
        let (next, after) = next_atom(alloc, strings, rest)?;
        atoms.push(next)?;
        rest = after;
    }
    Ok((atoms, rest))
}

/// Atoms parted by commas, and what is left after them: with names as cells, and if strings may stand, names and strings.
///
/// # Errors
///
/// `Left` with how many tokens are left at the first that can't stand. `Memory` if there is no memory.
#[tactic(auto, unfolding(crate::specs::Reading::atoms_reader))]
pub fn atoms(
    alloc: Global,
    strings: bool,
    tokens: &[Lexeme],
) -> Result<(Items<AtomText>, &[Lexeme]), ReadError>
    ensures { ReadsAs (λ x. (x.0, x.1.now)) result (atoms_reader strings tokens.now) }
{
    let (first, rest) = atom(alloc, strings, tokens)?;
    let mut atoms = Items::new(alloc);
    atoms.push(first)?;
    more_atoms(alloc, strings, atoms, rest)
}

#[tactic(auto, unfolding(crate::specs::Reading::derived_reader))]
fn derived(alloc: Global, tokens: &[Lexeme]) -> Result<(DerivedText, &[Lexeme]), ReadError>
    ensures { ReadsAs (λ x. (x.0, x.1.now)) result (derived_reader tokens.now) }
{
    let (name, rest) = word(tokens)?;
    let rest = after_mark(rest, b"=")?;
    let (call, rest) = word(rest)?;
    let rest = after_mark(rest, b"(")?;
    let (args, rest) = cells(alloc, false, rest)?;
    let rest = after_mark(rest, b")")?;
    let derived = DerivedText {
        name: name.text.copy()?,
        place: name.place,
        call: call.text.copy()?,
        call_place: call.place,
        args,
    };
    Ok((derived, rest))
}

#[tactic(auto, unfolding(crate::specs::Reading::comma_derived))]
fn next_derived(alloc: Global, tokens: &[Lexeme]) -> Result<(DerivedText, &[Lexeme]), ReadError>
    ensures { ReadsAs (λ x. (x.0, x.1.now)) result (comma_derived tokens.now) }
{
    let rest = after_mark(tokens, b",")?;
    derived(alloc, rest)
}

// These derived variables, and those that follow, each after a comma.
fn more_derived(
    alloc: Global,
    all: Items<DerivedText>,
    tokens: &[Lexeme],
) -> Result<(Items<DerivedText>, &[Lexeme]), ReadError>
    ensures { ReadsAs (λ x. (x.0, x.1.now)) result (with_front all (many (mark_is (codes ",")) comma_derived tokens.now)) }
{
    let mut all = all;
    let mut rest = tokens;
    'all: while next_is_mark(rest, b",") {
        let (next, after) = next_derived(alloc, rest)?;
        all.push(next)?;
        rest = after;
    }
    Ok((all, rest))
}

#[tactic(auto, unfolding(crate::specs::Reading::where_reader))]
fn where_part(
    alloc: Global,
    tokens: &[Lexeme],
) -> Result<(Items<DerivedText>, &[Lexeme]), ReadError>
    ensures { ReadsAs (λ x. (x.0, x.1.now)) result (where_reader tokens.now) }
{
    let rest = after_keyword(tokens, b"where")?;
    let (first, rest) = derived(alloc, rest)?;
    let mut all = Items::new(alloc);
    all.push(first)?;
    more_derived(alloc, all, rest)
}

#[tactic(auto, unfolding(crate::specs::Reading::optional_where))]
fn derived_variables(
    alloc: Global,
    tokens: &[Lexeme],
) -> Result<(Items<DerivedText>, &[Lexeme]), ReadError>
    ensures { ReadsAs (λ x. (x.0, x.1.now)) result (optional_where tokens.now) }
{
    if next_is_keyword(tokens, b"where") {
        where_part(alloc, tokens)
    } else {
        Ok((Items::new(alloc), tokens))
    }
}

/// A rule, and what is left after it.
#[tactic(auto, unfolding(crate::specs::Reading::rule_reader))]
pub(crate) fn rule(alloc: Global, tokens: &[Lexeme]) -> Result<(RuleText, &[Lexeme]), ReadError>
    ensures { ReadsAs (λ x. (x.0, x.1.now)) result (rule_reader tokens.now) }
{
    let rest = after_keyword(tokens, b"rule")?;
    let (premise, rest) = atoms(alloc, false, rest)?;
    let (derived, rest) = derived_variables(alloc, rest)?;
    let rest = after_mark(rest, b"->")?;
    let (conclusion, rest) = atoms(alloc, true, rest)?;
    let rest = after_mark(rest, b";")?;
    let rule = RuleText {
        premise,
        derived,
        conclusion,
    };
    Ok((rule, rest))
}
