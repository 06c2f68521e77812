// Sets with their clauses.
ghost use Rattle.std.specs.Prelude.{◌≡◌, ℕ, List, IfOk};
ghost use Rattle.dx_grammar.specs.Readers.{pass_on, give, next_is, many, ReadsAs};
ghost use Rattle.dx_schema_text.specs.Grammar.{since_two};
ghost use Rattle.dx_schema_text.specs.Reading.{key_reader, dependency_of, decided_reader, dep_reader, begins_determination, determination_reader, reference_of, optional_reader, referred_reader, ref_reader, key_clause, dep_clause, ref_clause, set_clause, begins_clause, last_clause_reader, clause_reader_with, clause_reader, set_head_reader, set_reader, tree_of_clauses};

use crate::lexemes::{after_keyword, after_mark, names, next_is_keyword, word};
use dx_base::{Items, Text};
use dx_grammar::ReadError;
use dx_schema::{DepDecl, KeyDecl, RefDecl, SetTree, Trees};
use dx_tokens::Lexeme;
use std::alloc::{AllocError, Global};

/// What stands after the columns of a set.
#[derive(Drop)]
pub enum Clause {
    Key(KeyDecl),
    Dep(DepDecl),
    Ref(RefDecl),
    Set(SetTree),
}

#[tactic(auto, unfolding(crate::specs::Reading::key_reader))]
fn key(alloc: Global, tokens: &[Lexeme]) -> Result<(KeyDecl, &[Lexeme]), ReadError>
    ensures { ReadsAs (λ x. (x.0, x.1.now)) result (key_reader tokens.now) }
{
    let rest = after_keyword(tokens, b"key")?;
    let rest = after_mark(rest, b"(")?;
    let (columns, rest) = names(alloc, rest)?;
    let rest = after_mark(rest, b")")?;
    let rest = after_mark(rest, b";")?;
    Ok((KeyDecl { columns }, rest))
}

// The columns that a dependency's columns decide.
#[tactic(auto, unfolding(crate::specs::Reading::decided_reader))]
fn decided(alloc: Global, tokens: &[Lexeme]) -> Result<(Items<Text>, &[Lexeme]), ReadError>
    ensures { (columns : List (List ℕ)) → ReadsAs (λ x. (dependency_of columns x.0, x.1.now)) result (decided_reader columns tokens.now) }
{
    let rest = after_mark(tokens, b"(")?;
    let (decides, rest) = names(alloc, rest)?;
    let rest = after_mark(rest, b")")?;
    let rest = after_mark(rest, b";")?;
    Ok((decides, rest))
}

#[tactic(auto, unfolding(crate::specs::Reading::dep_reader))]
fn dependency(alloc: Global, tokens: &[Lexeme]) -> Result<(DepDecl, &[Lexeme]), ReadError>
    ensures { ReadsAs (λ x. (x.0, x.1.now)) result (dep_reader tokens.now) }
{
    let rest = after_keyword(tokens, b"dep")?;
    let rest = after_mark(rest, b"(")?;
    let (columns, rest) = names(alloc, rest)?;
    let rest = after_mark(rest, b")")?;
    let rest = after_mark(rest, b"->")?;
    let (decides, rest) = decided(alloc, rest)?;
    Ok((DepDecl { columns, decides }, rest))
}

// Whether the word `optional` comes next, if refs may be optional.
#[tactic(auto, unfolding(crate::specs::Reading::optional_reader))]
fn optional(optionals: bool, tokens: &[Lexeme]) -> Result<(bool, &[Lexeme]), ReadError>
    ensures { ReadsAs (λ x. (x.0, x.1.now)) result (optional_reader optionals tokens.now) }
{
    if optionals && next_is_keyword(tokens, b"optional") {
        let rest = after_keyword(tokens, b"optional")?;
        Ok((true, rest))
    } else {
        Ok((false, tokens))
    }
}

// The set that a ref's columns refer to, the columns there, and whether the ref is optional.
#[tactic(auto, unfolding(crate::specs::Reading::referred_reader))]
fn referred(
    alloc: Global,
    optionals: bool,
    tokens: &[Lexeme],
) -> Result<(Text, Items<Text>, bool, &[Lexeme]), ReadError>
    ensures { (columns : List (List ℕ)) → ReadsAs (λ x. (reference_of columns x.0 x.1 x.2, x.3.now)) result
        (referred_reader optionals columns tokens.now) }
{
    let (set, rest) = word(tokens)?;
    let rest = after_mark(rest, b"(")?;
    let (referred, rest) = names(alloc, rest)?;
    let rest = after_mark(rest, b")")?;
    let (is_optional, rest) = optional(optionals, rest)?;
    let rest = after_mark(rest, b";")?;
    Ok((set.text.copy()?, referred, is_optional, rest))
}

#[tactic(auto, unfolding(crate::specs::Reading::ref_reader))]
fn reference(
    alloc: Global,
    optionals: bool,
    tokens: &[Lexeme],
) -> Result<(RefDecl, &[Lexeme]), ReadError>
    ensures { ReadsAs (λ x. (x.0, x.1.now)) result (ref_reader optionals tokens.now) }
{
    let rest = after_keyword(tokens, b"ref")?;
    let rest = after_mark(rest, b"(")?;
    let (columns, rest) = names(alloc, rest)?;
    let rest = after_mark(rest, b")")?;
    let rest = after_mark(rest, b"->")?;
    let (set, referred, optional, rest) = referred(alloc, optionals, rest)?;
    let reference = RefDecl {
        columns,
        set,
        referred,
        optional,
    };
    Ok((reference, rest))
}

// Whether a key comes next, or if dependencies may stand a dependency.
fn next_is_determination(tokens: &[Lexeme], dependencies: bool) -> bool
    ensures { result ≡ next_is (begins_determination dependencies) tokens.now }
{
    next_is_keyword(tokens, b"key") || (dependencies && next_is_keyword(tokens, b"dep"))
}

// Whether a clause comes next, if a set has so many levels of inner sets, at most.
fn next_is_clause(tokens: &[Lexeme], version: u32, levels: u32) -> bool
    ensures { result ≡ next_is (begins_clause version levels) tokens.now }
{
    next_is_determination(tokens, version >= 3)
        || next_is_keyword(tokens, b"ref")
        || (levels > 0 && next_is_keyword(tokens, b"set"))
}

// A set of this name with these columns and clauses.
fn tree_made(
    alloc: Global,
    name: Text,
    columns: Items<Text>,
    clauses: Items<Clause>,
) -> Result<SetTree, AllocError>
    ensures { IfOk result (λ t. t ≡ tree_of_clauses name columns clauses) }
{
    let mut keys = Items::new(alloc);
    let mut deps = Items::new(alloc);
    let mut refs = Items::new(alloc);
    let mut inner = Trees::new(alloc);
    'clauses: for clause in clauses.into_vec() {
        match clause {
            Clause::Key(key) => keys.push(key)?,
            Clause::Dep(dep) => deps.push(dep)?,
            Clause::Ref(reference) => refs.push(reference)?,
            Clause::Set(tree) => inner.push(tree)?,
        }
    }
    Ok(SetTree {
        name,
        columns,
        keys,
        deps,
        refs,
        inner,
    })
}

fn key_among(alloc: Global, tokens: &[Lexeme]) -> Result<(Clause, &[Lexeme]), ReadError>
    ensures { ReadsAs (λ x. (x.0, x.1.now)) result (pass_on (key_reader tokens.now) (λ k. give (key_clause k))) }
{
    let (key, rest) = key(alloc, tokens)?;
    Ok((Clause::Key(key), rest))
}

fn dep_among(alloc: Global, tokens: &[Lexeme]) -> Result<(Clause, &[Lexeme]), ReadError>
    ensures { ReadsAs (λ x. (x.0, x.1.now)) result (pass_on (dep_reader tokens.now) (λ d. give (dep_clause d))) }
{
    let (dependency, rest) = dependency(alloc, tokens)?;
    Ok((Clause::Dep(dependency), rest))
}

// A key, or if dependencies may stand a dependency.
#[tactic(auto, unfolding(crate::specs::Reading::determination_reader))]
fn determination(
    alloc: Global,
    dependencies: bool,
    tokens: &[Lexeme],
) -> Result<(Clause, &[Lexeme]), ReadError>
    ensures { ReadsAs (λ x. (x.0, x.1.now)) result (determination_reader dependencies tokens.now) }
{
    if !dependencies || next_is_keyword(tokens, b"key") {
        key_among(alloc, tokens)
    } else {
        dep_among(alloc, tokens)
    }
}

fn ref_among(
    alloc: Global,
    version: u32,
    tokens: &[Lexeme],
) -> Result<(Clause, &[Lexeme]), ReadError>
    ensures { ReadsAs (λ x. (x.0, x.1.now)) result (pass_on (ref_reader (since_two version) tokens.now) (λ r. give (ref_clause r))) }
{
    let (reference, rest) = reference(alloc, version >= 2, tokens)?;
    Ok((Clause::Ref(reference), rest))
}

// A clause where no inner set may stand.
#[tactic(auto, unfolding(crate::specs::Reading::last_clause_reader))]
fn last_clause(
    alloc: Global,
    version: u32,
    tokens: &[Lexeme],
) -> Result<(Clause, &[Lexeme]), ReadError>
    ensures { ReadsAs (λ x. (x.0, x.1.now)) result (last_clause_reader version tokens.now) }
{
    if next_is_determination(tokens, version >= 3) {
        determination(alloc, version >= 3, tokens)
    } else {
        ref_among(alloc, version, tokens)
    }
}

#[cycle(sets)]
fn set_among(
    alloc: Global,
    version: u32,
    levels: u32,
    tokens: &[Lexeme],
) -> Result<(Clause, &[Lexeme]), ReadError>
    ensures { ReadsAs (λ x. (x.0, x.1.now)) result (pass_on (set_reader version levels tokens.now) (λ t. give (set_clause t))) }
{
    let (tree, rest) = set(alloc, version, levels, tokens)?;
    Ok((Clause::Set(tree), rest))
}

// A clause where an inner set with so many levels may stand.
#[cycle(sets)]
#[tactic(auto, unfolding(crate::specs::Reading::clause_reader_with))]
fn clause_with(
    alloc: Global,
    version: u32,
    levels: u32,
    tokens: &[Lexeme],
) -> Result<(Clause, &[Lexeme]), ReadError>
    ensures { ReadsAs (λ x. (x.0, x.1.now)) result (clause_reader_with version (set_reader version levels) tokens.now) }
{
    if next_is_determination(tokens, version >= 3) {
        determination(alloc, version >= 3, tokens)
    } else if next_is_keyword(tokens, b"ref") {
        ref_among(alloc, version, tokens)
    } else {
        set_among(alloc, version, levels, tokens)
    }
}

#[cycle(sets)]
fn one_clause(
    alloc: Global,
    version: u32,
    levels: u32,
    tokens: &[Lexeme],
) -> Result<(Clause, &[Lexeme]), ReadError>
    ensures { ReadsAs (λ x. (x.0, x.1.now)) result (clause_reader version levels tokens.now) }
{
    if levels == 0 {
        last_clause(alloc, version, tokens)
    } else {
        clause_with(alloc, version, levels - 1, tokens)
    }
}

#[cycle(sets)]
fn clauses(
    alloc: Global,
    version: u32,
    levels: u32,
    tokens: &[Lexeme],
) -> Result<(Items<Clause>, &[Lexeme]), ReadError>
    ensures { ReadsAs (λ x. (x.0, x.1.now)) result (many (begins_clause version levels) (clause_reader version levels) tokens.now) }
{
    let mut clauses = Items::new(alloc);
    let mut rest = tokens;
    'clauses: while next_is_clause(rest, version, levels) {
        let (next, after) = one_clause(alloc, version, levels, rest)?;
        clauses.push(next)?;
        rest = after;
    }
    Ok((clauses, rest))
}

// The name and the columns of a set.
#[tactic(auto, unfolding(crate::specs::Reading::set_head_reader))]
fn set_head(alloc: Global, tokens: &[Lexeme]) -> Result<(Text, Items<Text>, &[Lexeme]), ReadError>
    ensures { ReadsAs (λ x. ((x.0, x.1), x.2.now)) result (set_head_reader tokens.now) }
{
    let rest = after_keyword(tokens, b"set")?;
    let (name, rest) = word(rest)?;
    let rest = after_mark(rest, b"{")?;
    let (columns, rest) = names(alloc, rest)?;
    let rest = after_mark(rest, b";")?;
    Ok((name.text.copy()?, columns, rest))
}

/// A set with so many levels of inner sets, at most, in a text of this version.
#[cycle(sets)]
#[tactic(auto, unfolding(crate::specs::Reading::set_reader_of))]
pub(crate) fn set(
    alloc: Global,
    version: u32,
    levels: u32,
    tokens: &[Lexeme],
) -> Result<(SetTree, &[Lexeme]), ReadError>
    ensures { ReadsAs (λ x. (x.0, x.1.now)) result (set_reader version levels tokens.now) }
{
    let (name, columns, rest) = set_head(alloc, tokens)?;
    let (clauses, rest) = clauses(alloc, version, levels, rest)?;
    let rest = after_mark(rest, b"}")?;
    Ok((tree_made(alloc, name, columns, clauses)?, rest))
}
