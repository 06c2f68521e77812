// Whole mapping texts.
ghost use Rattle.std.specs.Prelude.{◌≡◌, codes, IfOk};
ghost use Rattle.dx_grammar.specs.Readers.{next_is, many, pass_on, give, whole, ReadsAs};
ghost use Rattle.dx_schema_text.specs.Grammar.{word_is};
ghost use Rattle.dx_schema_text.specs.Reading.{line_reader, rule_reader, only_reader, line_item, rule_item, only_item, begins_item, item_reader, set_reader, side_reader, body_reader, mapping_reader, mapping_of_items};

use crate::clauses::set;
use crate::lexemes::{after_keyword, after_mark, after_number, next_is_keyword, next_is_number};
use crate::lines::{line, only};
use crate::rules::rule;
use crate::texts::{LineText, MappingText, OnlyText, RuleText};
use dx_base::Items;
use dx_grammar::{ReadError, nothing_left};
use dx_schema::{SetTree, Trees};
use dx_tokens::Lexeme;
use std::alloc::{AllocError, Global};

/// What stands after the two sides of a mapping.
#[derive(Drop)]
pub enum ItemText {
    Line(LineText),
    Rule(RuleText),
    Only(OnlyText),
}

fn line_among(alloc: Global, tokens: &[Lexeme]) -> Result<(ItemText, &[Lexeme]), ReadError>
    ensures { ReadsAs (λ x. (x.0, x.1.now)) result (pass_on (line_reader tokens.now) (λ l. give (line_item l))) }
{
    let (line, rest) = line(alloc, tokens)?;
    Ok((ItemText::Line(line), rest))
}

fn rule_among(alloc: Global, tokens: &[Lexeme]) -> Result<(ItemText, &[Lexeme]), ReadError>
    ensures { ReadsAs (λ x. (x.0, x.1.now)) result (pass_on (rule_reader tokens.now) (λ r. give (rule_item r))) }
{
    let (rule, rest) = rule(alloc, tokens)?;
    Ok((ItemText::Rule(rule), rest))
}

fn only_among(tokens: &[Lexeme]) -> Result<(ItemText, &[Lexeme]), ReadError>
    ensures { ReadsAs (λ x. (x.0, x.1.now)) result (pass_on (only_reader tokens.now) (λ o. give (only_item o))) }
{
    let (only, rest) = only(tokens)?;
    Ok((ItemText::Only(only), rest))
}

// A line or a rule, or if conditions may stand a condition.
#[tactic(auto, unfolding(crate::specs::Reading::item_reader))]
fn item(
    alloc: Global,
    conditions: bool,
    tokens: &[Lexeme],
) -> Result<(ItemText, &[Lexeme]), ReadError>
    ensures { ReadsAs (λ x. (x.0, x.1.now)) result (item_reader conditions tokens.now) }
{
    if next_is_keyword(tokens, b"line") {
        line_among(alloc, tokens)
    } else if !conditions || next_is_keyword(tokens, b"rule") {
        rule_among(alloc, tokens)
    } else {
        only_among(tokens)
    }
}

fn next_is_item(tokens: &[Lexeme], conditions: bool) -> bool
    ensures { result ≡ next_is (begins_item conditions) tokens.now }
{
    next_is_keyword(tokens, b"line")
        || next_is_keyword(tokens, b"rule")
        || (conditions && next_is_keyword(tokens, b"only"))
}

fn items(
    alloc: Global,
    conditions: bool,
    tokens: &[Lexeme],
) -> Result<(Items<ItemText>, &[Lexeme]), ReadError>
    ensures { ReadsAs (λ x. (x.0, x.1.now)) result (many (begins_item conditions) (item_reader conditions) tokens.now) }
{
    let mut items = Items::new(alloc);
    let mut rest = tokens;
    'items: while next_is_item(rest, conditions) {
        let (next, after) = item(alloc, conditions, rest)?;
        items.push(next)?;
        rest = after;
    }
    Ok((items, rest))
}

fn sets(
    alloc: Global,
    version: u32,
    levels: u32,
    tokens: &[Lexeme],
) -> Result<(Items<SetTree>, &[Lexeme]), ReadError>
    ensures { ReadsAs (λ x. (x.0, x.1.now)) result (many (word_is (codes "set")) (set_reader version levels) tokens.now) }
{
    let mut sets = Items::new(alloc);
    let mut rest = tokens;
    'sets: while next_is_keyword(rest, b"set") {
        let (next, after) = set(alloc, version, levels, rest)?;
        sets.push(next)?;
        rest = after;
    }
    Ok((sets, rest))
}

// The sets of one side.
#[tactic(auto, unfolding(crate::specs::Reading::side_reader))]
fn side<'a>(
    alloc: Global,
    version: u32,
    name: &[u8],
    levels: u32,
    tokens: &'a [Lexeme],
) -> Result<(Trees, &'a [Lexeme]), ReadError>
    ensures { ReadsAs (λ x. (x.0, x.1.now)) result (side_reader version name.now levels tokens.now) }
{
    let rest = after_keyword(tokens, name)?;
    let rest = after_mark(rest, b"{")?;
    let (sets, rest) = sets(alloc, version, levels, rest)?;
    let rest = after_mark(rest, b"}")?;
    Ok((Trees::from_vec(sets.into_vec()), rest))
}

// A mapping of this version, of these sides and items.
fn mapping_made(
    alloc: Global,
    version: u32,
    source: Trees,
    target: Trees,
    items: Items<ItemText>,
) -> Result<MappingText, AllocError>
    ensures { IfOk result (λ m. m ≡ mapping_of_items version source target items) }
{
    let mut lines = Items::new(alloc);
    let mut conditions = Items::new(alloc);
    let mut rules = Items::new(alloc);
    'items: for item in items.into_vec() {
        match item {
            ItemText::Line(line) => lines.push(line)?,
            ItemText::Rule(rule) => rules.push(rule)?,
            ItemText::Only(only) => conditions.push(only)?,
        }
    }
    Ok(MappingText {
        version,
        source,
        target,
        lines,
        conditions,
        rules,
    })
}

// What stands after the number of a version.
#[tactic(auto, unfolding(crate::specs::Reading::body_reader))]
fn body(
    alloc: Global,
    version: u32,
    levels: u32,
    tokens: &[Lexeme],
) -> Result<(MappingText, &[Lexeme]), ReadError>
    ensures { ReadsAs (λ x. (x.0, x.1.now)) result (body_reader version levels tokens.now) }
{
    let rest = after_mark(tokens, b";")?;
    let (source, rest) = side(alloc, version, b"source", levels, rest)?;
    let (target, rest) = side(alloc, version, b"target", levels, rest)?;
    let (items, rest) = items(alloc, version >= 2, rest)?;
    Ok((mapping_made(alloc, version, source, target, items)?, rest))
}

#[tactic(auto, unfolding(crate::specs::Reading::mapping_reader))]
fn mapping(
    alloc: Global,
    levels: u32,
    tokens: &[Lexeme],
) -> Result<(MappingText, &[Lexeme]), ReadError>
    ensures { ReadsAs (λ x. (x.0, x.1.now)) result (mapping_reader levels tokens.now) }
{
    let rest = after_keyword(tokens, b"mapping")?;
    if next_is_number(rest, b"1") {
        let rest = after_number(rest, b"1")?;
        body(alloc, 1, levels, rest)
    } else if next_is_number(rest, b"2") {
        let rest = after_number(rest, b"2")?;
        body(alloc, 2, levels, rest)
    } else {
        let rest = after_number(rest, b"3")?;
        body(alloc, 3, levels, rest)
    }
}

/// The mapping that all of the tokens say, whose sets have so many levels of inner sets, at most.
pub(crate) fn whole_mapping(
    alloc: Global,
    levels: u32,
    tokens: &[Lexeme],
) -> Result<MappingText, ReadError>
    ensures { ReadsAs (λ m. m) result (whole (mapping_reader levels) tokens.now) }
{
    let (mapping, rest) = mapping(alloc, levels, tokens)?;
    nothing_left(rest)?;
    Ok(mapping)
}
