// The parts of a query text, read with its first fault as a text.
ghost use Rattle.std.specs.Prelude.{◌≡◌, ◌-◌, ◌<◌, ◌≤◌, codes, length};
ghost use Rattle.dx_grammar.specs.Readers.{ReadsAs, many, whole, with_front};
ghost use Rattle.dx_tokens.specs.Judged.{Reads};
ghost use Rattle.dx_tokens.specs.declared.faults.TextFault.TheVariants.{At};
ghost use Rattle.dx_tokens.specs.declared.faults.TextKind.TheVariants.{Expected};
ghost use Rattle.dx_schema_text.specs.Grammar.{word_is};
ghost use Rattle.dx_schema_text.specs.Texts.{token_place};
ghost use Rattle.dx_query_text.specs.Reading.{part_reader, query_reader};
ghost use Rattle.dx_query_text.specs.Texts.{query_of_text, query_of_tokens};

use crate::texts::PartText;
use dx_base::Items;
use dx_grammar::{ReadError, nothing_left};
use dx_schema_text::{
    after_keyword, after_mark, after_number, atoms, cells, judged, keyword, next_is_keyword,
};
use dx_tokens::{Lexeme, TextFault, TextKind, scan};
use std::alloc::Global;

// A part, and what is left after it.
#[tactic(auto, unfolding(crate::specs::Reading::part_reader))]
fn part(alloc: Global, tokens: &[Lexeme]) -> Result<(PartText, &[Lexeme]), ReadError>
    ensures { ReadsAs (λ x. (x.0, x.1.now)) result (part_reader tokens.now) }
{
    let (begin, rest) = keyword(tokens, b"answer")?;
    let rest = after_mark(rest, b"(")?;
    let (answer, rest) = cells(alloc, true, rest)?;
    let rest = after_mark(rest, b")")?;
    let rest = after_keyword(rest, b"from")?;
    let (atoms, rest) = atoms(alloc, true, rest)?;
    let rest = after_mark(rest, b";")?;
    let part = PartText {
        place: begin.place,
        answer,
        atoms,
    };
    Ok((part, rest))
}

// These parts, and those that follow.
fn more_parts(
    alloc: Global,
    parts: Items<PartText>,
    tokens: &[Lexeme],
) -> Result<(Items<PartText>, &[Lexeme]), ReadError>
    ensures { ReadsAs (λ x. (x.0, x.1.now)) result (with_front parts (many (word_is (codes "answer")) part_reader tokens.now)) }
{
    let mut parts = parts;
    let mut rest = tokens;
    'parts: while next_is_keyword(rest, b"answer") {
        let (next, after) = part(alloc, rest)?;
        parts.push(next)?;
        rest = after;
    }
    Ok((parts, rest))
}

// The parts of a query, and what is left after them.
#[tactic(auto, unfolding(crate::specs::Reading::query_reader))]
fn query(alloc: Global, tokens: &[Lexeme]) -> Result<(Items<PartText>, &[Lexeme]), ReadError>
    ensures { ReadsAs (λ x. (x.0, x.1.now)) result (query_reader tokens.now) }
{
    let rest = after_keyword(tokens, b"query")?;
    let rest = after_number(rest, b"1")?;
    let rest = after_mark(rest, b";")?;
    let (first, rest) = part(alloc, rest)?;
    let mut parts = Items::new(alloc);
    parts.push(first)?;
    more_parts(alloc, parts, rest)
}

// The parts of the query that all of the tokens say.
fn whole_query(alloc: Global, tokens: &[Lexeme]) -> Result<Items<PartText>, ReadError>
    ensures { ReadsAs (λ x. x) result (whole query_reader tokens.now) }
{
    let (parts, rest) = query(alloc, tokens)?;
    nothing_left(rest)?;
    Ok(parts)
}

// The fault at the token with which so many are left, which can't stand.
fn fault_at(tokens: &[Lexeme], left: usize) -> TextFault
    requires some { 0 < left }
    requires inside { left ≤ length tokens.now }
    ensures { result ≡ At (token_place tokens.now (length tokens.now - left)) Expected }
{
    TextFault::At {
        place: tokens[tokens.len() - left].place,
        kind: TextKind::Expected,
    }
}

// The parts of the query that the tokens say, if the text has so many bytes and its tokens stop so.
fn parts_of(
    alloc: Global,
    end: u64,
    stop: Option<(u64, TextKind)>,
    tokens: &[Lexeme],
) -> Result<Items<PartText>, TextFault>
    ensures { Reads result (query_of_tokens end stop tokens.now) }
{
    match whole_query(alloc, tokens) {
        Ok(parts) => match stop {
            None => Ok(parts),
            Some((place, kind)) => Err(TextFault::At { place, kind }),
        },
        Err(ReadError::Memory) => Err(TextFault::Memory),
        Err(ReadError::Left(0)) => Err(TextFault::at_stop(end, stop)),
        Err(ReadError::Left(left)) => Err(fault_at(tokens, left)),
    }
}

/// The parts of the query that a text says. The tokens are judged one after the other, so that the lowest place is answered.
///
/// # Errors
///
/// `At` with the first fault of the text as a text. `Memory` if there is no memory, which may come at any point.
pub(crate) fn read_parts(alloc: Global, text: &[u8]) -> Result<Items<PartText>, TextFault>
    ensures { Reads result (query_of_text text.now) }
{
    let (tokens, stop) = judged(scan(alloc, text)?)?;
    parts_of(alloc, text.len() as u64, stop, tokens.items())
}
