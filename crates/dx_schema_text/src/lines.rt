// Lines from sources to places of the target, and conditions on columns of the source.
ghost use Rattle.std.specs.Prelude.{codes};
ghost use Rattle.dx_grammar.specs.Readers.{many, with_front, ReadsAs};
ghost use Rattle.dx_schema_text.specs.Grammar.{mark_is};
ghost use Rattle.dx_schema_text.specs.Reading.{place_reader, comma_place, places_reader, string_reader, column_reader, call_reader, named_reader, source_reader, line_reader, only_reader};

use crate::lexemes::{after_keyword, after_mark, next_is_mark, next_is_string, string, word};
use crate::texts::{LineText, OnlyText, PlaceText, SourceText};
use dx_base::Items;
use dx_grammar::ReadError;
use dx_tokens::Lexeme;
use std::alloc::Global;

#[tactic(auto, unfolding(crate::specs::Reading::place_reader))]
fn place(tokens: &[Lexeme]) -> Result<(PlaceText, &[Lexeme]), ReadError>
    ensures { ReadsAs (λ x. (x.0, x.1.now)) result (place_reader tokens.now) }
{
    let (set, rest) = word(tokens)?;
    let rest = after_mark(rest, b".")?;
    let (column, rest) = word(rest)?;
    let place = PlaceText {
        set: set.text.copy()?,
        set_place: set.place,
        column: column.text.copy()?,
        column_place: column.place,
    };
    Ok((place, rest))
}

#[tactic(auto, unfolding(crate::specs::Reading::comma_place))]
fn next_place(tokens: &[Lexeme]) -> Result<(PlaceText, &[Lexeme]), ReadError>
    ensures { ReadsAs (λ x. (x.0, x.1.now)) result (comma_place tokens.now) }
{
    let rest = after_mark(tokens, b",")?;
    place(rest)
}

// These places, and those that follow, each after a comma.
fn more_places(
    places: Items<PlaceText>,
    tokens: &[Lexeme],
) -> Result<(Items<PlaceText>, &[Lexeme]), ReadError>
    ensures { ReadsAs (λ x. (x.0, x.1.now)) result (with_front places (many (mark_is (codes ",")) comma_place tokens.now)) }
{
    let mut places = places;
    let mut rest = tokens;
    'places: while next_is_mark(rest, b",") {
        let (next, after) = next_place(rest)?;
        places.push(next)?;
        rest = after;
    }
    Ok((places, rest))
}

#[tactic(auto, unfolding(crate::specs::Reading::places_reader))]
fn places(alloc: Global, tokens: &[Lexeme]) -> Result<(Items<PlaceText>, &[Lexeme]), ReadError>
    ensures { ReadsAs (λ x. (x.0, x.1.now)) result (places_reader tokens.now) }
{
    let (first, rest) = place(tokens)?;
    let mut places = Items::new(alloc);
    places.push(first)?;
    more_places(places, rest)
}

#[tactic(auto, unfolding(crate::specs::Reading::string_reader))]
fn literal(tokens: &[Lexeme]) -> Result<(SourceText, &[Lexeme]), ReadError>
    ensures { ReadsAs (λ x. (x.0, x.1.now)) result (string_reader tokens.now) }
{
    let (text, rest) = string(tokens)?;
    Ok((SourceText::Literal(text.text.copy()?), rest))
}

// The column after the name of a set.
#[tactic(auto, unfolding(crate::specs::Reading::column_reader))]
fn column<'a>(set: &Lexeme, tokens: &'a [Lexeme]) -> Result<(SourceText, &'a [Lexeme]), ReadError>
    ensures { ReadsAs (λ x. (x.0, x.1.now)) result (column_reader set.now tokens.now) }
{
    let rest = after_mark(tokens, b".")?;
    let (column, rest) = word(rest)?;
    let place = PlaceText {
        set: set.text.copy()?,
        set_place: set.place,
        column: column.text.copy()?,
        column_place: column.place,
    };
    Ok((SourceText::Column(place), rest))
}

// The arguments after the name of a conversion.
#[tactic(auto, unfolding(crate::specs::Reading::call_reader))]
fn call<'a>(
    alloc: Global,
    name: &Lexeme,
    tokens: &'a [Lexeme],
) -> Result<(SourceText, &'a [Lexeme]), ReadError>
    ensures { ReadsAs (λ x. (x.0, x.1.now)) result (call_reader name.now tokens.now) }
{
    let rest = after_mark(tokens, b"(")?;
    let (args, rest) = places(alloc, rest)?;
    let rest = after_mark(rest, b")")?;
    let call = SourceText::Call {
        name: name.text.copy()?,
        place: name.place,
        args,
    };
    Ok((call, rest))
}

#[tactic(auto, unfolding(crate::specs::Reading::named_reader))]
fn named(alloc: Global, tokens: &[Lexeme]) -> Result<(SourceText, &[Lexeme]), ReadError>
    ensures { ReadsAs (λ x. (x.0, x.1.now)) result (named_reader tokens.now) }
{
    let (name, rest) = word(tokens)?;
    if next_is_mark(rest, b".") {
        column(name, rest)
    } else {
        call(alloc, name, rest)
    }
}

#[tactic(auto, unfolding(crate::specs::Reading::source_reader))]
fn source(alloc: Global, tokens: &[Lexeme]) -> Result<(SourceText, &[Lexeme]), ReadError>
    ensures { ReadsAs (λ x. (x.0, x.1.now)) result (source_reader tokens.now) }
{
    if next_is_string(tokens) {
        literal(tokens)
    } else {
        named(alloc, tokens)
    }
}

/// A line, and what is left after it.
#[tactic(auto, unfolding(crate::specs::Reading::line_reader))]
pub(crate) fn line(alloc: Global, tokens: &[Lexeme]) -> Result<(LineText, &[Lexeme]), ReadError>
    ensures { ReadsAs (λ x. (x.0, x.1.now)) result (line_reader tokens.now) }
{
    let rest = after_keyword(tokens, b"line")?;
    let (source, rest) = source(alloc, rest)?;
    let rest = after_mark(rest, b"->")?;
    let (target, rest) = place(rest)?;
    let rest = after_mark(rest, b";")?;
    Ok((LineText { source, target }, rest))
}

/// A condition, and what is left after it.
#[tactic(auto, unfolding(crate::specs::Reading::only_reader))]
pub(crate) fn only(tokens: &[Lexeme]) -> Result<(OnlyText, &[Lexeme]), ReadError>
    ensures { ReadsAs (λ x. (x.0, x.1.now)) result (only_reader tokens.now) }
{
    let rest = after_keyword(tokens, b"only")?;
    let (place, rest) = place(rest)?;
    let (test, rest) = word(rest)?;
    let rest = after_mark(rest, b";")?;
    let condition = OnlyText {
        place,
        test: test.text.copy()?,
        test_place: test.place,
    };
    Ok((condition, rest))
}
