// A mapping text, read with its first fault.
ghost use Rattle.std.specs.Prelude.{◌≡◌, ◌⊎◌, ◌++◌, ◌<◌, ◌≤◌, length, IfOk, IfErr};
ghost use Rattle.dx_grammar.specs.Readers.{whole};
ghost use Rattle.dx_tokens.specs.Judged.{Reads};
ghost use Rattle.dx_tokens.specs.declared.faults.TextFault.TheVariants.{Memory};
ghost use Rattle.dx_schema_text.specs.Reading.{mapping_reader};
ghost use Rattle.dx_schema_text.specs.Texts.{begun_in, fault_in, stops_by, unexpected, mapping_of_tokens, mapping_of_text, IsMappingText, IsMappingFaultOrMemory, AnswersMapping, AnswersMappingFault};

use crate::mapping::whole_mapping;
use crate::texts::MappingText;
use dx_base::Items;
use dx_base::limits::DEPTH;
use dx_grammar::ReadError;
use dx_tokens::{Lexeme, Scanned, Stop, TextFault, TextKind, scan};
use std::alloc::{AllocError, Global};

/// How many levels of inner sets a root may have.
const LEVELS: u32 = DEPTH as u32 - 1;

/// The tokens that are judged one after the other, and the token fault at which they stop.
///
/// # Errors
///
/// `AllocError` if there is no memory.
pub fn judged(scanned: Scanned) -> Result<(Items<Lexeme>, Option<(u64, TextKind)>), AllocError>
    ensures tokens { IfOk result (λ x. x.0 ≡ scanned.lexemes ++ begun_in scanned.stop) }
    ensures stop { IfOk result (λ x. x.1 ≡ fault_in scanned.stop) }
{
    let Scanned { lexemes, stop } = scanned;
    let mut lexemes = lexemes;
    match stop {
        None => Ok((lexemes, None)),
        Some(Stop { place, kind, begun }) => {
            if let Some(begun) = begun {
                lexemes.push(begun)?;
            }
            Ok((lexemes, Some((place, kind))))
        }
    }
}

// The fault at the token with which so many are left, which can't stand.
fn fault_at(alloc: Global, tokens: &[Lexeme], left: usize) -> TextFault
    requires some { 0 < left }
    requires inside { left ≤ length tokens.now }
    ensures { (result ≡ Memory) ⊎ (result ≡ unexpected tokens.now left (stops_by left (whole (mapping_reader DEPTH) tokens.now))) }
{
    let place = tokens[tokens.len() - left].place;
    match whole_mapping(alloc, LEVELS + 1, tokens) {
        Err(ReadError::Memory) => TextFault::Memory,
        Err(ReadError::Left(other)) if left <= other => TextFault::At {
            place,
            kind: TextKind::Expected,
        },
        _ => TextFault::TooDeep { place },
    }
}

// The mapping that the tokens say, if the text has so many bytes and its tokens stop so.
fn mapping_of(
    alloc: Global,
    end: u64,
    stop: Option<(u64, TextKind)>,
    tokens: &[Lexeme],
) -> Result<MappingText, TextFault>
    ensures { Reads result (mapping_of_tokens end stop tokens.now) }
{
    match whole_mapping(alloc, LEVELS, tokens) {
        Ok(mapping) => match stop {
            None => Ok(mapping),
            Some((place, kind)) => Err(TextFault::At { place, kind }),
        },
        Err(ReadError::Memory) => Err(TextFault::Memory),
        Err(ReadError::Left(0)) => Err(TextFault::at_stop(end, stop)),
        Err(ReadError::Left(left)) => Err(fault_at(alloc, tokens, left)),
    }
}

fn read(alloc: Global, text: &[u8]) -> Result<MappingText, TextFault>
    ensures { Reads result (mapping_of_text text.now) }
{
    let (tokens, stop) = judged(scan(alloc, text)?)?;
    mapping_of(alloc, text.len() as u64, stop, tokens.items())
}

/// The mapping that a text says. The tokens are judged one after the other, so that the lowest place is answered.
///
/// # Errors
///
/// `At` with the place of the first fault: `Character` at a byte that can't stand there, `Expected` at the first byte of a
/// token that can't, `Ended` at the end of the text if it ends too early. `TooDeep` at the first byte of a token
/// that can't stand, but could if sets might be nested one level deeper. `Memory` if memory runs out.
pub fn read_mapping(alloc: Global, text: &[u8]) -> Result<MappingText, TextFault>
    ensures value { Reads result (mapping_of_text text.now) }

    // What is read is what the text says, and what it says is read.
    ensures mapping { IfOk result (IsMappingText text.now) }
    ensures mapping_only { AnswersMapping text.now result }

    // A refusal is the text's first fault, and its first fault is refused.
    ensures fault { IfErr result (IsMappingFaultOrMemory text.now) }
    ensures fault_only { AnswersMappingFault text.now result }
{
    read(alloc, text)
}
