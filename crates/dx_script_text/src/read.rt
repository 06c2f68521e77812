// A script's text, read with its first fault.
ghost use Rattle.std.specs.Prelude.{◌≡◌, ◌++◌, ◌-◌, ◌<◌, ◌≤◌, length, IfOk, IfErr};
ghost use Rattle.dx_grammar.specs.Readers.{many, next_is, whole, ReadsAs};
ghost use Rattle.dx_tokens.specs.Judged.{Reads};
ghost use Rattle.dx_tokens.specs.declared.faults.TextFault.TheVariants.{At};
ghost use Rattle.dx_tokens.specs.declared.faults.TextKind.TheVariants.{Expected};
ghost use Rattle.dx_script_tokens.specs.Numbers.{greatest_number};
ghost use Rattle.dx_script_text.specs.Texts.{script_begun_in, script_fault_in, script_token_place, script_of_tokens, script_of_text, IsScriptText, IsScriptFaultOrMemory, AnswersScript, AnswersScriptFault};
ghost use Rattle.dx_script_text.specs.Reading.{table_reader, created_reader, step_reader, begins_step, script_reader};

use crate::creates::create;
use crate::inserts::insert_rows;
use crate::keeps::keep_rows;
use crate::matches::match_rows;
use crate::tokens::{after, next_of};
use dx_base::Items;
use dx_grammar::{ReadError, nothing_left};
use dx_script::{Script, Step};
use dx_script_tokens::{ScriptKind, ScriptScan, ScriptStop, ScriptToken, scan_script};
use dx_tokens::{TextFault, TextKind};
use std::alloc::{AllocError, Global};

#[tactic(auto, unfolding(crate::specs::Reading::table_reader))]
fn table(alloc: Global, tokens: &[ScriptToken]) -> Result<(Step, &[ScriptToken]), ReadError>
    ensures { ReadsAs (λ x. (x.0, x.1.now)) result (table_reader greatest_number tokens.now) }
{
    if next_of(tokens, ScriptKind::Target) {
        create(alloc, tokens)
    } else if next_of(tokens, ScriptKind::Match) {
        match_rows(alloc, tokens)
    } else {
        keep_rows(alloc, tokens)
    }
}

#[tactic(auto, unfolding(crate::specs::Reading::created_reader))]
fn created(alloc: Global, tokens: &[ScriptToken]) -> Result<(Step, &[ScriptToken]), ReadError>
    ensures { ReadsAs (λ x. (x.0, x.1.now)) result (created_reader greatest_number tokens.now) }
{
    let rest = after(tokens, ScriptKind::Create)?;
    let rest = after(rest, ScriptKind::Table)?;
    table(alloc, rest)
}

#[tactic(auto, unfolding(crate::specs::Reading::step_reader))]
fn step(alloc: Global, tokens: &[ScriptToken]) -> Result<(Step, &[ScriptToken]), ReadError>
    ensures { ReadsAs (λ x. (x.0, x.1.now)) result (step_reader greatest_number tokens.now) }
{
    if next_of(tokens, ScriptKind::Create) {
        created(alloc, tokens)
    } else {
        insert_rows(alloc, tokens)
    }
}

fn next_is_step(tokens: &[ScriptToken]) -> bool
    ensures { result ≡ next_is begins_step tokens.now }
{
    next_of(tokens, ScriptKind::Create) || next_of(tokens, ScriptKind::Insert)
}

#[tactic(auto, unfolding(crate::specs::Reading::script_reader))]
fn steps(alloc: Global, tokens: &[ScriptToken]) -> Result<(Items<Step>, &[ScriptToken]), ReadError>
    ensures { ReadsAs (λ x. (x.0, x.1.now)) result (many begins_step (step_reader greatest_number) tokens.now) }
{
    let mut all = Items::new(alloc);
    let mut rest = tokens;
    'all: while next_is_step(rest) {
        let (next, after) = step(alloc, rest)?;
        all.push(next)?;
        rest = after;
    }
    Ok((all, rest))
}

#[tactic(auto, unfolding(crate::specs::Reading::script_reader))]
fn whole_script(alloc: Global, tokens: &[ScriptToken]) -> Result<Items<Step>, ReadError>
    ensures { ReadsAs (λ x. x) result (whole (script_reader greatest_number) tokens.now) }
{
    let (steps, rest) = steps(alloc, tokens)?;
    nothing_left(rest)?;
    Ok(steps)
}

// The tokens that are judged one after the other, and the token fault at which they stop.
fn judged(scan: ScriptScan) -> Result<(Items<ScriptToken>, Option<(u64, TextKind)>), AllocError>
    ensures tokens { IfOk result (λ x. x.0 ≡ scan.tokens ++ script_begun_in scan.stop) }
    ensures stop { IfOk result (λ x. x.1 ≡ script_fault_in scan.stop) }
{
    let ScriptScan { tokens, stop } = scan;
    let mut tokens = tokens;
    match stop {
        None => Ok((tokens, None)),
        Some(ScriptStop { place, kind, begun }) => {
            if let Some(begun) = begun {
                tokens.push(begun)?;
            }
            Ok((tokens, Some((place, kind))))
        }
    }
}

// The fault at the token with which so many are left, which can't stand.
fn fault_at(tokens: &[ScriptToken], left: usize) -> TextFault
    requires some { 0 < left }
    requires inside { left ≤ length tokens.now }
    ensures { result ≡ At (script_token_place tokens.now (length tokens.now - left)) Expected }
{
    TextFault::At {
        place: tokens[tokens.len() - left].place,
        kind: TextKind::Expected,
    }
}

// The script that the tokens say, if the text has so many bytes and its tokens stop so.
fn script_of(
    alloc: Global,
    end: u64,
    stop: Option<(u64, TextKind)>,
    tokens: &[ScriptToken],
) -> Result<Script, TextFault>
    ensures { Reads result (script_of_tokens end stop tokens.now) }
{
    match whole_script(alloc, tokens) {
        Ok(steps) => match stop {
            None => Ok(Script { steps }),
            Some((place, kind)) => Err(TextFault::At { place, kind }),
        },
        Err(ReadError::Memory) => Err(TextFault::Memory),
        Err(ReadError::Left(0)) => Err(TextFault::at_stop(end, stop)),
        Err(ReadError::Left(left)) => Err(fault_at(tokens, left)),
    }
}

fn read(alloc: Global, text: &[u8]) -> Result<Script, TextFault>
    ensures { Reads result (script_of_text text.now) }
{
    let (tokens, stop) = judged(scan_script(alloc, text)?)?;
    script_of(alloc, text.len() as u64, stop, tokens.items())
}

/// The script that a text says. The tokens are judged one after the other, so that the lowest place is answered.
///
/// # Errors
///
/// `At` with the place of the first fault: `Character` at a byte that can't stand there, `Expected` at the first byte of a
/// token that can't, `Ended` at the end of the text if it ends too early. `Memory` if memory runs out.
pub fn read_script(alloc: Global, text: &[u8]) -> Result<Script, TextFault>
    ensures value { Reads result (script_of_text text.now) }

    // What is read is what the text says, and what it says is read.
    ensures script { IfOk result (IsScriptText text.now) }
    ensures script_only { AnswersScript text.now result }

    // A refusal is the text's first fault, and its first fault is refused.
    ensures fault { IfErr result (IsScriptFaultOrMemory text.now) }
    ensures fault_only { AnswersScriptFault text.now result }
{
    read(alloc, text)
}
