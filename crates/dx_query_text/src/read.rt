// A query text, read with its first fault.
ghost use Rattle.std.specs.Prelude.{◌<◌, ◌-◌, ◌^◌, IfErr, IfOk, length};
ghost use Rattle.dx_schema.specs.Tables.{schema_widths};
ghost use Rattle.dx_tokens.specs.Judged.{Reads};
ghost use Rattle.dx_queries.specs.Results.{FitsQuery};
ghost use Rattle.dx_query_text.specs.Queries.{AnswersQueryFault, AnswersQuery, HasFewAtoms, IsQueryOver, IsQueryFaultOrMemory, read_over};

use crate::naming::named_query;
use crate::parts::read_parts;
use dx_queries::Query;
use dx_schema::Schema;
use dx_tokens::TextFault;
use std::alloc::Global;

fn read(alloc: Global, text: &[u8], target: &Schema) -> Result<Query, TextFault>
    requires few { length text.now < 2 ^ 32 - 1 }
    ensures { Reads result (read_over target.now text.now) }
{
    let parts = read_parts(alloc, text)?;
    named_query(alloc, parts.items(), target)
}

/// The query over the target's tables that a text says, by the numbers of what it names. The variables of a part are
/// numbered by their first appearance in its atoms. If no part has more than 64 atoms, the query fits the target.
///
/// # Errors
///
/// `At` with the place of the first fault. `Memory` if there is no memory, which may come at any point. `TooDeep` never comes.
///
/// 1. Of the text: `Character` at a byte that can't stand there, `Expected` at the first byte of a token that can't, `Ended` at
///    the end of the text if it ends too early.
/// 2. Part by part, each atom from left to right: `UnknownName` at a word that names no table of the target, or `Width` there
///    if the table has another number of columns than the atom cells.
/// 3. Then `Width` at the word `answer` of a part that has another number of answer cells than the first.
/// 4. Then `Unsafe` at the first variable of the part's answer that stands in none of its atoms.
pub fn read_query(alloc: Global, text: &[u8], target: &Schema) -> Result<Query, TextFault>
    requires few { length text.now < 2 ^ 32 - 1 }
    ensures value { Reads result (read_over target.now text.now) }

    // What is read is what the text says, and what it says is read.
    ensures query { IfOk result (IsQueryOver target.now text.now) }
    ensures query_only { AnswersQuery target.now text.now result }

    // A refusal is the text's first fault, and its first fault is refused.
    ensures fault { IfErr result (IsQueryFaultOrMemory target.now text.now) }
    ensures fault_only { AnswersQueryFault target.now text.now result }
    ensures fit { IfOk result (λ q. HasFewAtoms q → FitsQuery (schema_widths target.now) q) }
{
    read(alloc, text, target)
}
