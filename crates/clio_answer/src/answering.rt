// A query, answered on the target of an exchange in plain mode.
ghost use Rattle.std.specs.Prelude.{◌≡◌, ◌↔◌, ◌≤◌, IfOk, IsTrue, length};
ghost use Rattle.dx_base.specs.Members.{Each};
ghost use Rattle.dx_stages.specs.Ending.{planned, planned_of};
ghost use Rattle.dx_stages.specs.Running.{Gives, Ran};
ghost use Rattle.dx_funcs.specs.Judging.{Decides, tested};
ghost use Rattle.dx_funcs.specs.Serving.{Serves, offered};
ghost use Rattle.dx_instance.specs.Stored.{widths};
ghost use Rattle.dx_queries.specs.Results.{FitsQuery};
ghost use Rattle.clio_accept.specs.declared.mapping.Mapping.{Mapping as MappingOf};
ghost use Rattle.clio_steps.specs.Steps.{program};
ghost use Rattle.clio_answer.specs.Answering.{answer_stages, answered_plan, answers, listed_answers, query_over, query_bytes, text_query};

use clio_accept::Mapping;
use clio_ending::{Answers, Done, QueryFault, Refusal};
use clio_files::{answers_file, into_files, summary};
use clio_steps::{Side, exchange_rows, read_mapping, read_used_rows};
use dx_base::limits::{ANSWER_CELLS, QUERY_ATOMS, QUERY_BYTES};
use dx_base::{Count, Items, Limit, Text};
use dx_certain::{CertainFault, certain};
use dx_exchange::{Exchange, Mode};
use dx_funcs::{Host, Meaning, Tests};
use dx_ports::Inputs;
use dx_queries::{Part, Query};
use dx_query_text::read_query;
use dx_schema::Schema;
use dx_stages::{Plan, Stop, fetch};
use dx_tokens::TextFault;
use std::alloc::{AllocError, Global};

// Whether no part of a query has more atoms than are accepted.
fn have_few_atoms(parts: &[Part]) -> bool
    ensures { IsTrue result ↔ Each parts.now (λ p. length p.atoms ≤ QUERY_ATOMS) }
{
    parts.iter().all(|part| part.atoms.len() <= QUERY_ATOMS)
}

// The query over a target that the text's bytes say.
fn accept_query(alloc: Global, text: &[u8], target: &Schema) -> Result<Query, Stop<Refusal>>
    requires { length text.now ≤ query_bytes }
    ensures { Gives (text_query target.now) text.now result }
{
    let query = match read_query(alloc, text, target) {
        Ok(query) => query,
        Err(TextFault::At { place, kind }) => {
            return Err(Stop::Refused(Refusal::Query(QueryFault::Text { place, kind })));
        }
        Err(TextFault::TooDeep { place: _ }) => unreachable!(),
        Err(TextFault::Memory) => return Err(Stop::Memory),
    };
    if !have_few_atoms(query.parts.items()) {
        return Err(Stop::Refused(Refusal::Limit(Limit {
            what: Count::QueryAtoms,
            number: QUERY_ATOMS,
        })));
    }
    Ok(query)
}

// The query over the target of the mapping.
fn read_posed<I: Inputs>(
    alloc: Global,
    inputs: &mut I,
    mapping: &Mapping,
) -> Result<Query, Stop<Refusal>>
    ensures { Ran (query_over mapping.now) mapping.now result
        (I.state inputs.old) (I.state inputs.new) }
{
    let name = Text::from_str(alloc, "query.clio")?;
    let absent = Refusal::Query(QueryFault::Absent);
    let long = Refusal::Limit(Limit {
        what: Count::QueryBytes,
        number: QUERY_BYTES,
    });
    let text = fetch(alloc, inputs, name, QUERY_BYTES, absent, long)?;
    accept_query(alloc, text.items(), &mapping.target)
}

// The answers of a query on the target of an exchange.
fn list_answers(alloc: Global, query: &Query, exchange: Exchange) -> Result<Answers, Stop<Refusal>>
    requires { FitsQuery (widths exchange.target) query.now }
    ensures { Gives listed_answers (query.now, exchange) result }
{
    match certain(alloc, query, &exchange.target, ANSWER_CELLS) {
        Ok(rows) => Ok(Answers { exchange, rows }),
        Err(CertainFault::Limit(limit)) => Err(Stop::Refused(Refusal::Limit(limit))),
        Err(CertainFault::Memory) => Err(Stop::Memory),
    }
}

// A mapping, a query, and its answers on the target of the files.
fn answer_files<I: Inputs, F, P, M>(
    alloc: Global,
    inputs: &mut I,
    host: &Host<F, M>,
    tests: &Tests<P, M>,
) -> Result<((Mapping, Query), Answers), Stop<Refusal>>
where
    F: Fn(u32, &Items<Text>) -> Result<Text, AllocError>,
    P: Fn(u32, &Text) -> Result<bool, AllocError>,
    M: Meaning,
    requires serves { Serves F.Fn M.apply host.now }
    requires decides { Decides P.Fn M.passes tests.now }
    ensures { Ran (answers (program (offered host.now) (tested tests.now) M.apply M.passes)) (tt {0}) result
        (I.state inputs.old) (I.state inputs.new) }
{
    let mapping = read_mapping(alloc, inputs, Side::First, host, tests)?;
    let query = read_posed(alloc, inputs, &mapping)?;
    let (rows, _) = read_used_rows(alloc, inputs, &mapping, tests)?;
    let exchange = exchange_rows(alloc, &mapping, &rows, host, Mode::Plain)?;
    let answers = list_answers(alloc, &query, exchange)?;
    Ok(((mapping, query), answers))
}

// What is written of the answers of a query.
fn plan_answers(alloc: Global, query: &Query, answers: Answers) -> Result<Plan<Done>, AllocError>
    ensures { IfOk result (λ p. (M : MappingOf) → planned_of p ≡ answered_plan ((M, query.now), answers)) }
{
    let printed = vec![in alloc; answers_file(alloc, query.width, &answers.rows)?]?;
    let text = summary(alloc, &printed)?;
    let files = into_files(alloc, printed)?;
    Ok(Plan {
        done: Done::Answered(answers),
        files,
        text,
    })
}

/// What `answer` writes.
pub fn answer_plan<I: Inputs, F, P, M>(
    alloc: Global,
    inputs: &mut I,
    host: &Host<F, M>,
    tests: &Tests<P, M>,
) -> Result<Plan<Done>, Stop<Refusal>>
where
    F: Fn(u32, &Items<Text>) -> Result<Text, AllocError>,
    P: Fn(u32, &Text) -> Result<bool, AllocError>,
    M: Meaning,
    requires serves { Serves F.Fn M.apply host.now }
    requires decides { Decides P.Fn M.passes tests.now }
    ensures { Ran (answer_stages (program (offered host.now) (tested tests.now) M.apply M.passes)) (tt {0}) (planned result)
        (I.state inputs.old) (I.state inputs.new) }
{
    let (posed, answers) = answer_files(alloc, inputs, host, tests)?;
    let (_, query) = posed;
    Ok(plan_answers(alloc, &query, answers)?)
}
