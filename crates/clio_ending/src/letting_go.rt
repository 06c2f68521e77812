// Letting an ending go, part by part.
//
// An ending may own an instance or two. To let one go is proved in each function that does so, and there for each part of it on each
// way out, at a cost that grows faster than their number. So endings are let go here alone, each of their parts by a function of its
// own.
use crate::ending::{Answers, Done, Ending};
use crate::faults::OtherFault;
use clio_accept::MapFault;
use clio_source::RowsFault;
use dx_compare::{Answer, Comparison};
use dx_exchange::{Clash, Exchange};
use dx_json::JsonKind;
use dx_judge::{Verdict, Why};
use dx_schema::SchemaKind;

fn let_exchange_go(_: Exchange) {}

fn let_answers_go(answers: Answers) {
    let Answers { exchange, rows: _ } = answers;
    let_exchange_go(exchange);
}

fn let_why_go(_: Why) {}

fn let_verdict_go(verdict: Verdict) {
    match verdict {
        Verdict::NotSolution(why) => let_why_go(why),
        Verdict::Solution { other: _other } => {}
        Verdict::Universal {
            map: _map,
            missed: _missed,
        } => {}
        Verdict::Core => {}
    }
}

fn let_answer_go(_: Answer) {}

fn let_comparison_go(comparison: Comparison) {
    let Comparison { forward, backward } = comparison;
    let_answer_go(forward);
    let_answer_go(backward);
}

fn let_done_go(done: Done) {
    match done {
        Done::Exchanged(exchange) => let_exchange_go(exchange),
        Done::Shown => {}
        Done::Demo(exchange) => let_exchange_go(exchange),
        Done::Answered(answers) => let_answers_go(answers),
        Done::Judged(verdict) => let_verdict_go(verdict),
        Done::Compared(comparison) => let_comparison_go(comparison),
    }
}

fn let_clash_go(_: Clash) {}

fn let_schema_fault_go(_: SchemaKind) {}

fn let_map_fault_go(fault: MapFault) {
    match fault {
        MapFault::Absent => {}
        MapFault::Text { .. } => {}
        MapFault::Source(kind) => let_schema_fault_go(kind),
        MapFault::Target(kind) => let_schema_fault_go(kind),
        MapFault::Reserved(_name) => {}
    }
}

fn let_document_fault_go(_: JsonKind) {}

fn let_rows_fault_go(fault: RowsFault) {
    match fault {
        RowsFault::Absent => {}
        RowsFault::Csv(_) => {}
        RowsFault::Json(kind) => let_document_fault_go(kind),
        RowsFault::Value(_) => {}
    }
}

fn let_other_fault_go(fault: OtherFault) {
    match fault {
        OtherFault::Absent => {}
        OtherFault::Mapping(fault) => let_map_fault_go(fault),
        OtherFault::Schemas => {}
        OtherFault::Conditions => {}
        OtherFault::Derived { .. } => {}
    }
}

/// Lets an ending go.
pub(crate) fn let_go(ending: Ending) {
    match ending {
        Ending::Done(done) => let_done_go(done),
        Ending::Usage => {}
        Ending::Clash {
            clash,
            table: _table,
            key: _key,
            column: _column,
        } => let_clash_go(clash),
        Ending::Mapping(fault) => let_map_fault_go(fault),
        Ending::Rows { file: _file, fault } => let_rows_fault_go(fault),
        Ending::Limit(_) => {}
        Ending::ReadFault { file: _file } => {}
        Ending::WriteFault { .. } => {}
        Ending::Memory => {}
        Ending::Query(_) => {}
        Ending::Other(fault) => let_other_fault_go(fault),
    }
}
