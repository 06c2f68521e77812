// What is said of the exchange of a demo.
ghost use Rattle.std.specs.Prelude.{◌≡◌, ◌++◌, codes, IfOk, OnOk, string_bytes};
ghost use Rattle.std.specs.Fmt.{decimal};
ghost use Rattle.dx_stages.specs.Ending.{planned, planned_of};
ghost use Rattle.dx_stages.specs.Running.{Gives};
ghost use Rattle.dx_schema.specs.Tables.{schema_widths, tables_of};
ghost use Rattle.dx_funcs.specs.Judging.{Decides, tested};
ghost use Rattle.dx_funcs.specs.Serving.{Serves, offered};
ghost use Rattle.dx_instance.specs.Stored.{widths};
ghost use Rattle.clio_steps.specs.Steps.{program};
ghost use Rattle.clio_top.specs.Demo.{IsDemoNumber, IsDemoPlan, counts_text, demo_stages, demo_text};

use crate::demo_inputs::DemoInputs;
use clio_accept::Mapping;
use clio_ending::{Done, Refusal};
use clio_files::nulls_of;
use clio_steps::exchange_files;
use dx_base::{Items, Text};
use dx_exchange::{Exchange, Mode};
use dx_funcs::{Host, Meaning, Tests};
use dx_gen::demo_files;
use dx_instance::Instance;
use dx_ports::ReadLog;
use dx_schema::Schema;
use dx_stages::{Plan, Stop};
use std::alloc::{AllocError, Global};

// The line of a table: its name and how many rows it has.
fn line(alloc: Global, name: &Text, count: u32) -> Result<String, AllocError>
    ensures { IfOk result (λ s. string_bytes s ≡ name.now ++ (codes " " ++ (decimal count ++ codes "\n"))) }
{
    format!(in alloc; "{name} {count}\n")
}

// Adds a line for each table.
fn push_counts(
    alloc: Global,
    schema: &Schema,
    target: &Instance,
    text: &mut String,
) -> Result<(), AllocError>
    requires { widths target.now ≡ schema_widths schema.now }
    ensures { OnOk result (string_bytes text.new ≡ string_bytes text.old ++ counts_text 0 (tables_of schema.now) target.now) }
{
    for table in 0..schema.tables() {
        text.push_str(&line(alloc, schema.name(table), target.count(table))?)?;
    }
    Ok(())
}

// The counts of an exchange: the number of the demo, the rules, the rows of each target table and the nulls.
fn demo_text(
    alloc: Global,
    number: u32,
    mapping: &Mapping,
    target: &Instance,
    nulls: u64,
) -> Result<String, AllocError>
    requires { widths target.now ≡ schema_widths mapping.now.target }
    ensures { IfOk result (λ s. string_bytes s ≡ demo_text number mapping.now target.now nulls) }
{
    let rules = mapping.rules.len();
    let mut text = format!(in alloc; "demo {number}\nrules {rules}\n")?;
    push_counts(alloc, &mapping.target, target, &mut text)?;
    text.push_str(&format!(in alloc; "nulls {nulls}\n")?)?;
    Ok(text)
}

// What is said of the exchange of a demo.
fn plan_demo(
    alloc: Global,
    number: u32,
    mapping: &Mapping,
    exchange: Exchange,
) -> Result<Plan<Done>, AllocError>
    requires { widths exchange.target ≡ schema_widths mapping.now.target }
    ensures { IfOk result (λ p. IsDemoPlan number mapping.now exchange (planned_of p)) }
{
    let nulls = nulls_of(alloc, &exchange.target)?;
    let text = demo_text(alloc, number, mapping, &exchange.target, nulls.len() as u64)?;
    Ok(Plan {
        done: Done::Demo(exchange),
        files: Vec::new(alloc),
        text: text.into_bytes(),
    })
}

/// What `demo` says.
pub(crate) fn demo_plan<F, P, M>(
    alloc: Global,
    number: u32,
    host: &Host<F, M>,
    tests: &Tests<P, M>,
    mode: Mode,
) -> Result<Plan<Done>, Stop<Refusal>>
where
    F: Fn(u32, &Items<Text>) -> Result<Text, AllocError>,
    P: Fn(u32, &Text) -> Result<bool, AllocError>,
    M: Meaning,
    requires serves { Serves F.Fn M.apply host.now }
    requires decides { Decides P.Fn M.passes tests.now }
    requires number { IsDemoNumber number }
    ensures { Gives (demo_stages (program (offered host.now) (tested tests.now) M.apply M.passes) number mode) (tt {0}) (planned result) }
{
    let mut inputs = DemoInputs {
        files: demo_files(alloc, number)?,
        log: ReadLog::new(),
    };
    let (mapping, exchange) = exchange_files(alloc, &mut inputs, host, tests, mode)?;
    Ok(plan_demo(alloc, number, &mapping, exchange)?)
}
