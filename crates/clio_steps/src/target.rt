// The target: the exchange of rows under a mapping.
ghost use Rattle.std.specs.Prelude.{◌≡◌};
ghost use Rattle.dx_stages.specs.Running.{Gives};
ghost use Rattle.dx_stages.specs.Stages.{by};
ghost use Rattle.dx_schema.specs.Tables.{model_tables, schema_widths};
ghost use Rattle.dx_funcs.specs.Serving.{Serves, offered};
ghost use Rattle.dx_instance.specs.Stored.{widths};
ghost use Rattle.dx_exchange.specs.Exchanging.{RulesFitSchemas};
ghost use Rattle.clio_steps.specs.Steps.{named_stage};

use clio_accept::Mapping;
use clio_ending::{Refusal, named_clash};
use dx_base::limits::TARGET_CELLS;
use dx_base::{Items, Text};
use dx_exchange::{ExFault, Exchange, Mode, Task, exchange};
use dx_funcs::{Host, Meaning};
use dx_instance::Instance;
use dx_stages::Stop;
use std::alloc::{AllocError, Global};

/// The exchange of rows under a mapping.
pub fn exchange_rows<F, M>(
    alloc: Global,
    mapping: &Mapping,
    rows: &Instance,
    host: &Host<F, M>,
    mode: Mode,
) -> Result<Exchange, Stop<Refusal>>
where
    F: Fn(u32, &Items<Text>) -> Result<Text, AllocError>,
    M: Meaning,
    requires serves { Serves F.Fn M.apply host.now }
    requires fits { RulesFitSchemas (offered host.now) mapping.now.rules (model_tables mapping.now.source)
        (model_tables mapping.now.target) }
    requires rows { widths rows.now ≡ schema_widths mapping.now.source }
    ensures { Gives (by (named_stage M.apply mode)) (mapping.now, rows.now) result }
{
    let rules = mapping.rules.items();
    let Mapping { source, target, .. } = mapping;
    let task = Task {
        rules,
        source,
        target,
        rows,
        host,
        limit: TARGET_CELLS,
    };
    match exchange(alloc, &task, mode) {
        Ok(exchange) => Ok(exchange),
        Err(ExFault::Clash(clash)) => Err(Stop::Refused(named_clash(alloc, clash, target)?)),
        Err(ExFault::Limit(limit)) => Err(Stop::Refused(Refusal::Limit(limit))),
        Err(ExFault::Memory) => Err(Stop::Memory),
    }
}
