// The rows of the source files.
ghost use Rattle.dx_base.specs.Members.{Each};
ghost use Rattle.dx_stages.specs.Stages.{saying};
ghost use Rattle.dx_funcs.specs.Judging.{Decides, tested};
ghost use Rattle.dx_used.specs.Named.{ReadNamed};
ghost use Rattle.dx_used.specs.Used.{Marks, UsesOnly};
ghost use Rattle.clio_source.specs.Agreeing.{RanAgreeing};
ghost use Rattle.clio_source.specs.Kept.{AllTestsListed};
ghost use Rattle.clio_source.specs.Source.{source_left};
ghost use Rattle.clio_ending.specs.Ending.{source_refusal};
ghost use Rattle.clio_steps.specs.Steps.{wanted};

use clio_accept::Mapping;
use clio_ending::{Refusal, with_source_refusal};
use clio_source::read_source;
use dx_base::{Items, Text};
use dx_funcs::{Meaning, Tests};
use dx_instance::Instance;
use dx_ports::Inputs;
use dx_stages::Stop;
use dx_used::used_columns;
use std::alloc::{AllocError, Global};

// The rows of the source files that pass the mapping's conditions, of which the used columns count, and how many bytes are left.
fn read_rows<I: Inputs, P, M>(
    alloc: Global,
    inputs: &mut I,
    mapping: &Mapping,
    used: &[Items<bool>],
    tests: &Tests<P, M>,
) -> Result<(Instance, u64), Stop<Refusal>>
where
    P: Fn(u32, &Text) -> Result<bool, AllocError>,
    M: Meaning,
    requires decides { Decides P.Fn M.passes tests.now }
    requires listed { AllTestsListed (tested tests.now) mapping.now.conditions }
    requires named { ReadNamed used.now mapping.now.conditions }
    ensures { RanAgreeing used.now (saying source_refusal (source_left M.passes)) (wanted mapping.now) result
        (I.state inputs.old) (I.state inputs.new) }
{
    let conditions = mapping.conditions.items();
    with_source_refusal(read_source(alloc, inputs, &mapping.source, conditions, used, tests))
}

/// The rows of the source files of a mapping that pass its conditions, of which the columns that its rules use count; and how many
/// bytes are left for files that are read after these.
pub fn read_used_rows<I: Inputs, P, M>(
    alloc: Global,
    inputs: &mut I,
    mapping: &Mapping,
    tests: &Tests<P, M>,
) -> Result<(Instance, u64), Stop<Refusal>>
where
    P: Fn(u32, &Text) -> Result<bool, AllocError>,
    M: Meaning,
    requires decides { Decides P.Fn M.passes tests.now }
    requires listed { AllTestsListed (tested tests.now) mapping.now.conditions }
    ensures { (used : Marks) × Each mapping.now.rules (UsesOnly used)
        × RanAgreeing used (saying source_refusal (source_left M.passes)) (wanted mapping.now) result
        (I.state inputs.old) (I.state inputs.new) }
{
    let widths = mapping.source.widths(alloc)?;
    let conditions = mapping.conditions.items();
    let used = used_columns(alloc, mapping.rules.items(), conditions, &widths)?;
    read_rows(alloc, inputs, mapping, &used, tests)
}
