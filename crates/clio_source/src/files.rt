// The files of a schema's roots.
ghost use Rattle.std.specs.Prelude.{◌≡◌, ◌+◌, ◌<◌, ◌≤◌, length, IfOk};
ghost use Rattle.dx_schema.specs.Tables.{count, tables_of, tree_at};
ghost use Rattle.dx_funcs.specs.Judging.{Decides, tested};
ghost use Rattle.dx_instance.specs.Stored.{facts};
ghost use Rattle.dx_used.specs.Named.{ReadNamed};
ghost use Rattle.clio_source.specs.Agreeing.{AllBlanked, RanAgreeing};
ghost use Rattle.clio_source.specs.Kept.{AllTestsListed};
ghost use Rattle.clio_source.specs.Source.{IsRoot, ReadState, at_start, file_at, files_stages, reading, source_left};
ghost use Rattle.clio_source.specs.Fitting.{Holds, UnusedAreBlank, RanTo, ReadFits};

use crate::documents::load_document;
use crate::fault::{RowsFault, SourceRefusal};
use crate::names::{file_name, json_file_name};
use crate::passing::passing_rows;
use crate::reading::{Reading, at_start, too_many_bytes};
use crate::tables::load_table;
use dx_base::limits::TABLES;
use dx_base::{Items, Text};
use dx_funcs::{Meaning, Tests};
use dx_instance::Instance;
use dx_lines::Condition;
use dx_ports::Inputs;
use dx_schema::Schema;
use dx_stages::{Stop, fetch};
use std::alloc::{AllocError, Global};

// The name of a root's file.
fn root_file_name(alloc: Global, schema: &Schema, root: u32) -> Result<Text, AllocError>
    requires { root < length (tables_of schema.now) }
    ensures { IfOk result (λ name. name ≡ file_at schema.now root) }
{
    if schema.tree(root).inner.is_empty() {
        file_name(alloc, "", schema.name(root))
    } else {
        json_file_name(alloc, schema.name(root))
    }
}

// Reads a root's file, after what was read before it.
#[tactic(auto, using(dx_stages::proofs::Running::ran_out))]
fn read_root<I: Inputs>(
    alloc: Global,
    inputs: &mut I,
    schema: &Schema,
    root: u32,
    used: &[Items<bool>],
    before: Reading,
) -> Result<Reading, Stop<SourceRefusal>>
    requires root { IsRoot schema.now root }
    requires fit { ReadFits schema.now root before }
    ensures fit { IfOk result (ReadFits schema.now (root + 1 + count (tree_at schema.now root).inner)) }
    ensures blank { UnusedAreBlank used.now schema.now before → IfOk result (UnusedAreBlank used.now schema.now) }
    ensures read { (q : ReadState) → Holds used.now before q → RanTo used.now (reading schema.now root) q result
        (I.state inputs.old) (I.state inputs.new) }
{
    let name = root_file_name(alloc, schema, root)?;
    let absent = SourceRefusal::Rows {
        file: name.copy()?,
        fault: RowsFault::Absent,
    };
    let bytes = fetch(
        alloc,
        inputs,
        name.copy()?,
        before.bytes_left,
        absent,
        too_many_bytes(),
    )?;
    if schema.tree(root).inner.is_empty() {
        load_table(alloc, before, schema, root, used, bytes.items(), name)
    } else {
        load_document(alloc, before, schema, root, bytes.items(), name)
    }
}

// Reads the files of all roots.
fn read_files<I: Inputs>(
    alloc: Global,
    inputs: &mut I,
    schema: &Schema,
    used: &[Items<bool>],
) -> Result<Reading, Stop<SourceRefusal>>
    ensures fit { IfOk result (ReadFits schema.now (length (tables_of schema.now))) }
    ensures blank { IfOk result (UnusedAreBlank used.now schema.now) }
    ensures few { length (tables_of schema.now) ≤ TABLES }
    ensures read { RanTo used.now (files_stages schema.now) at_start result
        (I.state inputs.old) (I.state inputs.new) }
{
    prove!(schema.tables() as u64 <= TABLES);
    let mut so_far = at_start(alloc);
    let mut root = 0;
    for tree in schema.trees() {
        so_far = read_root(alloc, inputs, schema, root, used, so_far)?;
        root += 1 + tree.inner.count();
    }
    Ok(so_far)
}

/// The source that the files of a schema's roots hold: of a root without inner sets a table, of another a document. Of all their
/// rows those stay that pass each condition on their table, as the row tests decide. Beside it is how many bytes are left: so
/// many may files have that are read after these.
///
/// The marks say for each table which of its columns are used; a column without a mark is, and so is each that a condition
/// names. Of a table's other columns nothing is kept: their constants are the empty one. Documents are read whole. So there is
/// one source that the files hold, and the instance agrees with it on the used columns.
///
/// # Errors
///
/// For each root in order: its file is absent, passes what is left of 67,108,864 bytes, is no table of its columns or no
/// document of its sets, or its facts pass what is left of 4,000,000 cells, whether or not they pass the conditions. A read that
/// failed, and out of memory, may come at any file.
pub fn read_source<I: Inputs, P, M>(
    alloc: Global,
    inputs: &mut I,
    schema: &Schema,
    conditions: &[Condition],
    used: &[Items<bool>],
    tests: &Tests<P, M>,
) -> Result<(Instance, u64), Stop<SourceRefusal>>
where
    P: Fn(u32, &Text) -> Result<bool, AllocError>,
    M: Meaning,
    requires decides { Decides P.Fn M.passes tests.now }
    requires listed { AllTestsListed (tested tests.now) conditions.now }
    requires named { ReadNamed used.now conditions.now }
    ensures read { RanAgreeing used.now (source_left M.passes) (record { schema = schema.now; conditions = conditions.now }) result
        (I.state inputs.old) (I.state inputs.new) }
    ensures blank { IfOk result (λ q. AllBlanked used.now schema.now (facts q.0)) }
{
    let reading = read_files(alloc, inputs, schema, used)?;
    let rows = Instance::from_gathered(alloc, reading.symbols, reading.tables)?;
    let passed = passing_rows(alloc, rows, conditions, tests)?;
    Ok((passed, reading.bytes_left))
}
