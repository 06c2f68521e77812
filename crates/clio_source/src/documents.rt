// A nested root: its file is a document.
ghost use Rattle.std.specs.Prelude.{◌≡◌, ◌+◌, ◌-◌, ◌≤◌, ◌<◌, ◌^◌, length, map, slice_set, take, IfOk, IfErr, OnOk, MatchOption};
ghost use Rattle.dx_base.specs.Members.{Each};
ghost use Rattle.dx_model.specs.Tables.{IsInstance};
ghost use Rattle.dx_schema.specs.Tables.{count, model_tables, schema_widths, schema_table, tables_of, tree_at};
ghost use Rattle.dx_instance.specs.Numbers.{Extends};
ghost use Rattle.dx_instance.specs.Cells.{with_numbers};
ghost use Rattle.dx_instance.specs.Shown.{NumberRowsFit, Shows, numbers_of_table};
ghost use Rattle.dx_used.specs.Used.{Marks};
ghost use Rattle.dx_json.specs.Documents.{HasDocumentFault, SaysFacts};
ghost use Rattle.clio_source.specs.Source.{IsRoot, ReadState, fact_cells, shape_at, loading, named_by, nested};
ghost use Rattle.clio_source.specs.Fitting.{AddsEmpty, AddsFacts, AddsRoot, CanAddRoot, CanTake, GivesTo, Holds, UnusedAreBlank, NotRead, ReadFits};

use crate::fault::{RowsFault, SourceRefusal};
use crate::reading::{Reading, too_many_cells};
use dx_base::Text;
use dx_base::limits::TABLES;
use dx_instance::{Fact, Gathered, Row, Rows, copy_value};
use dx_json::{Facts, JsonFault, shred};
use dx_schema::Schema;
use dx_stages::Stop;
use json::Scratch;
use std::alloc::{AllocError, Global};

// The facts that bytes say of a root.
fn facts_said(alloc: Global, bytes: &[u8], schema: &Schema, root: u32) -> Result<Facts, JsonFault>
    requires { root < length (tables_of schema.now) }
    ensures facts { IfOk result (λ facts. SaysFacts bytes.now schema.now root facts) }
    ensures fault { IfErr result (HasDocumentFault bytes.now schema.now root) }
{
    let mut scratch = Scratch::new(alloc);
    shred(alloc, bytes, &mut scratch, schema, root)
}

// The facts of a file's bytes.
fn facts_of_bytes(
    alloc: Global,
    bytes: &[u8],
    schema: &Schema,
    root: u32,
    file: Text,
) -> Result<Facts, Stop<SourceRefusal>>
    requires { root < length (tables_of schema.now) }
    ensures facts { IfOk result (λ facts. SaysFacts bytes.now schema.now root facts) }
    ensures fault { IfErr result (NotRead nested schema.now root bytes.now file) }
{
    match facts_said(alloc, bytes, schema, root) {
        Ok(facts) => Ok(facts),
        Err(JsonFault::Bad(kind)) => Err(Stop::Refused(SourceRefusal::Rows {
            file,
            fault: RowsFault::Json(kind),
        })),
        Err(JsonFault::Memory) => Err(Stop::Memory),
    }
}

// What is left of so many cells after these facts, unless they have more.
fn cells_after(left: u64, schema: &Schema, facts: &Facts) -> Option<u64>
    requires { IsInstance (model_tables schema.now) facts.now }
    ensures { MatchOption result (left < fact_cells schema.now facts.now)
        (λ rest. (rest ≡ left - fact_cells schema.now facts.now) × (fact_cells schema.now facts.now ≤ left)) }
{
    let mut rest = left;
    for place in 0..facts.len() {
        let table = facts.table(place);
        prove!(table < schema.tables());
        rest = rest.checked_sub(u64::from(schema.width(table)))?;
    }
    Some(rest)
}

// Tables without rows for a root and its inner sets, after those of the roots before it.
fn push_tables(
    alloc: Global,
    schema: &Schema,
    root: u32,
    end: u32,
    tables: &mut Vec<Rows>,
) -> Result<(), AllocError>
    requires first { root ≤ end }
    requires last { end ≤ length (tables_of schema.now) }
    requires widths { map (λ t. t.width) tables.old.items ≡ take root (schema_widths schema.now) }
    ensures { OnOk result (AddsEmpty schema.now end tables.old.items tables.new.items) }
{
    for table in root..end {
        tables.push(Rows::new(alloc, schema.width(table)))?;
    }
    Ok(())
}

// Numbers of a row's values, in place of what `numbers` has.
fn intern_row(row: &Row, symbols: &mut Gathered, numbers: &mut Vec<u32>) -> Result<(), AllocError>
    ensures shows { OnOk result (Shows symbols.new numbers.new.items row.now) }
    ensures grows { Extends symbols.old symbols.new }
{
    numbers.clear();
    for value in row.items() {
        let number = symbols.put(copy_value(value)?)?;
        numbers.push(number as u32)?;
    }
    Ok(())
}

// Puts the numbers of a fact's row, in place of what `numbers` has, into its table.
fn push_fact(
    fact: &Fact,
    symbols: &mut Gathered,
    numbers: &mut Vec<u32>,
    tables: &mut Vec<Rows>,
) -> Result<(), AllocError>
    requires table { fact.now.table < length tables.old.items }
    requires width { length fact.now.row ≡ (numbers_of_table tables.old.items fact.now.table).width }
    requires room { length (numbers_of_table tables.old.items fact.now.table).rows < 2 ^ 32 - 1 }
    ensures shows { OnOk result (Shows symbols.new numbers.new.items fact.now.row) }
    ensures put { OnOk result (tables.new.items ≡ slice_set tables.old.items fact.now.table
        (with_numbers (numbers_of_table tables.old.items fact.now.table) numbers.new.items)) }
    ensures grows { Extends symbols.old symbols.new }
{
    intern_row(&fact.row, symbols, numbers)?;
    tables[fact.table as usize].push(numbers)?;
    Ok(())
}

// The facts as rows of their tables, which have none yet.
fn push_facts(
    alloc: Global,
    root: u32,
    facts: &Facts,
    symbols: &mut Gathered,
    tables: &mut Vec<Rows>,
) -> Result<(), AllocError>
    requires fit { CanTake tables.old.items root facts.now }
    requires below { Each tables.old.items (NumberRowsFit (length symbols.old)) }
    requires few { length facts.now < 2 ^ 32 - 1 }
    ensures { OnOk result (AddsFacts symbols.old symbols.new tables.old.items tables.new.items facts.now) }
{
    let mut numbers = Vec::new(alloc);
    for place in 0..facts.len() {
        let fact = facts.fact(alloc, place)?;
        push_fact(&fact, symbols, &mut numbers, tables)?;
    }
    Ok(())
}

// The tables of a root and its inner sets, after those of the roots before it, and then its facts.
fn add_root(
    alloc: Global,
    schema: &Schema,
    root: u32,
    facts: &Facts,
    symbols: &mut Gathered,
    tables: &mut Vec<Rows>,
) -> Result<(), AllocError>
    requires { CanAddRoot schema.now root symbols.old tables.old.items facts.now }
    ensures { OnOk result (AddsRoot schema.now (root + 1 + count (tree_at schema.now root).inner)
        symbols.old symbols.new tables.old.items tables.new.items facts.now) }
{
    prove!(schema.tables() as u64 <= TABLES);
    let end = root + 1 + schema.tree(root).inner.count();
    push_tables(alloc, schema, root, end, tables)?;
    push_facts(alloc, root, facts, symbols, tables)?;
    Ok(())
}

/// Reads a nested root from the bytes of its document, after what was read before it.
pub(crate) fn load_document(
    alloc: Global,
    before: Reading,
    schema: &Schema,
    root: u32,
    bytes: &[u8],
    file: Text,
) -> Result<Reading, Stop<SourceRefusal>>
    requires root { IsRoot schema.now root }
    requires file { file ≡ named_by nested (schema_table schema.now root).name }
    requires fit { ReadFits schema.now root before }
    ensures fit { IfOk result (ReadFits schema.now (root + 1 + count (tree_at schema.now root).inner)) }
    ensures read { (used : Marks) (q : ReadState) → Holds used before q → GivesTo used (loading nested schema.now root)
        (q, bytes.now) result }
    ensures blank { (used : Marks) → nested ≡ shape_at schema.now root → UnusedAreBlank used schema.now before
        → IfOk result (UnusedAreBlank used schema.now) }
{
    let mut reading = before;
    let facts = facts_of_bytes(alloc, bytes, schema, root, file)?;
    let Some(cells_left) = cells_after(reading.cells_left, schema, &facts) else {
        return Err(Stop::Refused(too_many_cells()));
    };
    add_root(
        alloc,
        schema,
        root,
        &facts,
        &mut reading.symbols,
        &mut reading.tables,
    )?;
    reading.bytes_left = reading.bytes_left.saturating_sub(bytes.len() as u64);
    reading.cells_left = cells_left;
    Ok(reading)
}
