// Rows as a document.
ghost use Rattle.std.specs.Prelude.{◌≡◌, ◌+◌, ◌<◌, ◌^◌, ◌++◌, [], ◌∷◌, length, string_bytes, IfOk, OnOk};
ghost use Rattle.json.specs.Print.{print};
ghost use Rattle.serde_json.specs.Data.{array, object, string};
ghost use Rattle.dx_base.specs.declared.limits.TheConstants.{TABLES};
ghost use Rattle.dx_schema.specs.Tables.{count, schema_widths, tables_of, tree_at};
ghost use Rattle.dx_instance.specs.Places.{IsFirstWith, row_at};
ghost use Rattle.dx_instance.specs.Stored.{rows_of, table_at, widths};
ghost use Rattle.dx_instance.specs.ValueText.{starts_with_question_mark, value_text_of};
ghost use Rattle.dx_json.specs.Nesting.{IsNestedText, nested_text, objects_below, root_objects, up_column};
ghost use Rattle.dx_json.specs.Orders.{Fit, HasColumns, HasRoot, TreeIsReady, IsReadyRoot, SourceFits, all_slots, object_in, slots_of, source_data};
ghost use Rattle.dx_json.specs.Standing.{Stand};
ghost use Rattle.dx_json.specs.Wrote.{WroteValue};

use crate::orders::{Order, Source, root_orders};
use dx_base::Text;
use dx_instance::{Instance, Value, value_text};
use dx_schema::{Schema, SetTree, Trees};
use json::Writer;
use std::alloc::{AllocError, Global};
use std::slice;

/// The text of the rows of a root, ascending: an array of an object for each, with its columns and, for each inner set, an
/// array of the objects of the rows below it; then a line feed.
///
/// # Errors
///
/// `AllocError` if there is no memory.
pub fn nest(
    alloc: Global,
    instance: &Instance,
    schema: &Schema,
    root: u32,
) -> Result<Text, AllocError>
    requires root { root < length (tables_of schema.now) }
    requires widths { widths instance.now ≡ schema_widths schema.now }
    ensures { IfOk result (IsNestedText instance.now schema.now root) }
{
    let mut sorted = instance.sorted()?;
    nest_sorted(alloc, &mut sorted, schema, root)
}

/// The same of an instance whose rows are printed as they stand. It makes an index of each column `#up` below the root, by
/// which the rows below a row are found; nothing else changes.
///
/// # Errors
///
/// `AllocError` if there is no memory.
pub fn nest_sorted(
    alloc: Global,
    instance: &mut Instance,
    schema: &Schema,
    root: u32,
) -> Result<Text, AllocError>
    requires root { root < length (tables_of schema.now) }
    requires widths { widths instance.old ≡ schema_widths schema.now }
    ensures text { IfOk result (λ t. t ≡ nested_text instance.old (tree_at schema.now root) root) }
    ensures same { instance.new ≡ instance.old }
{
    prove!(root < schema.tables());
    prove!(root < instance.tables());
    let tree = schema.tree(root);
    index_sets(instance, &tree.inner, root + 1)?;
    Text::from_string(alloc, text_of_root(alloc, instance, tree, root)?)
}

// The column `#up` of an inner set's table.
fn column_up(tree: &SetTree) -> u32
    ensures { result ≡ up_column tree.now.inner }
{
    if tree.inner.is_empty() { 0 } else { 1 }
}

// An index of each column `#up` of sets, of which the first has this table.
fn index_sets(instance: &mut Instance, sets: &Trees, first: u32) -> Result<(), AllocError>
    requires stand { Stand instance.old first sets.now }
    requires few { count sets.now < TABLES }
    requires room { first + count sets.now < 2 ^ 32 }
    ensures { instance.new ≡ instance.old }
{
    let mut table = first;
    for tree in sets.items() {
        instance.index(table, column_up(tree))?;
        index_sets(instance, &tree.inner, table + 1)?;
        table += 1 + tree.inner.count();
    }
    Ok(())
}

// Whether the text of a constant begins with `?`.
fn starts_with_mark(text: &Text) -> bool
    ensures { result ≡ starts_with_question_mark text.now }
{
    match text.bytes() {
        [b'?', ..] => true,
        _ => false,
    }
}

// Writes the text of a value.
fn write_value(alloc: Global, value: &Value, out: &mut Writer) -> Result<(), AllocError>
    ensures { OnOk result (WroteValue out.old out.new (string (value_text_of value.now))) }
{
    match value {
        Value::Const(text) if !starts_with_mark(text) => out.string(text.as_str()),
        _ => {
            let text = value_text(alloc, value)?;
            out.string(text.as_str())
        }
    }
}

// The least place from `from` on whose row has this value in the column. In rows that ascend it is most often the first.
fn next_with(instance: &Instance, table: u32, column: u32, value: &Value, from: u32) -> Option<u32>
    requires table { table < length instance.now }
    requires column { column < (table_at instance.now table).width }
    ensures { IsFirstWith instance.now table (column ∷ []) (value.now ∷ []) from result }
{
    if from < instance.count(table) && instance.cell(table, from, column).is(value) {
        return Some(from);
    }
    let columns = [column];
    instance.with_columns(table, &columns, slice::from_ref(value), from)
}

// A row, by its table and its place.
#[derive(Clone, Copy)]
struct RowAt {
    table: u32,
    place: u32,
}

// The rows that become documents, and for each of their tables the members of its objects in order.
#[derive(Drop)]
struct Nesting<'a> {
    alloc: Global,
    instance: &'a Instance,
    orders: &'a [Order],
}

impl<'a> Nesting<'a> {
    // Writes the objects of the rows of an inner set's table that are below this `#id`.
    #[cycle(nest)]
    fn write_objects(
        &self,
        tree: &SetTree,
        table: u32,
        id: &Value,
        out: &mut Writer,
    ) -> Result<(), AllocError>
        requires ready { TreeIsReady self.now.instance.now (all_slots self.now.orders.now) table tree.now }
        ensures { OnOk result (WroteValue out.old out.new (array (objects_below self.now.instance.now tree.now table id.now))) }
    {
        prove!(table < self.instance.tables());
        let order = &self.orders[table as usize];
        let column = column_up(tree);
        out.begin_array()?;
        let mut next = 0;
        while let Some(place) = next_with(self.instance, table, column, id, next) {
            self.write_object(&tree.inner, order, RowAt { table, place }, out)?;
            next = place + 1;
        }
        out.end_array()
    }

    // Writes the object of a row.
    #[cycle(nest)]
    fn write_object(
        &self,
        sets: &Trees,
        order: &Order,
        row: RowAt,
        out: &mut Writer,
    ) -> Result<(), AllocError>
        requires table { row.table < length self.now.instance.now }
        requires place { row.place < length (rows_of self.now.instance.now row.table) }
        requires fit { Fit self.now.instance.now (all_slots self.now.orders.now) (table_at self.now.instance.now row.table).width
            sets.now (slots_of order.now.entries) }
        ensures { OnOk result (WroteValue out.old out.new
            (object (object_in self.now.instance.now sets.now (row_at self.now.instance.now row.table row.place) order.now))) }
    {
        out.begin_object()?;
        for (name, source) in order.iter() {
            out.key(name.as_str())?;
            self.write_source(sets, source, row, out)?;
        }
        out.end_object()
    }

    // Writes the value of a member of the object of a row.
    #[cycle(nest)]
    fn write_source(
        &self,
        sets: &Trees,
        source: &Source,
        row: RowAt,
        out: &mut Writer,
    ) -> Result<(), AllocError>
        requires table { row.table < length self.now.instance.now }
        requires place { row.place < length (rows_of self.now.instance.now row.table) }
        requires fits { SourceFits self.now.instance.now (all_slots self.now.orders.now)
            (table_at self.now.instance.now row.table).width sets.now source.now }
        ensures { OnOk result (WroteValue out.old out.new
            (source_data self.now.instance.now sets.now (row_at self.now.instance.now row.table row.place) source.now)) }
    {
        match *source {
            Source::Cell(column) => {
                write_value(
                    self.alloc,
                    self.instance.cell(row.table, row.place, column),
                    out,
                )
            }
            Source::Inner(at, below) => {
                prove!(row.table < self.instance.tables());
                let inner = &sets.items()[at];
                let id = self.instance.cell(row.table, row.place, 0);
                self.write_objects(inner, below, id, out)
            }
        }
    }

    // Writes the objects of a root's rows.
    fn write_root(&self, tree: &SetTree, root: u32, out: &mut Writer) -> Result<(), AllocError>
        requires table { root < length self.now.instance.now }
        requires columns { HasColumns self.now.instance.now root tree.now }
        requires ready { IsReadyRoot self.now.instance.now (all_slots self.now.orders.now) root tree.now }
        ensures { OnOk result (WroteValue out.old out.new (array (root_objects self.now.instance.now tree.now root))) }
    {
        prove!(root < self.instance.tables());
        let order = &self.orders[root as usize];
        out.begin_array()?;
        for place in 0..self.instance.count(root) {
            self.write_object(&tree.inner, order, RowAt { table: root, place }, out)?;
        }
        out.end_array()
    }
}

// The text that a writer has written. It is UTF-8.
fn written(out: Writer) -> String
    requires { out.before ≡ [] }
    ensures { string_bytes result ≡ out.before ++ print out.tokens }
{
    match String::from_utf8(out.into_inner()) {
        Ok(text) => text,
        Err(_) => unreachable!(),
    }
}

// The text of the objects of a root's rows.
fn text_of_root(
    alloc: Global,
    instance: &Instance,
    tree: &SetTree,
    root: u32,
) -> Result<String, AllocError>
    requires { HasRoot instance.now root tree.now }
    ensures { IfOk result (λ text. string_bytes text ≡ nested_text instance.now tree.now root) }
{
    let orders = root_orders(alloc, instance, tree, root)?;
    let nesting = Nesting {
        alloc,
        instance,
        orders: &orders,
    };
    let mut out = Writer::new(Vec::new(alloc));
    nesting.write_root(tree, root, &mut out)?;
    let mut text = written(out);
    text.push_str("\n")?;
    Ok(text)
}
