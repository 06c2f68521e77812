// The facts of a document.
ghost use Rattle.std.specs.Prelude.{◌≡◌, ◌+◌, ◌<◌, ◌^◌, ◌++◌, List, length, suc, map, Some, None, IfOk, IfErr, OnOk, Err};
ghost use Rattle.std.specs.Fmt.{decimal};
ghost use Rattle.serde_json.specs.Data.{Data, Items};
ghost use Rattle.serde_json.specs.Read.{max_depth, read as read_text};
ghost use Rattle.dx_base.specs.declared.limits.TheConstants.{TABLES};
ghost use Rattle.dx_model.specs.declared.facts.Fact.{Fact};
ghost use Rattle.dx_model.specs.Tables.{IsInstance};
ghost use Rattle.dx_schema.specs.Tables.{count, model_tables, schema_table, tables_of};
ghost use Rattle.dx_json.specs.Reads.{items_read, value_read};
ghost use Rattle.dx_json.specs.View.{view, items_view, lent_view, members_view};
ghost use Rattle.dx_json.specs.Said.{AddsSaid, DocumentItem, path_below, item_said, items_said, member_said, object_said, says, sets_say};
ghost use Rattle.dx_json.specs.Documents.{TellsFirstFault, HasDocumentFault, Refuses, SaysFacts, FactsOrFirstFault, tree_says};

use crate::facts::{FactList, Facts};
use crate::fault::{JsonFault, JsonKind};
use crate::members::{check_members, copy_of, id_of, member_of, path_below, row_of};
use crate::place::Place;
use crate::reading::{MAX_DEPTH, Unread, read, read_from, text_of};
use crate::tree::Json;
use dx_base::{Text, no_number_left};
use dx_schema::{Schema, SetTree, Trees};
use json::{Reader, Scratch, Token};
use std::alloc::{AllocError, Global};

/// The facts that a document says of a root of a schema: objects in order, an object before those of its inner sets, and
/// these in the schema's order. Texts with an escape are put together in `scratch`, which serves one document after the
/// other.
///
/// # Errors
///
/// `Bad` with `NotJson` if the bytes are no JSON, and else with the first fault of the document: whether it is an array, then
/// for each of its items whether it is an object, its unknown members by name, its columns, and its inner sets, each walked
/// whole in the same way. `Memory` if there is no memory, which may come at any point.
pub fn shred(
    alloc: Global,
    bytes: &[u8],
    scratch: &mut Scratch,
    schema: &Schema,
    root: u32,
) -> Result<Facts, JsonFault>
    requires root { root < length (tables_of schema.now) }
    ensures facts { IfOk result (λ v. SaysFacts bytes.now schema.now root v) }
    ensures fit { IfOk result (λ v. (schema_table schema.now root).parent ≡ None → IsInstance (model_tables schema.now) v) }
    ensures fault { IfErr result (HasDocumentFault bytes.now schema.now root) }
{
    prove!(root < schema.tables());
    let text = text_of(bytes)?;
    let facts = facts_of(alloc, text, scratch, schema.tree(root), root)?;
    Ok(facts.shared(alloc)?)
}

// The facts that a text says of a set.
fn facts_of(
    alloc: Global,
    text: &str,
    scratch: &mut Scratch,
    tree: &SetTree,
    table: u32,
) -> Result<FactList, JsonFault>
    requires table { table < 2 ^ 31 }
    requires few { count tree.now.inner < TABLES }
    ensures ok { IfOk result (λ facts. (d : Data) × (read_text text.now ≡ Some d) × (tree_says tree.now table d ≡ map says facts)) }
    ensures fault { IfErr result (Refuses (read_text text.now) (tree_says tree.now table)) }
{
    let mut reader = Reader::new(text, scratch)?;
    let mut facts = FactList::new(alloc);
    let met = push_document(alloc, tree, table, &mut reader, &mut facts)?;
    if reader.next().is_some() {
        return Err(JsonFault::Bad(JsonKind::NotJson));
    }
    match met {
        None => Ok(facts),
        Some(kind) => Err(JsonFault::Bad(kind)),
    }
}

// A list of objects: the set that they are of, and where it stands.
#[derive(Drop)]
struct ObjectList<'a> {
    alloc: Global,
    tree: &'a SetTree,
    at: &'a Place,
    ghost few: { count tree.now.inner < TABLES },
    ghost room: { at.now.table + suc (count tree.now.inner) < 2 ^ 32 },
}

// Appends what a document says, up to the first fault, which it gives.
fn push_document(
    alloc: Global,
    tree: &SetTree,
    table: u32,
    reader: &mut Reader<'_>,
    out: &mut FactList,
) -> Result<Option<JsonKind>, Unread>
    requires table { table < 2 ^ 31 }
    requires few { count tree.now.inner < TABLES }
    ensures ok { IfOk result (λ met. (d : Data) × (value_read max_depth reader.old ≡ Some (d, reader.new))
        × FactsOrFirstFault met out.old out.new (tree_says tree.now table d)) }
    ensures refused { result ≡ Err Unread.NotJson → value_read max_depth reader.old ≡ None }
{
    let at = Place {
        table,
        up: None,
        path: Text::from_str(alloc, "")?,
    };
    let token = reader.next().ok_or(Unread::NotJson)?;
    if let Token::BeginArray = token {
        let list = ObjectList {
            alloc,
            tree,
            at: &at,
        };
        return push_array(&list, reader, out);
    }
    read_from(alloc, token, reader, MAX_DEPTH)?;
    Ok(Some(JsonKind::Shape(at.path)))
}

// The place after this one.
fn next_place(place: usize) -> Result<usize, AllocError>
    ensures { IfOk result (λ next. next ≡ place + 1) }
{
    match place.checked_add(1) {
        Some(next) => Ok(next),
        None => Err(no_number_left(place as u64)),
    }
}

// Appends what the items of an array say as they are read, up to the first fault, which it gives. The items after that are
// read nevertheless.
fn push_array(
    list: &ObjectList<'_>,
    reader: &mut Reader<'_>,
    out: &mut FactList,
) -> Result<Option<JsonKind>, Unread>
    ensures ok { IfOk result (λ met. (ds : Items) × (items_read 126 reader.old ≡ Some (ds, reader.new))
        × FactsOrFirstFault met out.old out.new (items_said list.now.tree.now list.now.at.now 0 ds)) }
    ensures refused { result ≡ Err Unread.NotJson → items_read 126 reader.old ≡ None }
{
    let mut met = None;
    let mut place = 0usize;
    'items: while !reader.take_end_array() {
        let item = read(list.alloc, reader, MAX_DEPTH - 1)?;
        met = push_next(list, place, &item, met, out)?;
        place = next_place(place)?;
    }
    Ok(met)
}

// Appends what the k-th item of an array says, unless a fault was met before. Gives the first fault that was met.
fn push_next(
    list: &ObjectList<'_>,
    k: usize,
    item: &Json<'_>,
    met: Option<JsonKind>,
    out: &mut FactList,
) -> Result<Option<JsonKind>, AllocError>
    ensures { IfOk result (λ now. (old : List Fact) (before : List DocumentItem) → FactsOrFirstFault met old out.old before
        → FactsOrFirstFault now old out.new (before ++ item_said list.now.tree.now list.now.at.now k (view item.now))) }
{
    if met.is_some() {
        return Ok(met);
    }
    match push_item(list, k, item, out) {
        Ok(()) => Ok(None),
        Err(JsonFault::Bad(kind)) => Ok(Some(kind)),
        Err(JsonFault::Memory) => Err(AllocError),
    }
}

// Appends what the items of an array say.
#[cycle(walk)]
fn push_items(
    list: &ObjectList<'_>,
    items: &[Json<'_>],
    out: &mut FactList,
) -> Result<(), JsonFault>
    ensures ok { OnOk result (AddsSaid out.old out.new (items_said list.now.tree.now list.now.at.now 0 (items_view items.now))) }
    ensures fault { IfErr result (TellsFirstFault (items_said list.now.tree.now list.now.at.now 0 (items_view items.now))) }
{
    for (k, item) in items.iter().enumerate() {
        push_item(list, k, item, out)?;
    }
    Ok(())
}

// Appends what the k-th item of an array says: it is to be an object.
#[cycle(walk)]
fn push_item(
    list: &ObjectList<'_>,
    k: usize,
    item: &Json<'_>,
    out: &mut FactList,
) -> Result<(), JsonFault>
    ensures ok { OnOk result (AddsSaid out.old out.new (item_said list.now.tree.now list.now.at.now k (view item.now))) }
    ensures fault { IfErr result (TellsFirstFault (item_said list.now.tree.now list.now.at.now k (view item.now))) }
{
    let position = k.to_string(list.alloc)?;
    let path = path_below(list.alloc, &list.at.path, position.as_str())?;
    let Some(members) = item.as_object() else {
        return Err(JsonFault::Bad(JsonKind::Shape(path)));
    };
    push_object(list, k, path, members, out)
}

// Appends what the k-th object of a list says.
#[cycle(walk)]
fn push_object<'a>(
    list: &ObjectList<'_>,
    k: usize,
    path: Text,
    members: &[(&'a str, Json<'a>)],
    out: &mut FactList,
) -> Result<(), JsonFault>
    requires path { path ≡ path_below list.now.at.now.path (decimal k) }
    ensures ok { OnOk result (AddsSaid out.old out.new (object_said list.now.tree.now list.now.at.now k (members_view members.now))) }
    ensures fault { IfErr result (TellsFirstFault (object_said list.now.tree.now list.now.at.now k (members_view members.now))) }
{
    let tree = list.tree;
    check_members(list.alloc, tree, &path, members)?;
    let id = id_of(list.alloc, &list.at.up, k)?;
    let row = row_of(list.alloc, tree, &list.at.up, &id, &path, members)?;
    out.push(list.at.table, &row)?;
    let deeper = Place {
        table: list.at.table + 1,
        up: Some(id),
        path,
    };
    push_sets(list.alloc, &tree.inner, &deeper, members, out)
}

// Appends what the member of an inner set says: an array, `null` or absent.
#[cycle(walk)]
fn push_member(
    list: &ObjectList<'_>,
    member: Option<&Json<'_>>,
    out: &mut FactList,
) -> Result<(), JsonFault>
    ensures ok { OnOk result (AddsSaid out.old out.new (member_said list.now.tree.now list.now.at.now (lent_view member.entry))) }
    ensures fault { IfErr result (TellsFirstFault (member_said list.now.tree.now list.now.at.now (lent_view member.entry))) }
{
    match member {
        None | Some(Json::Null) => Ok(()),
        Some(Json::Array(items)) => push_items(list, items, out),
        Some(_) => Err(JsonFault::Bad(JsonKind::Shape(list.at.path.copy()?))),
    }
}

// Appends what the inner sets of an object say.
#[cycle(walk)]
fn push_sets<'a>(
    alloc: Global,
    sets: &Trees,
    at: &Place,
    members: &[(&'a str, Json<'a>)],
    out: &mut FactList,
) -> Result<(), JsonFault>
    requires room { at.now.table + count sets.now < 2 ^ 32 }
    requires few { count sets.now < TABLES }
    ensures ok { OnOk result (AddsSaid out.old out.new (sets_say sets.now at.now (members_view members.now))) }
    ensures fault { IfErr result (TellsFirstFault (sets_say sets.now at.now (members_view members.now))) }
{
    let mut table = at.table;
    for inner in sets.items() {
        let place = Place {
            table,
            up: copy_of(&at.up)?,
            path: path_below(alloc, &at.path, inner.name.as_str())?,
        };
        let list = ObjectList {
            alloc,
            tree: inner,
            at: &place,
        };
        let member = member_of(members, inner.name.as_str());
        push_member(&list, member, out)?;
        table += 1 + inner.inner.count();
    }
    Ok(())
}
