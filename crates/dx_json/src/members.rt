// The members of one object.
ghost use Rattle.std.specs.Prelude.{◌≡◌, [], IfOk, IfErr, OnOk};
ghost use Rattle.serde_json.specs.Find.{get_member};
ghost use Rattle.dx_json.specs.View.{lent_view, view, members_view};
ghost use Rattle.dx_json.specs.Documents.{TellsFirstFault};
ghost use Rattle.dx_json.specs.Said.{ReadsConstant, IsObjectRow, path_below, column_faults, column_reading, data_reading, id_of as id_at, is_known, reading_faults, unknown_members};

use crate::fault::{JsonFault, JsonKind};
use crate::tree::Json;
use dx_base::Text;
use dx_schema::SetTree;
use std::alloc::{AllocError, Global};

/// The member of this name.
pub fn member_of<'v, 'a>(members: &'v [(&'a str, Json<'a>)], name: &str) -> Option<&'v Json<'a>>
    ensures { lent_view result ≡ get_member name.now (members_view members.now) }
{
    match members.iter().find(|member| member.0 == name) {
        Some(member) => Some(&member.1),
        None => None,
    }
}

/// The path of a member or an item.
pub fn path_below(alloc: Global, path: &Text, step: &str) -> Result<Text, AllocError>
    ensures { IfOk result (λ t. t ≡ path_below path.now step.now) }
{
    Text::from_string(alloc, format!(in alloc; "{}/{step}", path.as_str())?)
}

/// The `#id` of the object at a position.
pub fn id_of(alloc: Global, up: &Option<Text>, position: usize) -> Result<Text, AllocError>
    ensures { IfOk result (λ t. t ≡ id_at up.now position) }
{
    match up {
        None => Text::from_string(alloc, format!(in alloc; "#{position}")?),
        Some(up) => Text::from_string(alloc, format!(in alloc; "{}.{position}", up.as_str())?),
    }
}

// Whether a member is a column or an inner set.
fn knows(tree: &SetTree, name: &str) -> bool
    ensures { result ≡ is_known tree.now.label tree.now.inner name.now }
{
    tree.columns
        .items()
        .iter()
        .any(|column| column.as_str() == name)
        || tree
            .inner
            .items()
            .iter()
            .any(|inner| inner.name.as_str() == name)
}

/// Refuses the first member that is neither a column nor an inner set.
pub fn check_members<'a>(
    alloc: Global,
    tree: &SetTree,
    path: &Text,
    members: &[(&'a str, Json<'a>)],
) -> Result<(), JsonFault>
    ensures ok { OnOk result (unknown_members path.now tree.now.label tree.now.inner (members_view members.now) ≡ []) }
    ensures fault { IfErr result (TellsFirstFault (unknown_members path.now tree.now.label tree.now.inner (members_view members.now))) }
{
    for member in members {
        if !knows(tree, member.0) {
            let at = path_below(alloc, path, member.0)?;
            return Err(JsonFault::Bad(JsonKind::Unknown(at)));
        }
    }
    Ok(())
}

// The constant that a column's member says.
fn constant_in(
    alloc: Global,
    path: &Text,
    column: &Text,
    value: &Json<'_>,
) -> Result<Text, JsonFault>
    ensures ok { IfOk result (ReadsConstant (path_below path.now column.now) (data_reading (view value.now))) }
    ensures fault { IfErr result (TellsFirstFault (reading_faults (path_below path.now column.now) (data_reading (view value.now)))) }
{
    match value {
        Json::Null => Ok(Text::from_str(alloc, "")?),
        Json::Bool(true) => Ok(Text::from_str(alloc, "true")?),
        Json::Bool(false) => Ok(Text::from_str(alloc, "false")?),
        Json::String(text) => Ok(Text::from_str(alloc, text)?),
        Json::Number(number) => {
            if let Some(n) = number.as_u64() {
                Ok(Text::from_string(alloc, n.to_string(alloc)?)?)
            } else if let Some(z) = number.as_i64() {
                Ok(Text::from_string(alloc, z.to_string(alloc)?)?)
            } else {
                let at = path_below(alloc, path, column.as_str())?;
                Err(JsonFault::Bad(JsonKind::Number(at)))
            }
        }
        Json::Array(_) | Json::Object(_) => {
            let at = path_below(alloc, path, column.as_str())?;
            Err(JsonFault::Bad(JsonKind::Shape(at)))
        }
    }
}

// The constant of a column.
fn cell_of<'a>(
    alloc: Global,
    path: &Text,
    column: &Text,
    members: &[(&'a str, Json<'a>)],
) -> Result<Text, JsonFault>
    ensures ok { IfOk result (ReadsConstant (path_below path.now column.now) (column_reading column.now (members_view members.now))) }
    ensures fault { IfErr result (TellsFirstFault
        (reading_faults (path_below path.now column.now) (column_reading column.now (members_view members.now)))) }
{
    match member_of(members, column.as_str()) {
        None => Ok(Text::from_str(alloc, "")?),
        Some(value) => constant_in(alloc, path, column, value),
    }
}

/// The constants of the row of an object, or the first fault of its columns.
pub fn row_of<'a>(
    alloc: Global,
    tree: &SetTree,
    up: &Option<Text>,
    id: &Text,
    path: &Text,
    members: &[(&'a str, Json<'a>)],
) -> Result<Vec<Text>, JsonFault>
    ensures ok { IfOk result (λ x. IsObjectRow path.now tree.now up.now id.now (members_view members.now) x.items) }
    ensures fault { IfErr result (TellsFirstFault (column_faults path.now tree.now.label.columns (members_view members.now))) }
{
    let mut row = Vec::new(alloc);
    if !tree.inner.is_empty() {
        row.push(id.copy()?)?;
    }
    if let Some(up) = up {
        row.push(up.copy()?)?;
    }
    for column in tree.columns.items() {
        row.push(cell_of(alloc, path, column, members)?)?;
    }
    Ok(row)
}

/// A copy of an `#up`.
pub fn copy_of(up: &Option<Text>) -> Result<Option<Text>, AllocError>
    ensures { IfOk result (λ o. o ≡ up.now) }
{
    match up {
        None => Ok(None),
        Some(up) => Ok(Some(up.copy()?)),
    }
}
