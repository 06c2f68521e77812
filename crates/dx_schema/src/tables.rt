// Sets as tables.
ghost use Rattle.std.specs.Prelude.{◌≡◌, ◌<◌, ◌≤◌, ◌+◌, ◌^◌, ◌++◌, [], ◌∷◌, length, map, codes, IfOk, slice_index_or};
ghost use Rattle.dx_base.specs.declared.limits.TheConstants.{TABLES, COLUMNS};
ghost use Rattle.dx_schema.specs.Tables.{columns_of, count, numbers_of_names, where_inner, where_has_inner, key_named, keys_in, dep_named, deps_in, link_of, link_up, links_in, optional_in, table_in};
ghost use Rattle.dx_schema.specs.Nodes.{node_view};
ghost use Rattle.dx_schema.specs.Making.{IsColumnLists, IsOverview, IsOwnList, IsReadyForTables};

use crate::checks::columns_made;
use crate::names::{copies, number_among, numbers_among};
use crate::nodes::{Node, numbers_made};
use crate::sets::{DepDecl, KeyDecl, RefDecl};
use dx_base::{Items, Text};
use dx_model::{Dep, Key, Link};
use std::alloc::{AllocError, Global};

/// A table: a name, the names of its columns, and its keys, dependencies and links by the numbers of columns and tables.
#[derive(Drop)]
pub struct Table {
    pub name: Text,
    pub columns: Items<Text>,
    pub keys: Items<Key>,
    pub deps: Items<Dep>,
    pub links: Items<Link>,
    /// The links that an instance may leave open.
    pub optional: Items<Link>,
    /// The table of the set that the set is an inner set of.
    pub parent: Option<u32>,
    /// The tables of the set's inner sets, in order.
    pub inner: Items<u32>,
}

// Sets, their names, and the columns of each one's table.
#[derive(Clone, Copy)]
struct Overview<'a> {
    names: &'a [Text],
    columns: &'a [Items<Text>],
    sets: &'a [Node<'a>],
}

// The number of one name, as a list.
fn number_alone(alloc: Global, all: &[Text], name: &str) -> Result<Items<u32>, AllocError>
    requires { length all.now < 2 ^ 32 }
    ensures { IfOk result (λ ns. ns ≡ numbers_of_names (name.now ∷ []) all.now) }
{
    let mut out = Items::new(alloc);
    out.push(number_among(all, &Text::from_str(alloc, name)?))?;
    Ok(out)
}

// The names of a key's columns, or of those that a dependency has on the left, of an inner set with `#up` in front.
fn key_names(alloc: Global, node: &Node, columns: &[Text]) -> Result<Items<Text>, AllocError>
    ensures { IfOk result (λ names. names ≡ where_inner node.now.parent (codes "#up") ++ columns.now) }
{
    let mut names = Items::new(alloc);
    if node.parent.is_some() {
        names.push(Text::from_str(alloc, "#up")?)?;
    }
    for column in columns {
        names.push(column.copy()?)?;
    }
    Ok(names)
}

// The key of `#id`, if the set has inner sets.
fn keys_begun(alloc: Global, node: &Node, own: &[Text]) -> Result<Items<Key>, AllocError>
    requires columns { own.now ≡ columns_of (node_view node.now) }
    requires few { length own.now ≤ COLUMNS }
    ensures { IfOk result (λ keys. keys ≡ map (key_named (node_view node.now))
        (where_has_inner (node_view node.now).inner (codes "#id" ∷ []))) }
{
    let tree = node.tree;
    let mut keys = Items::new(alloc);
    if !tree.inner.is_empty() {
        let columns = number_alone(alloc, own, "#id")?;
        keys.push(Key { columns })?;
    }
    Ok(keys)
}

// The keys of a set's table.
fn keys_made(alloc: Global, node: &Node, own: &[Text]) -> Result<Items<Key>, AllocError>
    requires columns { own.now ≡ columns_of (node_view node.now) }
    requires few { length own.now ≤ COLUMNS }
    ensures { IfOk result (λ keys. keys ≡ keys_in (node_view node.now)) }
{
    let tree = node.tree;
    let mut keys = keys_begun(alloc, node, own)?;
    for key in tree.keys.items() {
        let names = key_names(alloc, node, key.columns.items())?;
        let columns = numbers_among(alloc, own, names.items())?;
        keys.push(Key { columns })?;
    }
    Ok(keys)
}

// A dependency of a set's table.
fn dep_made(alloc: Global, node: &Node, own: &[Text], dep: &DepDecl) -> Result<Dep, AllocError>
    requires columns { own.now ≡ columns_of (node_view node.now) }
    requires few { length own.now ≤ COLUMNS }
    ensures { IfOk result (λ d. d ≡ dep_named (node_view node.now) dep.now) }
{
    let names = key_names(alloc, node, dep.columns.items())?;
    let columns = numbers_among(alloc, own, names.items())?;
    let decides = numbers_among(alloc, own, dep.decides.items())?;
    Ok(Dep { columns, decides })
}

// The dependencies of a set's table.
fn deps_made(alloc: Global, node: &Node, own: &[Text]) -> Result<Items<Dep>, AllocError>
    requires columns { own.now ≡ columns_of (node_view node.now) }
    requires few { length own.now ≤ COLUMNS }
    ensures { IfOk result (λ deps. deps ≡ deps_in (node_view node.now)) }
{
    let tree = node.tree;
    let mut deps = Items::new(alloc);
    for dep in tree.deps.items() {
        deps.push(dep_made(alloc, node, own, dep)?)?;
    }
    Ok(deps)
}

// The columns of the set with a number, of no set none.
fn columns_numbered(columns: &[Items<Text>], number: u32) -> &[Text]
    ensures { result.now ≡ slice_index_or columns.now number [] }
{
    match columns.get(number as usize) {
        Some(names) => names.items(),
        None => &[],
    }
}

// The link of a ref.
fn link_made(
    alloc: Global,
    overview: &Overview,
    node: &Node,
    own: &[Text],
    link: &RefDecl,
) -> Result<Link, AllocError>
    requires overview { IsOverview overview.now.sets.now overview.now.names.now overview.now.columns.now }
    requires own { IsOwnList node.now own.now }
    ensures { IfOk result (λ l. l ≡ link_of (map node_view overview.now.sets.now) (node_view node.now) link.now) }
{
    let table = number_among(overview.names, &link.set);
    let from = numbers_among(alloc, own, link.columns.items())?;
    let referred = columns_numbered(overview.columns, table);
    let to = numbers_among(alloc, referred, link.referred.items())?;
    Ok(Link { from, table, to })
}

// The link of an inner set to the set that it is in.
fn links_begun(
    alloc: Global,
    columns: &[Items<Text>],
    sets: &[Node],
    node: &Node,
    own: &[Text],
) -> Result<Items<Link>, AllocError>
    requires columns { IsColumnLists sets.now columns.now }
    requires own { IsOwnList node.now own.now }
    ensures { IfOk result (λ links. links ≡ link_up (map node_view sets.now) (node_view node.now) (node_view node.now).parent) }
{
    let mut links = Items::new(alloc);
    if let Some(table) = node.parent {
        let from = number_alone(alloc, own, "#up")?;
        let to = number_alone(alloc, columns_numbered(columns, table), "#id")?;
        links.push(Link { from, table, to })?;
    }
    Ok(links)
}

// The links of a set's table.
fn links_made(
    alloc: Global,
    overview: &Overview,
    node: &Node,
    own: &[Text],
) -> Result<Items<Link>, AllocError>
    requires overview { IsOverview overview.now.sets.now overview.now.names.now overview.now.columns.now }
    requires own { IsOwnList node.now own.now }
    ensures { IfOk result (λ links. links ≡ links_in (map node_view overview.now.sets.now) (node_view node.now)) }
{
    let tree = node.tree;
    let mut links = links_begun(alloc, overview.columns, overview.sets, node, own)?;
    for link in tree.refs.items() {
        if !link.optional {
            links.push(link_made(alloc, overview, node, own, link)?)?;
        }
    }
    Ok(links)
}

// The optional links of a set's table.
fn optional_made(
    alloc: Global,
    overview: &Overview,
    node: &Node,
    own: &[Text],
) -> Result<Items<Link>, AllocError>
    requires overview { IsOverview overview.now.sets.now overview.now.names.now overview.now.columns.now }
    requires own { IsOwnList node.now own.now }
    ensures { IfOk result (λ links. links ≡ optional_in (map node_view overview.now.sets.now) (node_view node.now)) }
{
    let tree = node.tree;
    let mut links = Items::new(alloc);
    for link in tree.refs.items() {
        if link.optional {
            links.push(link_made(alloc, overview, node, own, link)?)?;
        }
    }
    Ok(links)
}

// The table of a set.
fn table_made(
    alloc: Global,
    overview: &Overview,
    node: &Node,
    own: &[Text],
) -> Result<Table, AllocError>
    requires overview { IsOverview overview.now.sets.now overview.now.names.now overview.now.columns.now }
    requires own { IsOwnList node.now own.now }
    requires bounded { (node_view node.now).number + count (node_view node.now).inner < TABLES }
    ensures { IfOk result (λ table. table ≡ table_in (map node_view overview.now.sets.now) (node_view node.now)) }
{
    let tree = node.tree;
    Ok(Table {
        name: tree.name.copy()?,
        columns: copies(alloc, own)?,
        keys: keys_made(alloc, node, own)?,
        deps: deps_made(alloc, node, own)?,
        links: links_made(alloc, overview, node, own)?,
        optional: optional_made(alloc, overview, node, own)?,
        parent: node.parent,
        inner: numbers_made(alloc, node.number + 1, &tree.inner)?,
    })
}

// The columns of each set's table.
fn all_columns(alloc: Global, sets: &[Node]) -> Result<Items<Items<Text>>, AllocError>
    ensures { IfOk result (λ columns. columns ≡ map columns_of (map node_view sets.now)) }
{
    let mut columns = Items::new(alloc);
    for node in sets {
        columns.push(columns_made(alloc, node)?)?;
    }
    Ok(columns)
}

/// The tables of sets, in order.
pub fn tables_made(alloc: Global, names: &[Text], sets: &[Node]) -> Result<Vec<Table>, AllocError>
    requires { IsReadyForTables sets.now names.now }
    ensures { IfOk result (λ tables. tables.items ≡ map (table_in (map node_view sets.now)) (map node_view sets.now)) }
{
    let columns = all_columns(alloc, sets)?;
    let overview = Overview {
        names,
        columns: columns.items(),
        sets,
    };
    let mut tables = Vec::new(alloc);
    for (i, node) in sets.iter().enumerate() {
        let own = overview.columns[i].items();
        let table = table_made(alloc, &overview, node, own)?;
        tables.push(table)?;
    }
    Ok(tables)
}
