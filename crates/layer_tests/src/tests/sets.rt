// Sets that no text can say: without columns, with empty lists, with names of columns that clio adds, nested too deeply.
ghost use Rattle.std.specs.Prelude.{◌<◌, length, IfOk};
ghost use Rattle.dx_schema.specs.Tables.{tables_of};
ghost use Rattle.dx_schema.specs.Bounds.{HasFewRules};

use dx_base::{Items, Text};
use dx_closing::can_be_closed;
use dx_model::{Atom, Cell};
use dx_schema::{DepDecl, KeyDecl, RefDecl, Schema, SetTree, Trees};
use std::alloc::{AllocError, Global};
use std::test::Fail;

/// The words of a text but for the first.
fn list(alloc: Global, text: &str) -> Result<Items<Text>, AllocError> {
    let mut words = Vec::new(alloc);
    for word in text.split(' ').skip(1) {
        words.push(Text::from_str(alloc, word)?)?;
    }
    Ok(Items::from_vec(words))
}

/// The first word of a text, and the others.
fn words(alloc: Global, text: &str) -> Result<(Text, Items<Text>), AllocError> {
    let first = text.split(' ').next().unwrap_or("");
    let first = Text::from_str(alloc, first)?;
    Ok((first, list(alloc, text)?))
}

/// A key of these columns.
fn key(alloc: Global, columns: &str) -> Result<KeyDecl, AllocError> {
    let columns = list(alloc, columns)?;
    Ok(KeyDecl { columns })
}

/// A dependency of these columns, which determine the others.
fn dependency(alloc: Global, columns: &str, decides: &str) -> Result<DepDecl, AllocError> {
    let columns = list(alloc, columns)?;
    let decides = list(alloc, decides)?;
    Ok(DepDecl { columns, decides })
}

/// A ref of these columns to a set and its columns, which is optional if it begins so.
fn reference(alloc: Global, columns: &str, referred: &str) -> Result<RefDecl, AllocError> {
    let optional = columns.starts_with("optional");
    let columns = list(alloc, columns)?;
    let (set, referred) = words(alloc, referred)?;
    Ok(RefDecl {
        columns,
        set,
        referred,
        optional,
    })
}

/// Adds a key, with a colon a dependency, or with an arrow a ref.
fn add_part(alloc: Global, tree: &mut SetTree, part: &str) -> Result<(), AllocError> {
    if let Some((columns, decides)) = part.split_once(" : ") {
        return tree.deps.push(dependency(alloc, columns, decides)?);
    }
    match part.split_once(" -> ") {
        None => tree.keys.push(key(alloc, part)?),
        Some((from, to)) => tree.refs.push(reference(alloc, from, to)?),
    }
}

/// Adds keys, dependencies and refs with `; ` between them.
fn add_parts(alloc: Global, tree: &mut SetTree, parts: &str) -> Result<(), AllocError> {
    for part in parts.split("; ") {
        if !part.is_empty() {
            add_part(alloc, tree, part)?;
        }
    }
    Ok(())
}

/// A set without its inner sets: `a x y; key x; ref y -> b z` has two columns, a key and a ref.
fn tree(alloc: Global, text: &str) -> Result<SetTree, AllocError> {
    let (columns, parts) = text.split_once("; ").unwrap_or((text, ""));
    let (name, columns) = words(alloc, columns)?;
    let mut tree = SetTree::new(alloc, name, columns);
    add_parts(alloc, &mut tree, parts)?;
    Ok(tree)
}

/// Sets beside one another with ` | ` between them, the first with these inner sets.
fn level(alloc: Global, text: &str, inner: Trees) -> Result<Trees, AllocError> {
    let mut sets = text.split(" | ");
    let mut first = tree(alloc, sets.next().unwrap_or(""))?;
    first.inner = inner;
    let mut level = Trees::new(alloc);
    level.push(first)?;
    for set in sets {
        level.push(tree(alloc, set)?)?;
    }
    Ok(level)
}

/// Sets level by level with ` / ` between them, from the roots on. Each level lies in the first set of the level before.
fn trees(alloc: Global, text: &str) -> Result<Trees, AllocError>
    ensures { IfOk result HasFewRules }
{
    let mut made = Trees::new(alloc);
    for sets in text.rsplit(" / ") {
        made = level(alloc, sets, made)?;
    }
    // No text of a test has more.
    if made.has_few_rules() {
        Ok(made)
    } else {
        Err(AllocError)
    }
}

/// Whether sets are built, or what is wrong with them.
pub fn built(alloc: Global, text: &str) -> Result<String, AllocError> {
    match Schema::build(alloc, trees(alloc, text)?) {
        Ok(_) => String::from_str(alloc, "built"),
        Err(fault) => format!(in alloc; "{fault:?}"),
    }
}

/// Sets with one fault and with two, of which the first in the order of the checks is told: no columns; columns named `#id` and `#up`;
/// keys and refs of no column; too many sets, and too many levels, before names; too many columns before a set without.
pub const SETS: &str = "a
=> Bad(NoColumn(\"a\"))

a / b x
=> Bad(NoColumn(\"a\"))

a x / b / c z
=> Bad(NoColumn(\"b\"))

a #id
=> Bad(DoubleName(\"#id\"))

a #up
=> Bad(DoubleName(\"#up\"))

a x / #id y
=> Bad(DoubleName(\"#id\"))

a x / #up y
=> Bad(DoubleName(\"#up\"))

a x; key
=> Bad(BadLink(\"a\"))

a x; key #id / b y
=> Bad(UnknownName(\"#id\"))

a x / b y; key #up
=> Bad(UnknownName(\"#up\"))

a x; ref -> b y | b y
=> Bad(BadLink(\"a\"))

a x; ref x -> b | b y
=> Bad(BadLink(\"a\"))

a x | c z / b y; ref #up -> c z
=> Bad(UnknownName(\"#up\"))

a x | c z; ref z -> b #up / b y
=> Bad(UnknownName(\"#up\"))

a x | a
=> Bad(DoubleName(\"a\"))

a / b y | b z
=> Bad(NoColumn(\"a\"))

a x x | b
=> Bad(DoubleName(\"x\"))

a x | c z z / b
=> Bad(NoColumn(\"b\"))

a x x / b
=> Bad(DoubleName(\"x\"))

a x; key z | b
=> Bad(NoColumn(\"b\"))

a x; key z; key
=> Bad(UnknownName(\"z\"))

a x; key; key z
=> Bad(BadLink(\"a\"))

a x; ref x -> c y | b y; key
=> Bad(UnknownName(\"c\"))

a x | c z; key x / b y; key
=> Bad(BadLink(\"b\"))

a x; ref z -> c
=> Bad(BadLink(\"a\"))

a x; ref x -> a x | b y; key
=> Bad(BadLink(\"b\"))

#id x
=> built

a x y; dep : to y
=> Bad(BadLink(\"a\"))

a x y; dep x : to
=> Bad(BadLink(\"a\"))

a x; dep z : to x
=> Bad(UnknownName(\"z\"))

a x; dep x : to z
=> Bad(UnknownName(\"z\"))

a x y; dep x y x : to z
=> Bad(DoubleName(\"x\"))

a x y; dep x : to y y
=> Bad(DoubleName(\"y\"))

a x / b y; dep #up : to y
=> Bad(UnknownName(\"#up\"))

a x; ref x -> c x; dep z : to x; key y
=> Bad(UnknownName(\"y\"))

a x; ref x -> c x; dep z : to x
=> Bad(UnknownName(\"z\"))

a x y; dep x : to x y; dep y : to x
=> built

a x; optional x -> b z | b y
=> Bad(UnknownName(\"z\"))

a x; optional x -> b y | b y; ref y -> a x
=> Bad(CyclicLinks(\"a\"))

a x / a x / a x / a x / a x / a x / a x / a x / a x / a x / a x / a x / a x / a x / a x / a x / a x
=> TooMany(Limit { \
what: Depth, number: 16 })

a x | a x / a x / a x / a x / a x / a x / a x / a x / a x / a x / a x / a x / a x / a x / a x / a x / a x
=> \
TooMany(Limit { what: Depth, number: 16 })

a x | a x | a x | a x | a x | a x | a x | a x | a x | a x | a x | a x | a x | a x | a x | a x | a x | a x | a x | a x \
| a x | a x | a x | a x | a x | a x | a x | a x | a x | a x | a x | a x | a x | a x | a x | a x | a x | a x | a x | a \
x | a x | a x | a x | a x | a x | a x | a x | a x | a x / a x / a x / a x / a x / a x / a x / a x / a x / a x / a x / \
a x / a x / a x / a x / a x / a x
=> TooMany(Limit { what: Tables, number: 64 })

a c0 c1 c2 c3 c4 c5 c6 c7 c8 c9 c10 c11 c12 c13 c14 c15 c16 c17 c18 c19 c20 c21 c22 c23 c24 c25 c26 c27 c28 c29 c30 \
c31 c32 c33 c34 c35 c36 c37 c38 c39 c40 c41 c42 c43 c44 c45 c46 c47 c48 c49 c50 c51 c52 c53 c54 c55 c56 c57 c58 c59 \
c60 c61 c62 c63 c64 | b
=> TooMany(Limit { what: Columns, number: 64 })";

const NESTED: &str =
    "a x y; key x; key y x; ref y x -> d u v | d u v; key v / b z; key z | e t / c w; ref w -> d v";

/// The tables of these sets: the columns of each; its keys; its links; the table in which it lies; its inner tables;
/// whether it has `#id`. Last, how many roots there are.
const TABLES: &str =
    "a [\"#id\", \"x\", \"y\"] [Key { columns: Items { items: [0] } }, Key { columns: Items { items: [1] } }, Key { \
columns: Items { items: [2, 1] } }] [Link { from: Items { items: [2, 1] }, table: 4, to: Items { items: [0, 1] } }] \
None [1, 3] true
b [\"#id\", \"#up\", \"z\"] [Key { columns: Items { items: [0] } }, Key { columns: Items { items: [1, 2] } }] [Link { \
from: Items { items: [1] }, table: 0, to: Items { items: [0] } }] Some(0) [2] true
c [\"#up\", \"w\"] [] [Link { from: Items { items: [0] }, table: 1, to: Items { items: [0] } }, Link { from: Items { \
items: [1] }, table: 4, to: Items { items: [1] } }] Some(1) [] false
e [\"#up\", \"t\"] [] [Link { from: Items { items: [0] }, table: 0, to: Items { items: [0] } }] Some(0) [] false
d [\"u\", \"v\"] [Key { columns: Items { items: [1] } }] [] None [] false
2";

/// A table in a line, as above.
fn told(alloc: Global, schema: &Schema, table: u32) -> Result<String, AllocError>
    requires { table < length (tables_of schema.now) }
{
    format!(in alloc;
        "{} {:?} {:?} {:?} {:?} {:?} {}\n",
        schema.name(table),
        schema.columns(table),
        schema.keys_of(table),
        schema.links_of(table),
        schema.parent(table),
        schema.inner(table),
        schema.has_id(table)
    )
}

/// The schema of sets that make one.
pub fn schema(alloc: Global, text: &str) -> Result<Schema, AllocError> {
    match Schema::build(alloc, trees(alloc, text)?) {
        Ok(schema) => Ok(schema),
        Err(_) => Err(AllocError),
    }
}

/// The tables of a schema, and how many roots there are.
fn tables(alloc: Global, schema: &Schema) -> Result<String, AllocError> {
    let mut all = String::new(alloc);
    for table in 0..schema.tables() {
        all.push_str(told(alloc, schema, table)?.as_str())?;
    }
    all.push_str(format!(in alloc; "{}", schema.trees().len())?.as_str())?;
    Ok(all)
}

#[test]
fn sets_have_these_tables(rt: HostRuntime) -> Result<(), Fail> {
    let schema = schema(rt.alloc(), NESTED)?;
    assert_eq!(rt; tables(rt.alloc(), &schema)?.as_str(), TABLES);
    Ok(())
}

/// Conclusions over `unit uname / staff sname`, an atom in a line: its table, the number of its existential variable, and a word for
/// each further cell. Then whether they fit: as they are to be; a cell too few; a table too many; a number that is not the next, at first
/// and later.
pub const CONCLUSIONS: &str = "1 0 x
1 1 x
=> true

1 0
=> false

2 0 x
=> false

1 1 x
=> false

1 0 x
1 2 x
=> false";

/// A number of a line, 0 if there is none.
fn number(word: Option<&str>) -> u32 {
    word.unwrap_or("").parse::<u32>().unwrap_or(0)
}

fn atom(alloc: Global, line: &str) -> Result<Atom, AllocError> {
    let mut words = line.split(' ');
    let (table, null) = (number(words.next()), number(words.next()));
    let mut cells = Items::new(alloc);
    cells.push(Cell::Ex(null))?;
    for _ in words {
        cells.push(Cell::Var(0))?;
    }
    Ok(Atom { table, cells })
}

fn atoms(alloc: Global, lines: &str) -> Result<Items<Atom>, AllocError> {
    let mut atoms = Items::new(alloc);
    for line in lines.lines() {
        atoms.push(atom(alloc, line)?)?;
    }
    Ok(atoms)
}

/// Whether a conclusion can be closed.
pub fn closes(alloc: Global, text: &str) -> Result<String, AllocError> {
    let units = schema(alloc, "unit uname / staff sname")?;
    let conclusion = atoms(alloc, text)?;
    format!(in alloc; "{}", can_be_closed(conclusion.items(), &units))
}
