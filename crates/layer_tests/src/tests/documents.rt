// Rows below no row, and a document of a set without inner sets.
ghost use Rattle.std.specs.Prelude.{◌<◌, IfOk, length};
ghost use Rattle.dx_schema.specs.Tables.{tables_of};

use crate::tests::values::instance_of;
use dx_json::{Facts, nest, shred};
use dx_schema::{Schema, Trees};
use dx_schema_text::read_mapping;
use json::Scratch;
use std::alloc::{AllocError, Global};

/// The target sets of a mapping text.
fn trees_of(alloc: Global, text: &str) -> Result<Trees, AllocError> {
    match read_mapping(alloc, text.as_bytes()) {
        Ok(said) => Ok(said.target),
        Err(_) => Err(AllocError),
    }
}

/// The schema of some sets.
fn schema_of(alloc: Global, trees: Trees) -> Result<Schema, AllocError> {
    if !trees.has_few_rules() {
        return Err(AllocError);
    }
    match Schema::build(alloc, trees) {
        Ok(schema) => Ok(schema),
        Err(_) => Err(AllocError),
    }
}

/// The target of a mapping text, which has a set.
fn target_of(alloc: Global, text: &str) -> Result<Schema, AllocError>
    ensures { IfOk result (λ s. 0 < length (tables_of s)) }
{
    let target = schema_of(alloc, trees_of(alloc, text)?)?;
    if target.tables() == 0 {
        return Err(AllocError);
    }
    Ok(target)
}

/// Target sets with rows, and the document that they make.
pub const NESTED: &str = "mapping 1; source { } target { set unit { uname; set staff { sname; } } }
==
0|u1|toys
1|u1|bob
1|u0|eve
1|u1|ann
=> [{\"staff\":[{\"sname\":\"ann\"},{\"sname\":\"bob\"}],\"uname\":\"toys\"}]

mapping 1; source { } target { set shop { name; set shelf { no; set box { label; } } set clerk { name; } } }
==
0|s1|x
0|s2|y
1|h2|s1|9
1|h1|s1|7
2|h1|l
2|h3|m
3|s2|c
=> [{\"clerk\":[],\"name\":\"x\",\"shelf\":[{\"box\":[{\"label\":\"l\"}],\"no\":\"7\"},{\"box\":[],\"no\":\"9\"}]},{\"clerk\":[{\"name\":\"c\"}],\"name\":\"y\",\"shelf\":[]}]";

/// The document that rows make of the first set.
pub fn nested(alloc: Global, text: &str) -> Result<String, AllocError> {
    let (mapping, rows) = text.split_once("\n==\n").unwrap_or(("", ""));
    let target = target_of(alloc, mapping)?;
    let instance = instance_of(alloc, &target, rows)?;
    let document = nest(alloc, &instance, &target, 0)?;
    String::from_str(alloc, document.as_str().trim_end())
}

/// A target set with a document, and the facts that it says.
pub const DOCUMENTS: &str = "mapping 1; source { } target { set town { name; } }
==
[{\"name\":\"a\"},{\"name\":\"a\"}]
=> Fact { table: 0, row: Row { values: [Const(\"a\")] } } Fact { table: 0, row: Row { values: [Const(\"a\")] } } ";

/// Facts one after the other.
fn listed(alloc: Global, facts: &Facts) -> Result<String, AllocError> {
    let mut told = String::new(alloc);
    for place in 0..facts.len() {
        let fact = facts.fact(alloc, place)?;
        told.push_str(format!(in alloc; "{fact:?} ")?.as_str())?;
    }
    Ok(told)
}

/// The facts that a document says of the first set of a schema.
fn facts_of(alloc: Global, document: &str, target: &Schema) -> Result<String, AllocError>
    requires { 0 < length (tables_of target.now) }
{
    let mut scratch = Scratch::new(alloc);
    match shred(alloc, document.as_bytes(), &mut scratch, target, 0) {
        Ok(facts) => listed(alloc, &facts),
        Err(_) => Err(AllocError),
    }
}

/// The facts that a document says of the first set.
pub fn said(alloc: Global, text: &str) -> Result<String, AllocError> {
    let (mapping, document) = text.split_once("\n==\n").unwrap_or(("", ""));
    let target = target_of(alloc, mapping)?;
    facts_of(alloc, document, &target)
}
