// The candidates of lines, by the numbers of what they name, and how many of them are kept.
ghost use Rattle.std.specs.Prelude.{◌≡◌, IfOk, length};
ghost use Rattle.dx_base.specs.Members.{Each};
ghost use Rattle.dx_schema.specs.Tables.{model_tables};
ghost use Rattle.dx_funcs.specs.Offers.{IsListed};
ghost use Rattle.dx_funcs.specs.Shipped.{shipped_apply, shipped_conversions};
ghost use Rattle.dx_lines.specs.Limits.{LineFits};

use dx_base::{Items, Text};
use dx_candidates::{candidates, kept};
use dx_funcs::{Host, Meaning, Shipped, convert, shipped_list};
use dx_line_text::read_lines;
use dx_lines::Line;
use dx_schema::{Schema, Trees};
use dx_schema_text::{LineText, MappingText, read_mapping};
use std::alloc::{AllocError, Global};
use std::test::Fail;

/// The candidates of lines, in words.
fn all_candidates(
    alloc: Global,
    lines: &[Line],
    source: &Schema,
    target: &Schema,
) -> Result<String, AllocError>
    requires { Each lines.now (LineFits (model_tables source.now) (model_tables target.now)) }
{
    match candidates(alloc, lines, source, target) {
        Ok(all) => format!(in alloc; "{all:?}"),
        Err(_) => Err(AllocError),
    }
}

/// How many of them are kept.
fn count_kept(
    alloc: Global,
    lines: &[Line],
    source: &Schema,
    target: &Schema,
) -> Result<usize, AllocError>
    requires { Each lines.now (LineFits (model_tables source.now) (model_tables target.now)) }
{
    match kept(alloc, lines, source, target) {
        Ok(rules) => Ok(rules.len() as usize),
        Err(_) => Err(AllocError),
    }
}

/// The candidates of lines, and how many are kept.
fn answered(
    alloc: Global,
    lines: &[Line],
    source: &Schema,
    target: &Schema,
) -> Result<String, AllocError>
    requires { Each lines.now (LineFits (model_tables source.now) (model_tables target.now)) }
{
    let count = count_kept(alloc, lines, source, target)?;
    let all = all_candidates(alloc, lines, source, target)?;
    format!(in alloc; "{all} {count}")
}

/// The same of lines by names, with the conversions of a host.
fn answered_by<F: Fn(u32, &Items<Text>) -> Result<Text, AllocError>, M: Meaning>(
    alloc: Global,
    lines: &[LineText],
    source: &Schema,
    target: &Schema,
    host: &Host<F, M>,
) -> Result<String, AllocError> {
    match read_lines(alloc, lines, source, target, host) {
        Ok(lines) => answered(alloc, lines.items(), source, target),
        Err(_) => String::from_str(alloc, "no lines"),
    }
}

/// The same with the conversions that come with the program.
fn of_lines(
    alloc: Global,
    lines: &[LineText],
    source: &Schema,
    target: &Schema,
) -> Result<String, AllocError> {
    let conversions = |code: u32, args: &Items<Text>| -> Result<Text, AllocError>
        requires { IsListed shipped_conversions code (length args.now) }
        ensures { IfOk result (λ t. t ≡ shipped_apply code args.entry.now) }
    { convert(alloc, code, args) };
    let host: Host<_, Shipped> = Host::build(shipped_list(alloc)?, conversions);
    answered_by(alloc, lines, source, target, &host)
}

/// The schema of some sets.
fn schema(alloc: Global, sets: Trees) -> Result<Schema, AllocError> {
    if !sets.has_few_rules() {
        return Err(AllocError);
    }
    match Schema::build(alloc, sets) {
        Ok(schema) => Ok(schema),
        Err(_) => Err(AllocError),
    }
}

/// The same of what a mapping text says.
fn said(alloc: Global, mapping: MappingText) -> Result<String, AllocError> {
    let MappingText {
        version: _,
        source,
        target,
        lines,
        conditions: _,
        rules: _,
    } = mapping;
    let source = schema(alloc, source)?;
    let target = schema(alloc, target)?;
    of_lines(alloc, lines.items(), &source, &target)
}

/// The same of a mapping text.
fn listed(alloc: Global, text: &str) -> Result<String, AllocError> {
    match read_mapping(alloc, text.as_bytes()) {
        Ok(mapping) => said(alloc, mapping),
        Err(_) => Err(AllocError),
    }
}

/// Mapping texts, with an empty line between each two, and after `=>` the candidates, and how many of them are kept.
const LISTED: &str =
    "mapping 1; source { set emp { name, dept; ref (dept) -> dept (dname); } set dept { dname; } }
target { set unit { uname; key (uname); set staff { sname; } } }
line emp.name -> staff.sname; line dept.dname -> unit.uname;
=> [Candidate { source: 0, source_variant: 0, target: 0, target_variant: 0, picks: Items { items: [Pick { variable: \
1, term: Var(1) }] } }, Candidate { source: 0, source_variant: 0, target: 1, target_variant: 0, picks: Items { \
items: [Pick { variable: 1, term: Var(0) }, Pick { variable: 2, term: Var(1) }] } }, Candidate { source: 1, \
source_variant: 0, target: 0, target_variant: 0, picks: Items { items: [Pick { variable: 1, term: Var(0) }] } }, \
Candidate { source: 1, source_variant: 0, target: 1, target_variant: 0, picks: Items { items: [Pick { variable: 2, \
term: Var(0) }] } }] 2

mapping 1; source { set trip { no, start, goal; ref (start) -> city (code); ref (goal) -> city (code); }
set city { code, label; } } target { set visit { a, b; } }
line city.label -> visit.a; line city.label -> visit.b;
=> [Candidate { source: 0, source_variant: 0, target: 0, target_variant: 0, picks: Items { items: [Pick { variable: \
0, term: Var(3) }, Pick { variable: 1, term: Var(3) }] } }, Candidate { source: 0, source_variant: 0, target: 0, \
target_variant: 0, picks: Items { items: [Pick { variable: 0, term: Var(3) }, Pick { variable: 1, term: Var(4) }] } \
}, Candidate { source: 0, source_variant: 0, target: 0, target_variant: 0, picks: Items { items: [Pick { variable: \
0, term: Var(4) }, Pick { variable: 1, term: Var(3) }] } }, Candidate { source: 0, source_variant: 0, target: 0, \
target_variant: 0, picks: Items { items: [Pick { variable: 0, term: Var(4) }, Pick { variable: 1, term: Var(4) }] } \
}, Candidate { source: 1, source_variant: 0, target: 0, target_variant: 0, picks: Items { items: [Pick { variable: \
0, term: Var(1) }, Pick { variable: 1, term: Var(1) }] } }] 3

mapping 1; source { set emp { name, dept; ref (dept) -> dept (dname); } set dept { dname; } }
target { set person { name; } } line pair(emp.name, dept.dname) -> person.name;
=> [Candidate { source: 0, source_variant: 0, target: 0, target_variant: 0, picks: Items { items: [Pick { variable: \
0, term: Call { code: 2, args: Items { items: [0, 1] } } }] } }] 1

// a variable comes before a conversion
mapping 1; source { set emp { name; } } target { set person { name; } }
line trim(emp.name) -> person.name; line emp.name -> person.name;
=> [Candidate { source: 0, source_variant: 0, target: 0, target_variant: 0, picks: Items { items: [Pick { variable: \
0, term: Var(0) }] } }, Candidate { source: 0, source_variant: 0, target: 0, target_variant: 0, picks: Items { \
items: [Pick { variable: 0, term: Call { code: 0, args: Items { items: [0] } } }] } }] 2

// a conversion of two columns of one set that stands twice takes both from one of them
mapping 1; source { set trip { no, start, goal; ref (start) -> city (code); ref (goal) -> city (code); }
set city { code, label; } } target { set visit { a; } } line pair(city.code, city.label) -> visit.a;
=> [Candidate { source: 0, source_variant: 0, target: 0, target_variant: 0, picks: Items { items: [Pick { variable: \
0, term: Call { code: 2, args: Items { items: [1, 3] } } }] } }, Candidate { source: 0, source_variant: 0, target: \
0, target_variant: 0, picks: Items { items: [Pick { variable: 0, term: Call { code: 2, args: Items { items: [2, 4] } \
} }] } }, Candidate { source: 1, source_variant: 0, target: 0, target_variant: 0, picks: Items { items: [Pick { \
variable: 0, term: Call { code: 2, args: Items { items: [0, 1] } } }] } }] 1

mapping 1; source { set emp { name; } } target { set person { name; } } line emp.nam -> person.name;
=> no lines";

/// How many cases come out as they are to before one that doesn't.
fn passing(alloc: Global) -> Result<usize, AllocError> {
    for (number, case) in LISTED.split("\n\n").enumerate() {
        let (text, wanted) = case.split_once("\n=> ").unwrap_or(("", ""));
        if listed(alloc, text)?.as_str() != wanted {
            return Ok(number);
        }
    }
    Ok(LISTED.split("\n\n").count())
}

#[test]
fn lines_have_these_candidates(rt: HostRuntime) -> Result<(), Fail> {
    assert_eq!(rt; passing(rt.alloc())?, 6);
    Ok(())
}
