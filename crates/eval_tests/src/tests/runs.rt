// Runs of the plain and of the rewritten script of mappings.
ghost use Rattle.std.specs.Prelude.{◌≡◌, ◌-◌, [], IfOk, length};
ghost use Rattle.dx_schema.specs.Names.{table_names_of};
ghost use Rattle.dx_schema.specs.Tables.{schema_widths};
ghost use Rattle.dx_funcs.specs.Offers.{IsListed};
ghost use Rattle.dx_funcs.specs.Serving.{Serves, offered};
ghost use Rattle.dx_funcs.specs.Shipped.{shipped_apply, shipped_conversions};
ghost use Rattle.dx_instance.specs.Stored.{widths};
ghost use Rattle.dx_script.specs.Fits.{FitsScript};
ghost use Rattle.clio_accept.specs.Laws.{MappingFits};

use clio_accept::{AcceptFault, Mapping, accept};
use dx_base::{Count, Items, Limit, Text};
use dx_eval::{EvalFault, Made, eval};
use dx_funcs::{Host, Meaning, Shipped, Tests, convert, shipped_list};
use dx_instance::{Fact, Instance, Row, value_read, value_text};
use dx_schema::Schema;
use dx_script::Script;
use dx_scriptgen::{plain_script, rewritten_script};
use std::alloc::{AllocError, Global};
use std::test::Fail;

/// Mappings with an empty line between each two. After each, parted by `==`: the rows of its source, how many cells its rules
/// make for all of their matches, and what its plain and its rewritten script make: first the matches of each rule, then the
/// facts. `none` stands for no line.
const CASES: &str = "// a null for each name
mapping 1; source { set emp { name; } } target { set person { name, phone; } }
line emp.name -> person.name;
==
0|ann
0|bob
==
4
==
m0|ann
m0|bob
0|ann|?0.0.0
0|bob|?0.0.1
==
the same

// no row makes no cell
mapping 1; source { set emp { name; } } target { set person { name, phone; } }
line emp.name -> person.name;
==
none
==
0
==
none
==
the same

// a constant that has the text of a null
mapping 1; source { set emp { name; } } target { set person { name, phone; } }
line emp.name -> person.name;
==
0|??0.0.0
==
2
==
m0|?0.0.0
0|??0.0.0|?0.0.0
==
the same

// where nothing is exported all rows are one match
mapping 1; source { set emp { name; } } target { set site { code; } }
rule emp(x) -> site(\"main\");
==
0|ann
0|bob
==
1
==
m0
0|main
==
the same

// a match is what a conversion gives
mapping 1; source { set emp { name; } } target { set person { name; } }
line trim(emp.name) -> person.name;
==
0| ann 
0|ann
==
1
==
m0|ann
0|ann
==
the same

// keys change nothing
mapping 1; source { set a { x, v; } }
target { set p { id, g; key (id); } set q { g, h; key (g); } set r { h, v; key (h); } }
rule a(x, v) -> p(x, g), q(g, h), r(h, v);
==
0|1|bob
0|1|ann
==
12
==
m0|1|ann
m0|1|bob
0|1|?0.0.0
0|1|?0.0.1
1|?0.0.0|?0.1.0
1|?0.0.1|?0.1.1
2|?0.1.0|ann
2|?0.1.1|bob
==
the same

// a unit of staff is a unit already
mapping 1;
source {
  set emp { name, dept; ref (dept) -> dept (dname); }
  set dept { dname; }
}
target {
  set unit { uname; key (uname); set staff { sname; } }
}
line emp.name -> staff.sname;
line dept.dname -> unit.uname;
==
0|ann|toys
0|bob|toys
1|toys
==
10
==
m0|ann|toys
m0|bob|toys
m1|toys
0|?0.0.0|toys
0|?0.0.1|toys
0|?1.0.0|toys
1|?0.0.0|ann
1|?0.0.1|bob
==
m0|ann|toys
m0|bob|toys
m1|toys
0|?0.0.0|toys
0|?0.0.1|toys
1|?0.0.0|ann
1|?0.0.1|bob

// a person with a number is a person already
mapping 1; source { set emp { name; } set phone { name, num; } } target { set person { name, num; } }
line emp.name -> person.name;
line phone.name -> person.name;
line phone.num -> person.num;
==
0|ann
1|ann|555
==
4
==
m0|ann
m1|ann|555
0|ann|555
0|ann|?0.0.0
==
m0|ann
m1|ann|555
0|ann|555

// of two rules that cover each other the second alone is subtracted
mapping 1; source { set a { x; } set b { x; } } target { set p { x, y; } }
rule a(x) -> p(x, y);
rule b(x) -> p(x, y);
==
0|1
1|1
1|2
==
6
==
m0|1
m1|1
m1|2
0|1|?0.0.0
0|1|?1.0.0
0|2|?1.0.1
==
m0|1
m1|1
m1|2
0|1|?0.0.0
0|2|?1.0.1

// a place is not covered by two rules, each of which has one of its atoms
mapping 1; source { set a { x; } set b { x, y; } set c { y; } } target { set p { x, y; } set q { y; } }
rule a(x) -> p(x, y), q(y);
rule b(x, y) -> p(x, y);
rule c(y) -> q(y);
==
0|1
1|1|2
2|2
==
6
==
m0|1
m1|1|2
m2|2
0|1|2
0|1|?0.0.0
1|2
1|?0.0.0
==
the same

// two facts of one match
mapping 1; source { set a { x; } } target { set n { x; } set e { u, v; } }
rule a(x) -> n(x), e(u, v), e(v, u);
==
0|1
0|2
==
10
==
m0|1
m0|2
0|1
0|2
1|?0.0.0|?0.1.0
1|?0.0.1|?0.1.1
1|?0.1.0|?0.0.0
1|?0.1.1|?0.0.1
==
the same";

/// What stands in a part of a case.
fn part(text: &str) -> &str {
    if text == "none" { "" } else { text }
}

/// One of the cases.
#[derive(Clone, Copy)]
struct Case<'a> {
    mapping: &'a str,
    rows: &'a str,
    cells: u64,
    plain: &'a str,
    rewritten: &'a str,
}

fn case_of(text: &str) -> Option<Case<'_>> {
    let mut parts = text.split("\n==\n");
    let mapping = parts.next()?;
    let rows = part(parts.next()?);
    let cells = parts.next()?.parse::<u64>().ok()?;
    let plain = part(parts.next()?);
    let rewritten = match parts.next()? {
        "the same" => plain,
        other => part(other),
    };
    Some(Case {
        mapping,
        rows,
        cells,
        plain,
        rewritten,
    })
}

/// The mapping of a text without conditions, whose rules fit.
fn accepted<F: Fn(u32, &Items<Text>) -> Result<Text, AllocError>, M: Meaning>(
    alloc: Global,
    text: &str,
    host: &Host<F, M>,
) -> Result<Mapping, AcceptFault>
    ensures { IfOk result (MappingFits (offered host.now) []) }
{
    let bytes = text.as_bytes();
    if bytes.len() > 100_000 {
        return Err(AcceptFault::Memory);
    }
    let no_test = |_code: u32, _text: &Text| -> Result<bool, AllocError> { Ok(false) };
    let tests: Tests<_, M> = Tests::build(Items::new(alloc), no_test);
    accept(alloc, bytes, host, &tests)
}

/// The row of the texts of its values with `|` between them.
fn row(alloc: Global, cells: &str) -> Result<Row, AllocError> {
    let mut row = Row::new(alloc);
    for cell in cells.split('|') {
        if let Some(value) = value_read(alloc, &Text::from_str(alloc, cell)?)? {
            row.push(value)?;
        }
    }
    Ok(row)
}

/// Adds a row, if it is as wide as the table of this number.
fn add_row(instance: &mut Instance, table: u32, row: Row) -> Result<(), AllocError>
    ensures { widths instance.new ≡ widths instance.old }
{
    if table >= instance.tables()
        || row.len() != u64::from(instance.width(table))
        || instance.count(table) >= 1000
    {
        return Ok(());
    }
    instance.add(table, row)?;
    Ok(())
}

/// Adds the row of a line, if it is as wide as its table.
fn add_line(alloc: Global, instance: &mut Instance, line: &str) -> Result<(), AllocError>
    ensures { widths instance.new ≡ widths instance.old }
{
    let (table, cells) = line.split_once("|").unwrap_or(("", ""));
    match table.parse::<u32>() {
        Ok(table) => add_row(instance, table, row(alloc, cells)?),
        Err(_) => Ok(()),
    }
}

fn instance_of(alloc: Global, schema: &Schema, rows: &str) -> Result<Instance, AllocError>
    ensures { IfOk result (λ I. widths I ≡ schema_widths schema.now) }
{
    let mut instance = Instance::new(alloc, schema.widths(alloc)?)?;
    for line in rows.lines() {
        add_line(alloc, &mut instance, line)?;
    }
    Ok(instance)
}

/// Adds a line for a match of the rule with this number.
fn add_match(
    alloc: Global,
    lines: &mut String,
    rule: usize,
    tuple: &[Text],
) -> Result<(), AllocError> {
    lines.push_str(format!(in alloc; "m{rule}")?.as_str())?;
    for text in tuple {
        lines.push_str("|")?;
        lines.push_str(text.as_str())?;
    }
    lines.push_str("\n")
}

/// A line for each match, with the number of its rule.
fn add_matches(alloc: Global, lines: &mut String, made: &Made) -> Result<(), AllocError> {
    for (rule, places) in made.matches.rules.items().iter().enumerate() {
        for place in 0..places.tuples.len() {
            add_match(alloc, lines, rule, places.tuples.tuple(place))?;
        }
    }
    Ok(())
}

/// Adds a line for a fact, with the number of its table.
fn add_fact(alloc: Global, lines: &mut String, fact: &Fact) -> Result<(), AllocError> {
    lines.push_str(format!(in alloc; "{}", fact.table)?.as_str())?;
    for value in fact.row.items() {
        lines.push_str("|")?;
        lines.push_str(value_text(alloc, value)?.as_str())?;
    }
    lines.push_str("\n")
}

/// A line for each fact, with the number of its table.
fn add_facts(alloc: Global, lines: &mut String, instance: &Instance) -> Result<(), AllocError> {
    let facts = instance.facts()?;
    for fact in facts.as_slice() {
        add_fact(alloc, lines, fact)?;
    }
    Ok(())
}

fn made_lines(alloc: Global, made: &Made) -> Result<String, AllocError> {
    let mut lines = String::new(alloc);
    add_matches(alloc, &mut lines, made)?;
    add_facts(alloc, &mut lines, &made.instance)?;
    Ok(lines)
}

/// What a run of a script made, or the limit that it passes.
fn told(alloc: Global, made: Result<Made, EvalFault>) -> Result<String, AllocError> {
    match made {
        Ok(made) => made_lines(alloc, &made),
        Err(
            EvalFault::Limit(
                Limit {
                    what: Count::TargetCells,
                    number,
                },
            ),
        ) => format!(in alloc; "TargetCells {number}"),
        Err(EvalFault::Limit(_)) => String::from_str(alloc, "another limit"),
        Err(EvalFault::Memory) => Err(AllocError),
    }
}

/// Whether a script makes these lines if so many cells are the limit, and is refused if one fewer is.
fn is_exact<F: Fn(u32, &Items<Text>) -> Result<Text, AllocError>, M: Meaning>(
    alloc: Global,
    script: &Script,
    mapping: &Mapping,
    rows: &Instance,
    host: &Host<F, M>,
    cells: u64,
    lines: &str,
) -> Result<bool, AllocError>
    requires serves { Serves F.Fn M.apply host.now }
    requires fits { FitsScript (table_names_of mapping.now.source) (table_names_of mapping.now.target) (offered host.now) script.now.steps }
    requires widths { widths rows.now ≡ schema_widths mapping.now.source }
{
    let (source, target) = (&mapping.source, &mapping.target);
    let made = told(
        alloc,
        eval(alloc, script, source, rows, target, host, cells),
    )?;
    if cells == 0 {
        return Ok(made.as_str().trim_end() == lines);
    }
    let fewer = cells - 1;
    let refused = told(
        alloc,
        eval(alloc, script, source, rows, target, host, fewer),
    )?;
    let refusal = format!(in alloc; "TargetCells {fewer}")?;
    Ok(made.as_str().trim_end() == lines && refused.as_str() == refusal.as_str())
}

/// Whether the plain script of a mapping makes what it is to make.
fn plain_passes<F: Fn(u32, &Items<Text>) -> Result<Text, AllocError>, M: Meaning>(
    alloc: Global,
    case: &Case<'_>,
    mapping: &Mapping,
    rows: &Instance,
    host: &Host<F, M>,
) -> Result<bool, AllocError>
    requires serves { Serves F.Fn M.apply host.now }
    requires fits { MappingFits (offered host.now) [] mapping.now }
    requires widths { widths rows.now ≡ schema_widths mapping.now.source }
{
    let rules = mapping.rules.items();
    let script = plain_script(alloc, rules, &mapping.source, &mapping.target, host)?;
    is_exact(alloc, &script, mapping, rows, host, case.cells, case.plain)
}

/// Whether the rewritten one does.
fn rewritten_passes<F: Fn(u32, &Items<Text>) -> Result<Text, AllocError>, M: Meaning>(
    alloc: Global,
    case: &Case<'_>,
    mapping: &Mapping,
    rows: &Instance,
    host: &Host<F, M>,
) -> Result<bool, AllocError>
    requires serves { Serves F.Fn M.apply host.now }
    requires fits { MappingFits (offered host.now) [] mapping.now }
    requires widths { widths rows.now ≡ schema_widths mapping.now.source }
{
    let rules = mapping.rules.items();
    let script = rewritten_script(alloc, rules, &mapping.source, &mapping.target, host)?;
    is_exact(
        alloc,
        &script,
        mapping,
        rows,
        host,
        case.cells,
        case.rewritten,
    )
}

/// Whether both scripts of a mapping make what they are to make.
fn passes<F: Fn(u32, &Items<Text>) -> Result<Text, AllocError>, M: Meaning>(
    alloc: Global,
    case: &Case<'_>,
    host: &Host<F, M>,
) -> Result<bool, AcceptFault>
    requires { Serves F.Fn M.apply host.now }
{
    let mapping = accepted(alloc, case.mapping, host)?;
    let rows = instance_of(alloc, &mapping.source, case.rows)?;
    Ok(
        plain_passes(alloc, case, &mapping, &rows, host)?
            && rewritten_passes(alloc, case, &mapping, &rows, host)?,
    )
}

/// How many cases come out as they are to before one that doesn't.
fn passing_by<F: Fn(u32, &Items<Text>) -> Result<Text, AllocError>, M: Meaning>(
    alloc: Global,
    all: &str,
    host: &Host<F, M>,
) -> Result<usize, AcceptFault>
    requires { Serves F.Fn M.apply host.now }
{
    for (number, text) in all.split("\n\n").enumerate() {
        let Some(case) = case_of(text) else {
            return Ok(number);
        };
        if !passes(alloc, &case, host)? {
            return Ok(number);
        }
    }
    Ok(all.split("\n\n").count())
}

/// The same with the conversions that come with the program.
fn passing(alloc: Global, all: &str) -> Result<usize, AcceptFault> {
    let function = |code: u32, args: &Items<Text>| -> Result<Text, AllocError>
        requires { IsListed shipped_conversions code (length args.now) }
        ensures { IfOk result (λ t. t ≡ shipped_apply code args.entry.now) }
    { convert(alloc, code, args) };
    let host: Host<_, Shipped> = Host::build(shipped_list(alloc)?, function);
    passing_by(alloc, all, &host)
}

#[test]
fn scripts_make_this_within_the_limit(rt: HostRuntime) -> Result<(), Fail> {
    assert_eq!(rt; passing(rt.alloc(), CASES)?, 11);
    Ok(())
}
