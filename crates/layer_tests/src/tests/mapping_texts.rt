// Mapping texts: the places of their words, a set that lies too deep, and sets printed.
use dx_schema_text::{print_trees, read_mapping, tokens};
use dx_tokens::scan;
use std::alloc::{AllocError, Global};

/// Texts that are no mappings, the second with a string that is cut: how many tokens they have before a fault, and whether there is one.
pub const SCANNED: &str = "a1 -> \"x\\\"\" // end
=> 3 false

a1 -> \"x
=> 2 true";

/// What a scan finds.
pub fn scanned(alloc: Global, text: &str) -> Result<String, AllocError> {
    let found = scan(alloc, text.as_bytes())?;
    format!(in alloc; "{} {}", found.lexemes.len(), found.stop.is_some())
}

/// A text with all that it may have in version 1, and the lines and the rules that it says; a text that is cut in a set at depth 17,
/// whose word stands after 20 bytes and 16 times 11; a text of version 2 with conditions, one of version 3 with a dependency; two of
/// version 1 with what version 2 alone has, one of version 1 and one of version 2 with what version 3 alone has, and one of a version that
/// there isn't.
pub const TEXTS: &str = "mapping 1; // all that a text may have
source { set a { x, y; key (x); set b { w; } ref (y) -> c (z); } set c { z; } }
target { set t { u, v; } }
line a.x -> t.u;
rule a(p, q), c(p) where r = f(p, q) -> t(r, \"\"), t(q, n);
line \"q\\\"\\\\ aé€😀\" -> t.v;
line trim(a.x, c.z)->t.u;
=> 1 [LineText { source: Column(PlaceText { set: \"a\", set_place: 151, column: \"x\", column_place: 153 }), target: \
PlaceText { set: \"t\", set_place: 158, column: \"u\", column_place: 160 } }, LineText { source: Literal(\"q\\\"\\\\ \
aé€😀\"), target: PlaceText { set: \"t\", set_place: 249, column: \"v\", column_place: 251 } }, LineText { source: Call \
{ name: \"trim\", place: 259, args: Items { items: [PlaceText { set: \"a\", set_place: 264, column: \"x\", \
column_place: 266 }, PlaceText { set: \"c\", set_place: 269, column: \"z\", column_place: 271 }] } }, target: \
PlaceText { set: \"t\", set_place: 275, column: \"u\", column_place: 277 } }] \
[RuleText { premise: Items { items: [AtomText { set: \"a\", place: 168, cells: Items { items: [Name { name: \"p\", \
place: 170 }, Name { name: \"q\", place: 173 }] } }, AtomText { set: \"c\", place: 177, cells: Items { items: [Name { \
name: \"p\", place: 179 }] } }] }, derived: Items { items: [DerivedText { name: \"r\", place: 188, call: \"f\", \
call_place: 192, args: Items { items: [Name { name: \"p\", place: 194 }, Name { name: \"q\", place: 197 }] } }] }, \
conclusion: Items { items: [AtomText { set: \"t\", place: 203, cells: Items { items: [Name { name: \"r\", place: 205 \
}, Literal(\"\")] } }, AtomText { set: \"t\", place: 213, cells: Items { items: [Name { name: \"q\", place: 215 }, \
Name { name: \"n\", place: 218 }] } }] } }] []

mapping 1; source { set a { x; set a { x; set a { x; set a { x; set a { x; set a { x; set a { x; \
set a { x; set a { x; set a { x; set a { x; set a { x; set a { x; set a { x; set a { x; set a { x; set a { x;
=> TooDeep { place: 196 }

mapping 2; source { set a { x, y; ref (y) -> b (z) optional; } set b { z; } } target { set t { u; } }
only a.x filled; line a.x -> t.u; only b.z numeric;
=> 2 [LineText { source: Column(PlaceText { set: \"a\", set_place: 124, column: \"x\", column_place: 126 }), \
target: PlaceText { set: \"t\", set_place: 131, column: \"u\", column_place: 133 } }] [] [OnlyText { place: \
PlaceText { set: \"a\", set_place: 107, column: \"x\", column_place: 109 }, test: \"filled\", test_place: 111 \
}, OnlyText { place: PlaceText { set: \"b\", set_place: 141, column: \"z\", column_place: 143 }, test: \
\"numeric\", test_place: 145 }]

mapping 1; source { set a { x; ref (x) -> b (y) optional; } set b { y; } } target { }
=> At { place: 48, kind: Expected }

mapping 1; source { set a { x; } } target { } only a.x filled;
=> At { place: 46, kind: Expected }

mapping 3; source { set a { x, y; dep (x) -> (y); } } target { } only a.x filled;
=> 3 [] [] [OnlyText { place: PlaceText { set: \"a\", set_place: 70, column: \"x\", column_place: 72 }, test: \
\"filled\", test_place: 74 }]

mapping 1; source { } target { set a { x, y; key (x); dep (x) -> (y); } }
=> At { place: 54, kind: Expected }

mapping 2; source { set a { x, y; dep (x) -> (y); } } target { }
=> At { place: 34, kind: Expected }

mapping 4;
=> At { place: 8, kind: Expected }";

/// The version, the lines, the rules and the conditions of a mapping text, or its fault.
pub fn read(alloc: Global, text: &str) -> Result<String, AllocError> {
    match read_mapping(alloc, text.as_bytes()) {
        Ok(said) => format!(in alloc;
            "{} {:?} {:?} {:?}",
            said.version,
            said.lines.items(),
            said.rules.items(),
            said.conditions.items()
        ),
        Err(fault) => format!(in alloc; "{fault:?}"),
    }
}

/// Mapping texts and their sets as they are printed, which are then read and printed again.
pub const PRINTED: &str =
    "mapping 1;source{set unit{uname,place;set staff{sname;}ref(place)->town(tname);key(uname);}}target{}
=> mapping 1;
source {
set unit {
  uname, place;
  key (uname);
  ref (place) -> town (tname);
  set staff {
    sname;
  }
}
}
target {
}

mapping 1;
source {
set unit {
  uname, place;
  key (uname);
  ref (place) -> town (tname);
  set staff {
    sname;
  }
}
}
target {
}
=> mapping 1;
source {
set unit {
  uname, place;
  key (uname);
  ref (place) -> town (tname);
  set staff {
    sname;
  }
}
}
target {
}

mapping 1; // all that a text may have
source { set a { x, y; key (x); set b { w; } ref (y) -> c (z); } set c { z; } }
target { set t { u, v; } }
line a.x -> t.u;
rule a(p, q), c(p) where r = f(p, q) -> t(r, \"\"), t(q, n);
line \"q\\\"\\\\ aé€😀\" -> t.v;
line trim(a.x, c.z)->t.u;
=> mapping 1;
source {
set a {
  x, y;
  key (x);
  ref (y) -> c (z);
  set b {
    w;
  }
}
set c {
  z;
}
}
target {
set t {
  u, v;
}
}

mapping 1;
source {
set a {
  x, y;
  key (x);
  ref (y) -> c (z);
  set b {
    w;
  }
}
set c {
  z;
}
}
target {
set t {
  u, v;
}
}
=> mapping 1;
source {
set a {
  x, y;
  key (x);
  ref (y) -> c (z);
  set b {
    w;
  }
}
set c {
  z;
}
}
target {
set t {
  u, v;
}
}

mapping 2;source{set order{number,customer;ref(customer)->customer(name)optional;}set customer{name;}}target{}
=> mapping 2;
source {
set order {
  number, customer;
  ref (customer) -> customer (name) optional;
}
set customer {
  name;
}
}
target {
}

mapping 2;
source {
set order {
  number, customer;
  ref (customer) -> customer (name) optional;
}
set customer {
  name;
}
}
target {
}
=> mapping 2;
source {
set order {
  number, customer;
  ref (customer) -> customer (name) optional;
}
set customer {
  name;
}
}
target {
}

mapping 3;source{}target{set addr{who,town,zip;ref(zip)->area(zip);dep(zip)->(town,who);set note{line,text;dep(line)->(text);}
dep(town)->(town);key(who);}set area{zip;}}
=> mapping 3;
source {
}
target {
set addr {
  who, town, zip;
  key (who);
  dep (zip) -> (town, who);
  dep (town) -> (town);
  ref (zip) -> area (zip);
  set note {
    line, text;
    dep (line) -> (text);
  }
}
set area {
  zip;
}
}

mapping 3;
source {
}
target {
set addr {
  who, town, zip;
  key (who);
  dep (zip) -> (town, who);
  dep (town) -> (town);
  ref (zip) -> area (zip);
  set note {
    line, text;
    dep (line) -> (text);
  }
}
set area {
  zip;
}
}
=> mapping 3;
source {
}
target {
set addr {
  who, town, zip;
  key (who);
  dep (zip) -> (town, who);
  dep (town) -> (town);
  ref (zip) -> area (zip);
  set note {
    line, text;
    dep (line) -> (text);
  }
}
set area {
  zip;
}
}";

/// A mapping text with the sets of one as they are printed.
pub fn printed(alloc: Global, text: &str) -> Result<String, AllocError> {
    let Ok(said) = read_mapping(alloc, text.as_bytes()) else {
        return Err(AllocError);
    };
    let source = print_trees(alloc, said.source.items())?;
    let target = print_trees(alloc, said.target.items())?;
    let version = said.version;
    format!(in alloc; "mapping {version};\nsource {{\n{source}}}\ntarget {{\n{target}}}")
}

/// Texts with their tokens or their first fault.
pub const TOKENS: &str = "a1 -> \"x\\\"\" 07 // end
=> [Token { start: 0, end: 2, kind: Word }, \
Token { start: 3, end: 5, kind: Mark }, Token { start: 6, end: 11, kind: Str }, Token { start: 12, end: 14, kind: Number }]

a #
=> At { place: 2, kind: Character }

a /b
=> At { place: 2, kind: Character }

a /
=> At { place: 3, kind: Ended }

a - b
=> At { place: 2, kind: Character }

\"ab
=> At { place: 3, kind: Ended }

\"a\\n\"
=> At { place: 3, kind: Character }";

/// The tokens of a text, or its first fault.
pub fn tokens_of(alloc: Global, text: &str) -> Result<String, AllocError> {
    match tokens(alloc, text.as_bytes()) {
        Ok(found) => format!(in alloc; "{found:?}"),
        Err(fault) => format!(in alloc; "{fault:?}"),
    }
}
