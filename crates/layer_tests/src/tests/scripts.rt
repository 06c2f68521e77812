// Scripts as texts.
use dx_script_text::{print_script, read_script};
use std::alloc::{AllocError, Global};

/// Scripts, which are printed as they were read: a column without a line; a rule that exports nothing; two rules, the first over two
/// linked sets; a conversion; a rule whose matches are kept unless another has them; texts with quotes, and the greatest number.
/// Then texts that are none, and the first fault of each: numbers have no leading zeros, and an end; a name has a character, and ends;
/// what is kept are matches of the step's own rule; columns run from 0 without a gap.
pub const SCRIPTS: &str = "CREATE TABLE target.\"person\" (\"name\" TEXT, \"phone\" TEXT);
CREATE TABLE m0 AS SELECT DISTINCT a0.\"name\" AS c0 FROM source.\"emp\" AS a0;
INSERT INTO target.\"person\" SELECT m.c0, SKOLEM(0, 0, m.place) FROM m0 AS m;
=> CREATE TABLE target.\"person\" (\"name\" TEXT, \"phone\" TEXT);
CREATE TABLE m0 AS SELECT DISTINCT a0.\"name\" AS c0 FROM source.\"emp\" AS a0;
INSERT INTO target.\"person\" SELECT m.c0, SKOLEM(0, 0, m.place) FROM m0 AS m;

CREATE TABLE target.\"site\" (\"code\" TEXT);
CREATE TABLE m0 AS SELECT DISTINCT 1 FROM source.\"emp\" AS a0;
INSERT INTO target.\"site\" SELECT 'main' FROM m0 AS m;
=> CREATE TABLE target.\"site\" (\"code\" TEXT);
CREATE TABLE m0 AS SELECT DISTINCT 1 FROM source.\"emp\" AS a0;
INSERT INTO target.\"site\" SELECT 'main' FROM m0 AS m;

CREATE TABLE target.\"unit\" (\"#id\" TEXT, \"uname\" TEXT);
CREATE TABLE target.\"staff\" (\"#up\" TEXT, \"sname\" TEXT);
CREATE TABLE m0 AS SELECT DISTINCT a0.\"name\" AS c0, a0.\"dept\" AS c1 FROM source.\"emp\" AS a0, source.\"dept\" AS a1 WHERE a0.\"dept\" = a1.\"dname\";
CREATE TABLE m1 AS SELECT DISTINCT a0.\"dname\" AS c0 FROM source.\"dept\" AS a0;
INSERT INTO target.\"staff\" SELECT SKOLEM(0, 0, m.place), m.c0 FROM m0 AS m;
INSERT INTO target.\"unit\" SELECT SKOLEM(0, 0, m.place), m.c1 FROM m0 AS m;
INSERT INTO target.\"unit\" SELECT SKOLEM(1, 0, m.place), m.c0 FROM m1 AS m;
=> CREATE TABLE target.\"unit\" (\"#id\" TEXT, \"uname\" TEXT);
CREATE TABLE target.\"staff\" (\"#up\" TEXT, \"sname\" TEXT);
CREATE TABLE m0 AS SELECT DISTINCT a0.\"name\" AS c0, a0.\"dept\" AS c1 FROM source.\"emp\" AS a0, source.\"dept\" AS a1 WHERE a0.\"dept\" = a1.\"dname\";
CREATE TABLE m1 AS SELECT DISTINCT a0.\"dname\" AS c0 FROM source.\"dept\" AS a0;
INSERT INTO target.\"staff\" SELECT SKOLEM(0, 0, m.place), m.c0 FROM m0 AS m;
INSERT INTO target.\"unit\" SELECT SKOLEM(0, 0, m.place), m.c1 FROM m0 AS m;
INSERT INTO target.\"unit\" SELECT SKOLEM(1, 0, m.place), m.c0 FROM m1 AS m;

CREATE TABLE m0 AS SELECT DISTINCT \"trim\"(a0.\"name\") AS c0 FROM source.\"emp\" AS a0;
=> CREATE TABLE m0 AS SELECT DISTINCT \"trim\"(a0.\"name\") AS c0 FROM source.\"emp\" AS a0;

CREATE TABLE k0 AS SELECT * FROM m0 AS m WHERE NOT EXISTS (SELECT * FROM m1 AS n WHERE n.c0 = m.c0);
=> CREATE TABLE k0 AS SELECT * FROM m0 AS m WHERE NOT EXISTS (SELECT * FROM m1 AS n WHERE n.c0 = m.c0);

INSERT INTO target.\"t\" SELECT 'it''s', '', SKOLEM(0, 4294967295, m.place), m.c0 FROM k0 AS m;
=> INSERT INTO target.\"t\" SELECT 'it''s', '', SKOLEM(0, 4294967295, m.place), m.c0 FROM k0 AS m;

DROP TABLE m0;
=> At { place: 0, kind: Expected }

/
=> At { place: 0, kind: Character }

CREATE TABLE m007 AS
=> At { place: 13, kind: Expected }

CREATE TABLE m4294967296 AS
=> At { place: 13, kind: Expected }

CREATE TABLE target.\"\" (
=> At { place: 21, kind: Character }

CREATE TABLE target.\"a
=> At { place: 22, kind: Ended }

CREATE TABLE k1 AS SELECT * FROM m2 AS m
=> At { place: 33, kind: Expected }

CREATE TABLE m0 AS SELECT DISTINCT a0.\"x\" AS c1
=> At { place: 45, kind: Expected }";

/// A script that a text says, printed without its last line feed, or the text's fault.
pub fn printed(alloc: Global, text: &str) -> Result<String, AllocError> {
    match read_script(alloc, text.as_bytes()) {
        Ok(script) => String::from_str(alloc, print_script(alloc, &script)?.as_str().trim_end()),
        Err(fault) => format!(in alloc; "{fault:?}"),
    }
}
