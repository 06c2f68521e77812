// The unfoldings of tables with optional links, and how many variants of a schema are too many.
use super::sets::schema;
use dx_candidates::kept;
use dx_logical::{Relation, unfoldings};
use std::alloc::{AllocError, Global};

/// A number, and sets: the unfoldings of the first set's table, if they are no more than that number. Of each occurrence
/// are told its table, its variables and its link. The link of an employee to a department is optional; it isn't; two are;
/// and too many; a link to a table that has an optional one; two optional ones, one behind the other; one of two unfoldings
/// is too wide; they are too many before.
pub const UNFOLDED: &str = "9 emp a b; optional b -> dept a | dept a c
=> 0[0, 1]/0; 0[0, 1]/0 1[1, 2]/0;

1 emp a b; ref b -> dept a | dept a c
=> 0[0, 1]/0 1[1, 2]/0;

4 a x y; optional x -> b p; optional y -> c p | b p | c p
=> 0[0, 1]/0; 0[0, 1]/0 2[1]/1; 0[0, 1]/0 1[0]/0; 0[0, 1]/0 1[0]/0 2[1]/1;

3 a x y; optional x -> b p; optional y -> c p | b p | c p
=> TooMany

4 a x y; optional y -> c p; ref x -> b p | b p; optional p -> c p | c p
=> 0[0, 1]/0 1[0]/0; 0[0, 1]/0 1[0]/0 2[1]/1; 0[0, 1]/0 1[0]/0 2[0]/0; 0[0, 1]/0 1[0]/0 2[0]/0 2[1]/1;

3 a x; optional x -> b x | b x; optional x -> c x | c x
=> 0[0]/0; 0[0]/0 1[0]/0; 0[0]/0 1[0]/0 2[0]/0;

2 a x; ref x -> b x; ref x -> b x; optional x -> b x | b x; ref x -> c x; ref x -> c x; ref x -> c x \
| c x; ref x -> d x; ref x -> d x; ref x -> d x | d x; ref x -> e x | e x
=> TooWide

1 a x; ref x -> b x; ref x -> b x; optional x -> b x | b x; ref x -> c x; ref x -> c x; ref x -> c x \
| c x; ref x -> d x; ref x -> d x; ref x -> d x | d x; ref x -> e x | e x
=> TooMany";

/// An unfolding: its occurrences.
fn shown(alloc: Global, relation: &Relation) -> Result<String, AllocError> {
    let mut all = String::new(alloc);
    for one in relation.occurrences.items() {
        let variables = one.variables.items();
        let shown = format!(in alloc; "{}{:?}/{}", one.table, variables, one.link)?;
        if !all.is_empty() {
            all.push_str(" ")?;
        }
        all.push_str(shown.as_str())?;
    }
    all.push_str(";")?;
    Ok(all)
}

/// Unfoldings, one after the other.
fn listed(alloc: Global, relations: &[Relation]) -> Result<String, AllocError> {
    let mut all = String::new(alloc);
    for relation in relations {
        if !all.is_empty() {
            all.push_str(" ")?;
        }
        all.push_str(shown(alloc, relation)?.as_str())?;
    }
    Ok(all)
}

/// The unfoldings of the first set's table, or why there are none.
pub fn unfolded(alloc: Global, text: &str) -> Result<String, AllocError> {
    let (room, sets) = text.split_once(" ").unwrap_or(("", ""));
    let room = room.parse::<u32>().unwrap_or(0);
    let schema = schema(alloc, sets)?;
    if schema.tables() == 0 {
        return Err(AllocError);
    }
    match unfoldings(alloc, &schema, 0, room) {
        Ok(relations) => listed(alloc, &relations),
        Err(fault) => format!(in alloc; "{fault:?}"),
    }
}

/// The source's sets of a mapping without lines: one with seven optional refs, and one with eight, so that the variants of
/// it and of the next are 257.
pub const LIMITS: &str =
    "a p q r s t u v; optional p -> b x; optional q -> b x; optional r -> b x; optional s -> b x; \
optional t -> b x; optional u -> b x; optional v -> b x | b x
=> 0 rules

a p q r s t u v; optional p -> b x; optional q -> b x; optional r -> b x; optional s -> b x; optional t -> b x; \
optional u -> b x; optional v -> b x; optional p q -> c x y | b x | c x y
=> TooMany(Limit { what: Variants, number: 256 })";

/// How many rules are kept of no lines from sets to a set, or why none are.
pub fn kept_of_none(alloc: Global, text: &str) -> Result<String, AllocError> {
    let source = schema(alloc, text)?;
    let target = schema(alloc, "b q")?;
    match kept(alloc, &[], &source, &target) {
        Ok(rules) => format!(in alloc; "{} rules", rules.len()),
        Err(fault) => format!(in alloc; "{fault:?}"),
    }
}
