// What occurrences show: the variables of their columns, and the term of a choice of them.
ghost use Rattle.std.specs.Prelude.{◌≡◌, [], IfOk, eqb, map};
ghost use Rattle.std.specs.List.{list_any};
ghost use Rattle.dx_lines.specs.Ways.{is_of, named_columns, term_by, variable_at as variable_at_of, variable_in as variable_in_of};
ghost use Rattle.dx_ways.specs.Tried.{agrees_in as agrees_in_of, column_of, has_tables as has_tables_of, is_like as is_like_of, one_or_none, with_unlike};

use dx_base::Items;
use dx_lines::{Origin, Place, Term};
use dx_logical::Occurrence;
use std::alloc::{AllocError, Global};
use std::slice::from_ref;

/// The columns that a line's source names.
pub fn named(source: &Origin) -> &[Place]
    ensures { result.now ≡ named_columns source.now }
{
    match source {
        Origin::Column(place) => from_ref(place),
        Origin::Literal(_) => &[],
        Origin::Call { args, .. } => args.items(),
    }
}

/// The variable that stands in a column at an occurrence; 0 if there is no such column.
fn variable_in(occurrence: &Occurrence, column: u32) -> u32
    ensures { result ≡ variable_in_of occurrence.now column }
{
    let variables = occurrence.variables.items();
    variables.get(column as usize).copied().unwrap_or(0)
}

/// The variables that stand in a column, each once.
pub fn column_variables(
    alloc: Global,
    occurrences: &[Occurrence],
    place: Place,
) -> Result<Vec<u32>, AllocError>
    ensures { IfOk result (λ ys. ys.items ≡ with_unlike eqb [] (column_of place occurrences.now)) }
{
    let mut variables = Vec::new(alloc);
    for occurrence in occurrences {
        if occurrence.table == place.table {
            let variable = variable_in(occurrence, place.column);
            if !variables.contains(&variable) {
                variables.push(variable)?;
            }
        }
    }
    Ok(variables)
}

/// Whether the column is no column of the first occurrence's table, or the second shows the same in it.
fn agrees_in(one: &Occurrence, other: &Occurrence, place: Place) -> bool
    ensures { result ≡ agrees_in_of one.now other.now place }
{
    place.table != one.table || variable_in(one, place.column) == variable_in(other, place.column)
}

/// Whether two occurrences are of one table and show the same in those of these columns that are the table's.
fn is_like(places: &[Place], one: &Occurrence, other: &Occurrence) -> bool
    ensures { result ≡ is_like_of places.now one.now other.now }
{
    one.table == other.table && places.iter().all(|place| agrees_in(one, other, *place))
}

/// Whether one of the occurrences is like this one.
fn has_like(places: &[Place], found: &[&Occurrence], occurrence: &Occurrence) -> bool
    ensures { result ≡ list_any (λ o. is_like_of places.now o occurrence.now) (map (λ r. r.now) found.now) }
{
    found.iter().any(|one| is_like(places, one, occurrence))
}

/// The occurrences of which none is like an earlier one.
pub fn unlike<'a>(
    alloc: Global,
    occurrences: &'a [Occurrence],
    places: &[Place],
) -> Result<Vec<&'a Occurrence>, AllocError>
    ensures { IfOk result (λ os. map (λ r. r.now) os.items ≡ with_unlike (is_like_of places.now) [] occurrences.now) }
{
    let mut found = Vec::new(alloc);
    for occurrence in occurrences {
        if !has_like(places, &found, occurrence) {
            found.push(occurrence)?;
        }
    }
    Ok(found)
}

/// Whether a choice has an occurrence of the table.
pub fn has_table(choice: &[&Occurrence], table: u32) -> bool
    ensures { result ≡ list_any (is_of table) (map (λ r. r.now) choice.now) }
{
    choice.iter().any(|occurrence| occurrence.table == table)
}

/// Whether a choice has an occurrence of each table that these columns name.
pub fn has_tables(choice: &[&Occurrence], places: &[Place]) -> bool
    ensures { result ≡ has_tables_of (map (λ r. r.now) choice.now) places.now }
{
    places.iter().all(|place| has_table(choice, place.table))
}

/// The variable that stands in a column at the occurrence that is chosen for its table.
fn variable_at(choice: &[&Occurrence], place: Place) -> u32
    ensures { result ≡ variable_at_of (map (λ r. r.now) choice.now) place }
{
    for occurrence in choice {
        if occurrence.table == place.table {
            return variable_in(occurrence, place.column);
        }
    }
    0
}

/// The variables that stand in these columns.
fn variables_at(
    alloc: Global,
    choice: &[&Occurrence],
    places: &[Place],
) -> Result<Vec<u32>, AllocError>
    ensures { IfOk result (λ xs. xs.items ≡ map (variable_at_of (map (λ r. r.now) choice.now)) places.now) }
{
    let mut variables = Vec::new(alloc);
    for place in places {
        variables.push(variable_at(choice, *place))?;
    }
    Ok(variables)
}

/// The term that a line's source gives under a choice, if it isn't a literal.
pub fn term_of(
    alloc: Global,
    source: &Origin,
    choice: &[&Occurrence],
) -> Result<Option<Term>, AllocError>
    ensures { IfOk result (λ t. one_or_none t ≡ term_by source.now (map (λ r. r.now) choice.now)) }
{
    match source {
        Origin::Column(place) => Ok(Some(Term::Var(variable_at(choice, *place)))),
        Origin::Literal(_) => Ok(None),
        Origin::Call { code, args } => Ok(Some(Term::Call {
            code: *code,
            args: Items::from_vec(variables_at(alloc, choice, args.items())?),
        })),
    }
}
