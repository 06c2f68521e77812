// The columns that places name.
ghost use Rattle.std.specs.Prelude.{map};
ghost use Rattle.dx_line_text.specs.Answers.{AnswersOrFault, ReadsOrMemory};
ghost use Rattle.dx_line_text.specs.Naming.{place_fault, place_of_text, places_fault};

use dx_base::Items;
use dx_base::limits::TABLES;
use dx_lines::Place;
use dx_schema::Schema;
use dx_schema_text::PlaceText;
use dx_tokens::{TextFault, TextKind};
use std::alloc::Global;

/// The column that a place names. Refused is a set that isn't there, then a column that isn't there.
pub fn read_place(schema: &Schema, place: &PlaceText) -> Result<Place, TextFault>
    ensures { AnswersOrFault result (place_of_text schema.now place.now) (place_fault schema.now place.now) }
{
    // What holds of the tables of each schema.
    prove!(schema.tables() as u64 <= TABLES);
    let Some(table) = schema.table_named(&place.set) else {
        return Err(TextFault::At {
            place: place.set_place,
            kind: TextKind::UnknownName,
        });
    };
    let Some(column) = schema.column_named(table, &place.column) else {
        return Err(TextFault::At {
            place: place.column_place,
            kind: TextKind::UnknownName,
        });
    };
    Ok(Place { table, column })
}

/// The columns that places name. Refused is the first that `read_place` refuses.
pub fn read_places(
    alloc: Global,
    schema: &Schema,
    places: &[PlaceText],
) -> Result<Items<Place>, TextFault>
    ensures { ReadsOrMemory result (map (place_of_text schema.now) places.now) (places_fault schema.now places.now) }
{
    let mut columns = Items::new(alloc);
    for place in places {
        columns.push(read_place(schema, place)?)?;
    }
    Ok(columns)
}
