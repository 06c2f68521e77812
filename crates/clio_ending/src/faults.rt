// What is wrong with a query, and with a second mapping.
use clio_accept::MapFault;
use dx_schema_text::TextKind;

/// What is wrong with a query.
#[derive(Drop)]
pub enum QueryFault {
    /// There is no file `query.clio`.
    Absent,
    /// The first fault of its text, at this byte.
    Text { place: u64, kind: TextKind },
}

/// What is wrong with the second of two mappings, or with the two together.
#[derive(Drop)]
pub enum OtherFault {
    /// There is no file `other.clio`.
    Absent,
    /// The text of `other.clio` is not accepted.
    Mapping(MapFault),
    /// The mappings don't have the same source sets and the same target sets.
    Schemas,
    /// One of the mappings has a condition on its rows.
    Conditions,
    /// A rule has a conversion: the first such of the first mapping or, if that has none, of the second.
    Derived { second: bool, rule: u32 },
}
