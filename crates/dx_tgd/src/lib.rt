//! Rules: their matches, and the canonical instance.
//!
//! `exported` gives the variables that a rule exports, ascending; `match_rows` exactly the rows of a rule: the exported texts
//! of its matches, ascending and each once, with derived variables computed by the host's closure. `canonical_plain` gives the
//! rows of all rules and an instance with exactly the facts of the canonical instance, or tells that its cells, counted
//! for each match, pass a limit, before memory is spent on them. All are the notions of `dx_model`'s specs/Rules.
//! The law `nulls_have_places`: each null of the canonical instance names a rule and a place that are there.
//!
//! Matches are rows of numbers from beginning to end (`found`, `RuleMatches`); a `Tuple` lends the texts for which such a row
//! stands, and `matches_of` copies them. `Found::in_order` gives such rows the order of their texts, and a `Builder` collects them
//! for the tables of an instance. The other calls on rules are named here too: closing a rule, printing it, and whether an
//! instance satisfies rules, keys and links.
#![tactic(auto)]

mod builder;
mod building;
mod counting;
mod fault;
mod found;
mod laws;
mod made;
mod matching;
mod plain;
mod planned;
mod planning;
mod rule_matches;
mod source;
mod texts;
mod tuple;
mod variables;

pub use builder::Builder;
pub use dx_closing::{CloseFault, close};
pub use dx_holds::{Room, keys_hold, links_hold, satisfied};
pub use dx_rule_text::print_rule;
pub use fault::CanonFault;
pub use found::Found;
pub use laws::nulls_have_places;
pub use made::Made;
pub use matching::match_rows;
pub use plain::canonical_plain;
pub use rule_matches::RuleMatches;
pub use texts::matches_of;
pub use tuple::Tuple;
pub use variables::exported;
