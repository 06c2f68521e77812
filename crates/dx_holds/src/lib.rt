//! Whether an instance satisfies keys, dependencies, links and rules. None of these calls takes memory.
//!
//! `keys_hold` and `links_hold` are true exactly if the facts of an instance satisfy the keys and the dependencies, or the
//! links, of its schema (`KeysHold`, `LinksHold` of `dx_model`'s specs/Tables). Rows are looked for by the first column of a
//! key, of a dependency's left, or of those that a link leads to, that has an index: with it they need not go through all rows
//! for each row.
//!
//! `satisfied` is true exactly if each tuple of a rule's places has values for the existential variables with which all of the
//! conclusion is in the target (`PlacesSatisfied` of specs/Rules). It searches in a `Room` that was reserved for rules before
//! (specs/Rooms): existential variables get cells of the target as values, atom by atom (specs/Searching). After an atom the
//! atoms that share a variable with it come next, and once they are done their values stay: so parts of a conclusion that share
//! no variable, or none but known ones, are tried one after the other and never in all combinations. Rows are looked for by the
//! first cell that is known: a text, or an existential variable that has a value; an index of its column serves here too.
#![tactic(auto)]

mod columns;
mod keys;
mod links;
mod matching;
mod question;
mod room;
mod searching;
mod texts;

pub use keys::keys_hold;
pub use links::links_hold;
pub use room::{Room, satisfied};
