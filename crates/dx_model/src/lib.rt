//! The book of definitions: the types of data exchange, its notions and their laws.
//!
//! Read specs/ in this order: `Values`, `Instances`, `Tables`, `Rules`, `Solutions` (rules, matches, solutions),
//! `Fitting` (rules that fit two schemas, or the widths of tables), `Chase` (forced values, key steps, clashes), `Covers`
//! (cell maps, covered places, the uncovered part and the cover fold), `Blocks` (connected nulls, closed parts, needed
//! facts, reducts), `Following` (when a rule follows from others, pruned lists, frozen premises), `Tuples` (tuples whose
//! texts lie one after the other), `Laws`. Each law is the clause of a public function with an empty body (src/laws.rt):
//! the rows of a rule exist and are one; the canonical instance has exactly what the rules say at their places; what is
//! left of its uncovered part after the forced map and a reduction to a core is a universal solution if keys hold in it;
//! a list of rules has at most one pruned list. The calls of `Value`, `Row` and `Fact` compare, copy and grow, exactly as
//! the notions say.
#![tactic(auto)]

mod covers;
mod facts;
mod laws;
mod matches;
mod row;
mod rules;
mod tables;
mod tuples;
mod values;

pub use covers::{CellMap, Cover, Meeting};
pub use facts::{Fact, NullPair, are_same};
pub use laws::{
    atoms_move, before_is_order, block_is_closed, block_serves, canonical_fits,
    canonical_is_universal, canonical_maps_into, canonical_moves_into, canonical_satisfies,
    cell_maps_carry, chased_is_universal, core_is_universal, core_of_needed, cover_fold_uncovers,
    exported_exactly, factors_through_forced, folds_onto_uncovered, follows_by_frozen,
    forced_map_is_one, ground_needed, keep_it, key_steps, keyed_instances, least_core_is_universal,
    least_covers, maps_join, members_are, members_count, needed_stays, no_solution, nulls_stay,
    one_ascending_list, one_list_of_rows, one_pruned_list, onto_core, part_tells, parts_join,
    reduced_is_universal, reduct_of_reduct, rows_of_all_rules, spare_one, take_out,
    universal_exactly, widths_of_atoms,
};
pub use matches::{Matches, Places};
pub use row::Row;
pub use rules::{Atom, Cell, Derived, Rule, copy_cell, variable_cells};
pub use tables::{Dep, Key, Link};
pub use tuples::Tuples;
pub use values::{NullId, Value, copy_value};
