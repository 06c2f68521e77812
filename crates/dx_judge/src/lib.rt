//! The verdict on an instance that somebody else made: whether it is a target of given rows under given rules, and how good a one.
//!
//! `judge` answers that the instance is no solution, with the first reason (a rule and a place, two facts that a key forbids, or a
//! fact that a link leaves alone); that it is a solution, with another into which it has no homomorphism; that it is universal,
//! with an endomorphism and a fact that its image lacks; or that it is universal and a core (specs/Verdicts). Or the canonical
//! cells pass the limit.
//!
//! The rules are tried place by place: what a rule says at a place, with nulls for its existential variables, moves into the
//! instance or does not (`opening`). Keys, dependencies and links are those of `dx_fails`. A solution is universal exactly if it
//! maps into the chased canonical instance (`universal_exactly` of `dx_model`): facts without nulls are looked up, and blocks of
//! nulls are searched for one by one (`mapping`). Both ask the solver of `dx_solver` (`asking`), over rows in which the columns
//! with many values stand first (`turning`). It is a core if its reduction has all of its facts.
//!
//! Laws (specs/Laws): each instance of the target's schema has a verdict, and no two of different kinds; what a verdict says; the
//! members of an instance count alone.
#![tactic(auto)]

mod asking;
mod fault;
mod judging;
mod laws;
mod mapping;
mod missing;
mod moving;
mod opening;
mod reasons;
mod saying;
mod turning;
mod verdict;

pub use fault::JudgeFault;
pub use judging::judge;
pub use laws::{each_has_one_verdict, members_are_judged, solutions_are_received, verdicts_say};
pub use verdict::{Verdict, Why};
