//! The demo files: a mapping from departments, employees and telephones to units with their staff and to numbers, and rows for
//! so many employees.
//!
//! `demo_files` gives exactly the files of specs/Demo, byte for byte.
#![tactic(auto)]

mod files;
mod mapping;
mod rows;

pub use files::{EMPLOYEES, demo_files};
