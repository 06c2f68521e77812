// Tests of the program's calls.
mod calls;
mod candidates;
mod conditions;
mod faults;
mod shipped;
