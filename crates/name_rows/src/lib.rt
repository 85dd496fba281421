// Rows that tell the names of a class: a field by its slot, a method by its function.
#![tactic(auto)]

pub mod copied;
pub mod put;
