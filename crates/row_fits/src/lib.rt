// What question 3 asks of one row.
#![tactic(auto)]

pub mod known;
pub mod row;
