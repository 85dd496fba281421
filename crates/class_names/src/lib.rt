// Which names a class has, and which classes have children.
#![tactic(auto)]

pub mod held;
pub mod marks;
pub mod tables;
