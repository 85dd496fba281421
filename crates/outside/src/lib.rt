// What stands outside a sheet, in lent words: the names of the outermost scope and the class records there. Of the layout of the words other
// crates know two things: where the rows of names are (outermost opens them), and how far it is from name to name (name_rows steps on).
#![tactic(auto)]

pub mod layout;
pub mod plain;
pub mod recorded_names;
pub mod records;
