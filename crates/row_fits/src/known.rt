// The words of the table of what is known of a row when it is reached.
pub const PARENT: u32 = 0;

pub const DEPTH: u32 = 1;

pub const UNIT: u32 = 2;

pub const FUNCTION: u32 = 3;

pub const CLASS: u32 = 4;

// The state of the child list that the row is in, before it.
pub const STATE: u32 = 5;

// Of a class: the row that declares it, or 0.
pub const DECLARED: u32 = 7;
