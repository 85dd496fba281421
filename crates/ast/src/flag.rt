// What column B holds, by kind, where it is no row or number.
pub const MUTABLE: u32 = 1;

// A let with 2 + g is a constant at global g.
pub const FIRST_CONSTANT: u32 = 2;

pub const UNIT_FUNCTION: u32 = 1;

pub const IMPORT_ALL: u32 = 1;
