// The words of a node.
pub const BEFORE: u32 = 0;

pub const KEY: u32 = 1;

pub const ONE: u32 = 2;

pub const TWO: u32 = 3;
