// The words of an open entry. A scope's mark holds the row of the scope as NAME and the function around it as FIRST.
pub const TAG: u32 = 0;

pub const NAME: u32 = 1;

pub const FIRST: u32 = 2;

pub const SECOND: u32 = 3;

pub const SLOT: u32 = 4;
