// Fixed names that the resolver asks about.
pub const NULL: u32 = 22;

// The name of a constructor.
pub const INIT: u32 = 23;

pub const MAIN_UNIT: u32 = 24;

// The number of the last fixed name: the listed ones follow.
pub const LAST_FIXED: usize = 24;
