// The limits of what is accepted.
pub const ROWS: usize = 2048;

// Rows that can be lent over the pipe: answer rows, or those of a target.
pub const LENT_ROWS: u32 = 2048;

pub const DEPTH: u32 = 64;

// Globals that exist before the walk.
pub const GLOBALS: u32 = 1000000;

// Files are numbered below this.
pub const FILES: u32 = 262144;

pub const NAMES: usize = 1024;

// Bytes of the whole name list, with its ends; bytes of one name.
pub const LIST_BYTES: usize = 32768;

pub const NAME_BYTES: usize = 255;
