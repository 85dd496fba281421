// The numbers of a header.
pub const VERB: usize = 0;

pub const SHEET: usize = 1;

pub const NAMES: usize = 2;

pub const FLAGS: usize = 3;

pub const X: usize = 4;

pub const Y: usize = 5;

pub const SECOND_SHEET: usize = 6;

pub const SECOND_NAMES: usize = 7;
