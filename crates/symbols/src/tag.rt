// What an open entry is: a mark, or a declaration.
pub const LOOP: u32 = 0;

pub const SCOPE: u32 = 1;

// A name that means nothing.
pub const NOTHING: u32 = 2;

pub const FUN: u32 = 3;

pub const CLASS: u32 = 4;

// A global known before the walk.
pub const GLOBAL: u32 = 5;

// A local or an argument.
pub const VARIABLE: u32 = 6;

// A let of a unit: a global numbered in the walk.
pub const TOPLEVEL: u32 = 7;
