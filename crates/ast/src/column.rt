// The columns of a sheet row.
pub const KIND: u32 = 0;

// The next row of the same child list, or 0.
pub const NEXT: u32 = 1;

// The first row of the row's own child list, or 0.
pub const CHILD: u32 = 2;

pub const FILE: u32 = 3;

pub const LINE: u32 = 4;

pub const COLUMN: u32 = 5;

// What A and B hold depends on the kind. Of a row that declares or names something, A is the name.
pub const A: u32 = 6;

pub const B: u32 = 7;
