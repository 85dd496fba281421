// The words of a row of the results.
pub const CODE: u32 = 0;

// The first value: of a class its parent, of a literal the function that it stands in.
pub const ONE: u32 = 1;

pub const TWO: u32 = 2;

// How far out a captured identifier is declared: kept in place of its second value, which is 0.
pub const DISTANCE: u32 = 2;

pub const THREE: u32 = 3;

// 1 if a method call hides the identifier.
pub const HIDDEN: u32 = 4;

// The local count of a function.
pub const LOCALS: u32 = 5;

// The last node of a function's captures, one more than its place.
pub const CAPTURES: u32 = 6;

// The same of a class's fields.
pub const FIELDS: u32 = 7;
