// The words of the outside, in rows of eight. Row 0 tells where the rows of names and of records end; names begin in row 1, records where names
// end. The names of fields and methods stand after them, where the records say.
pub const NAMES_END: u32 = 0;

pub const RECORDS_END: u32 = 1;

// The row of a name: what it means, by the code of an answer row.
pub const NAME: u32 = 0;

pub const CODE: u32 = 1;

pub const NUMBER: u32 = 2;

pub const MUTABLE: u32 = 3;

// The row of a record: its class, the name of the class, where its fields and methods begin and how many there are.
pub const CLASS: u32 = 0;

pub const CLASS_NAME: u32 = 1;

pub const FIELD: u32 = 2;

pub const FIELDS: u32 = 3;

pub const METHOD: u32 = 4;

pub const METHODS: u32 = 5;
