// How a session is laid out (specs/Words.antt): eight counts, then the rows of entries, declarations, classes and members, with room for as many as there may be.
use ast::{limit, name};

// The counts.
pub const GLOBALS: usize = 0;

pub const ENTRIES: usize = 1;

pub const SHOWN: usize = 2;

pub const NAMES: usize = 3;

pub const NAME_BYTES: usize = 4;

pub const DECLARATIONS: usize = 5;

pub const CLASSES: usize = 6;

pub const MEMBERS: usize = 7;

// The first of the five that the row of an entry has too: what they were after it.
pub const COUNTS: usize = NAMES;

// The largest number of globals and of entries, and of each of the five in their order.
pub const MOST_GLOBALS: usize = 1002048;

pub const MOST_ENTRIES: usize = 1000;

pub const MOST_DECLARATIONS: usize = 4096;

pub const MOST_CLASSES: usize = 1024;

pub const MOST_MEMBERS: usize = 8192;

pub const MOST: [usize; 5] = [
    limit::NAMES,
    limit::LIST_BYTES,
    MOST_DECLARATIONS,
    MOST_CLASSES,
    MOST_MEMBERS,
];

// Where the rows begin, and how many words each has.
pub const ENTRY_ROWS: usize = 8;

pub const ENTRY_WORDS: usize = 5;

pub const DECLARATION_ROWS: usize = ENTRY_ROWS + ENTRY_WORDS * MOST_ENTRIES;

pub const DECLARATION_WORDS: usize = 4;

pub const CLASS_ROWS: usize = DECLARATION_ROWS + DECLARATION_WORDS * MOST_DECLARATIONS;

pub const CLASS_WORDS: usize = 5;

pub const MEMBER_ROWS: usize = CLASS_ROWS + CLASS_WORDS * MOST_CLASSES;

pub const MEMBER_WORDS: usize = 3;

// The words of a declaration after its name.
pub const CODE: usize = 1;

pub const NUMBER: usize = 2;

pub const MUTABLE: usize = 3;

// The words of a class after its number.
pub const CLASS_NAME: usize = 1;

pub const PARENT: usize = 2;

pub const FIELDS: usize = 3;

pub const METHODS: usize = 4;

// The words of a method after its name; of a field they are not read.
pub const FUNCTION: usize = 1;

pub const PARAMETERS: usize = 2;

pub const MOST_PARAMETERS: usize = 2047;

// Past the last row.
pub const WORDS: usize = MEMBER_ROWS + MEMBER_WORDS * MOST_MEMBERS;

// The bytes of the fixed names, before those of the listed ones, and the bytes with room for all names.
pub const FIXED_BYTES: usize = 168;

pub const BYTES: usize = FIXED_BYTES + limit::LIST_BYTES;

// Functions and classes of an entry have numbers that much above those of the entry before it.
pub const ENTRY_NUMBERS: usize = 2048;

// A mark for each name number, fixed or listed, and for 0.
pub const MARKS: usize = name::LAST_FIXED + limit::NAMES + 1;
