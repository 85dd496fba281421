// The sizes of the scratch arrays of a walk, in words unless it says nodes. Routines that make the arrays take the sizes as const parameters, one for each array, as a
// const argument cannot be computed.

// The most rows of a sheet, which has a class for each, and of a small one.
pub const ROWS: usize = 2048;

pub const SMALL_ROWS: usize = 320;

// Eight words for each row: the results, and the copy of a sheet.
pub const SHEET: usize = 8 * ROWS;

pub const SMALL_SHEET: usize = 8 * SMALL_ROWS;

// How many names there are at most: of a plain sheet 1,048 of its list and nine from outside, of an entry into a session 2,072 and 1,048 visible ones.
pub const PLAIN_NAMES: usize = 1057;

pub const ENTRY_NAMES: usize = 3120;

// Open entries, of five words: three for each row, one for each name, and three more.
pub const PLAIN_ENTRIES: usize = 5 * (3 * ROWS + PLAIN_NAMES + 3);

pub const SMALL_PLAIN_ENTRIES: usize = 5 * (3 * SMALL_ROWS + PLAIN_NAMES + 3);

pub const ENTRIES: usize = 5 * (3 * ROWS + ENTRY_NAMES + 3);

pub const SMALL_ENTRIES: usize = 5 * (3 * SMALL_ROWS + ENTRY_NAMES + 3);

// The nodes that a small sheet may take, as those do of which half of the rows are identifiers; and a middle one, as those of 2,048 rows do of which a quarter are.
pub const SMALL_NODES: u32 = 3360;

pub const MIDDLE_NODES: u32 = 10752;

// Nodes, of four words: at most 21 for each row.
pub const NODE_WORDS: usize = 84 * ROWS;

pub const MIDDLE_NODE_WORDS: usize = 4 * MIDDLE_NODES as usize;

pub const SMALL_NODE_WORDS: usize = 4 * SMALL_NODES as usize;
