// The places of a session's words (crate session), as `u32` like those of an outside's.
use session::layout;

pub const LAID_COUNT: u32 = layout::DECLARATIONS as u32;

pub const CLASS_COUNT: u32 = layout::CLASSES as u32;

pub const MEMBER_COUNT: u32 = layout::MEMBERS as u32;

pub const LAID: u32 = layout::DECLARATION_ROWS as u32;

pub const LAID_WORDS: u32 = layout::DECLARATION_WORDS as u32;

pub const CLASSES: u32 = layout::CLASS_ROWS as u32;

pub const CLASS_WORDS: u32 = layout::CLASS_WORDS as u32;

pub const MEMBERS: u32 = layout::MEMBER_ROWS as u32;

pub const MEMBER_WORDS: u32 = layout::MEMBER_WORDS as u32;

pub const CODE: u32 = layout::CODE as u32;

pub const NUMBER: u32 = layout::NUMBER as u32;

pub const MUTABLE: u32 = layout::MUTABLE as u32;

pub const CLASS_NAME: u32 = layout::CLASS_NAME as u32;

pub const FIELDS: u32 = layout::FIELDS as u32;

pub const METHODS: u32 = layout::METHODS as u32;

pub const FUNCTION: u32 = layout::FUNCTION as u32;

pub const PARAMETERS: u32 = layout::PARAMETERS as u32;

// In an entry's walk earlier functions and classes have numbers that much higher, past all rows of its sheet.
pub const PAST_ROWS: u32 = 2048;
