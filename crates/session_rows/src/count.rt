// Which of the five counts that an entry's row has.
use session::layout;

pub const NAMES: usize = layout::NAMES - layout::COUNTS;

pub const NAME_BYTES: usize = layout::NAME_BYTES - layout::COUNTS;

pub const DECLARATIONS: usize = layout::DECLARATIONS - layout::COUNTS;

pub const CLASSES: usize = layout::CLASSES - layout::COUNTS;

pub const MEMBERS: usize = layout::MEMBERS - layout::COUNTS;
