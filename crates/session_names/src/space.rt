// The words in which the listed names of a session are told apart.
ghost use Rattle.std.specs.Prelude.{◌≡◌, replicate};

use ast::limit;

// How many words the starts of the names take, with the place past the last.
pub const STARTS: usize = limit::NAMES + 1;

// How many places their index has.
pub const PLACES: usize = name_index::PLACES;

// Words for the starts of the names, and for their index, in which no name is entered yet.
#[derive(Drop)]
pub struct NameSpace<'a> {
    pub starts: &'a mut [u32; STARTS],
    pub index: &'a mut [u32; PLACES],
    ghost empty: { index.now ≡ replicate 2048 0 },
}
