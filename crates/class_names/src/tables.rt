// What the answer rows are read from: a sheet, the words from outside, and what the walk stored.

// The sheet, the words from outside, the walk's results by row, and the nodes of its lists.
#[derive(Clone, Copy)]
pub struct Tables<'a> {
    pub sheet: &'a [u32],
    pub outside: &'a [u32],
    pub results: &'a [u32],
    pub nodes: &'a [u32],
}
