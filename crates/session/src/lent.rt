// A session in lent words and bytes, which is only read.
#[derive(Clone, Copy)]
pub struct LentSession<'s> {
    pub words: &'s [u32],
    pub bytes: &'s [u8],
}
