// The words of a session as what else is made of them reads them: its declarations, classes and members.
ghost use Rattle.session_outside.specs.Readable.{Readable};

// The words of a session whose rows can be read: they pass question 23, but for the number of names on show.
#[derive(Clone, Copy)]
pub struct SessionRuns<'s> {
    pub words: &'s [u32],
    ghost readable: { Readable words.now },
}
