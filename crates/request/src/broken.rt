// What breaks a request, in the order in which it is asked.
#[derive(Clone, Copy, Debug, PartialEq, Eq)]
pub enum Broken {
    NoRow,
    Verb,
    Flags,
    X,
    Y,
    // A body that the verb does not take, or takes only shorter.
    Bodies,
    // The input ends inside the request. A header does not tell it.
    CutOff,
}
