// The rules of columns A and B.
#[derive(Clone, Copy, Debug, PartialEq, Eq)]
pub enum Rule {
    Zero,
    Any,
    Bit,
    Name,
    NameOrZero,
    // The number of globals at the start.
    Globals,
    UnitRow,
    FunctionRow,
    ClassRow,
    ClassRowOrZero,
    FunctionRowOrZero,
    // A global that exists at the start.
    Global,
    // What a let's B says.
    Mode,
}
