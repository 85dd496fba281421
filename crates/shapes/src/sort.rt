// The sort of a row among children, by its kind.
#[derive(Clone, Copy, Debug, PartialEq, Eq)]
pub enum Sort {
    // The header's. No child list has it.
    Header = 0,
    Unit = 1,
    Import = 2,
    Class = 3,
    Function = 4,
    FunctionExport = 5,
    ConstantExport = 6,
    Listed = 7,
    Field = 8,
    Parameter = 9,
    Pair = 10,
    Statement = 11,
    Expression = 12,
}
