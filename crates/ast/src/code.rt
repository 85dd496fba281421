// The codes of answer rows.
ghost use Rattle.std.specs.Prelude.{◌≡◌};
ghost use Rattle.ast.specs.Code.{ReadsCode, code_number};

#[derive(Clone, Copy, Debug, PartialEq, Eq)]
pub enum Code {
    Nothing = 0,
    Fun = 1,
    Class = 2,
    Global = 3,
    Arg = 4,
    Local = 5,
    Captured = 6,
    True = 7,
    False = 8,
    // The first row of a function: its local count, captures and escapes.
    FunctionCounts = 20,
    // The first row of a class: its parent, whether it has children, its fields and methods.
    ClassCounts = 22,
    Field = 23,
    Method = 24,
}

impl Code {
    pub fn number(self) -> u32
        ensures { result ≡ code_number self }
    {
        self as u32
    }
}

// A number that is no code.
#[derive(Clone, Copy, Debug, PartialEq, Eq)]
pub struct UnknownCode(pub u32);

impl TryFrom<u32> for Code {
    type Error = UnknownCode;

    ghost try_from_gives = { ReadsCode };

    fn try_from(number: u32) -> Result<Code, UnknownCode> {
        Ok(match number {
            0 => Code::Nothing,
            1 => Code::Fun,
            2 => Code::Class,
            3 => Code::Global,
            4 => Code::Arg,
            5 => Code::Local,
            6 => Code::Captured,
            7 => Code::True,
            8 => Code::False,
            20 => Code::FunctionCounts,
            22 => Code::ClassCounts,
            23 => Code::Field,
            24 => Code::Method,
            _ => return Err(UnknownCode(number)),
        })
    }
}

pub const NOTHING: u32 = 0;

pub const FUN: u32 = 1;

pub const CLASS: u32 = 2;

pub const GLOBAL: u32 = 3;

pub const ARG: u32 = 4;

pub const LOCAL: u32 = 5;

pub const CAPTURED: u32 = 6;

pub const TRUE: u32 = 7;

pub const FALSE: u32 = 8;

// The first row of a function: its local count, captures and escapes.
pub const FUNCTION_COUNTS: u32 = 20;

// The first row of a class: its parent, whether it has children, its fields and methods.
pub const CLASS_COUNTS: u32 = 22;

pub const FIELD: u32 = 23;

pub const METHOD: u32 = 24;

// The constants are the numbers of the variants, which the code runs with.
const _: () = prove!(
    NOTHING == Code::Nothing as u32
        && FUN == Code::Fun as u32
        && CLASS == Code::Class as u32
        && GLOBAL == Code::Global as u32
        && ARG == Code::Arg as u32
        && LOCAL == Code::Local as u32
        && CAPTURED == Code::Captured as u32
        && TRUE == Code::True as u32
        && FALSE == Code::False as u32
        && FUNCTION_COUNTS == Code::FunctionCounts as u32
        && CLASS_COUNTS == Code::ClassCounts as u32
        && FIELD == Code::Field as u32
        && METHOD == Code::Method as u32
);
