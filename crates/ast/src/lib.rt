// What a name stands for, the numbers of functions and classes, and names for the numbers of the format.
#![tactic(auto)]

ghost use Rattle.std.specs.Prelude.{◌≡◌};
ghost use Rattle.ast.specs.Decl.{code_and_values, decl_of, mutable};

pub mod code;
pub mod column;
pub mod flag;
pub mod kind;
pub mod limit;
pub mod name;
pub mod question;

// The number of a function and the number of a class are two types: neither can be given for the other.
#[derive(Clone, Copy, Debug, PartialEq, Eq)]
pub struct FunId(pub u32);

#[derive(Clone, Copy, Debug, PartialEq, Eq)]
pub struct ClassId(pub u32);

// The classes that are there without being declared.
pub const INT64_ID: ClassId = ClassId(3);

pub const FLOAT64_ID: ClassId = ClassId(4);

pub const STRING_ID: ClassId = ClassId(5);

pub const ARRAY_ID: ClassId = ClassId(7);

pub const BYTEARRAY_ID: ClassId = ClassId(8);

pub const DICT_ID: ClassId = ClassId(9);

pub const UIEVENT_ID: ClassId = ClassId(100);

pub const AUDIO_NEEDED_ID: ClassId = ClassId(101);

pub const AUDIO_DATA_ID: ClassId = ClassId(102);

// The number of the class of row 0: a class of the sheet has its row more.
pub const FIRST_CLASS: u32 = 256;

#[derive(Clone, Copy, Debug, PartialEq, Eq)]
pub enum Decl {
    // Global function
    Fun {
        id: FunId,
    },
    // Class declaration
    Class {
        id: ClassId,
    },
    // Global variable
    Global {
        idx: u32,
        mutable: bool,
    },
    // Function argument
    Arg {
        idx: u32,
        src_fun: FunId,
    },
    // Local variable in a function
    Local {
        idx: u32,
        src_fun: FunId,
        mutable: bool,
    },
    // Variable of an outer function, captured by the current closure
    Captured {
        idx: u32,
        mutable: bool,
    },
}

impl Decl {
    pub fn is_mutable(self) -> bool
        ensures { result ≡ mutable self }
    {
        match self {
            Decl::Global { mutable, .. }
            | Decl::Local { mutable, .. }
            | Decl::Captured { mutable, .. } => mutable,
            Decl::Fun { .. } | Decl::Class { .. } | Decl::Arg { .. } => false,
        }
    }

    // The code and the three values of an answer row.
    pub fn words(self) -> [u32; 4]
        ensures { result ≡ code_and_values self }
    {
        match self {
            Decl::Fun { id } => [code::FUN, id.0, 0, 0],
            Decl::Class { id } => [code::CLASS, id.0, 0, 0],
            Decl::Global { idx, mutable } => [code::GLOBAL, idx, 0, mutable as u32],
            Decl::Arg { idx, src_fun } => [code::ARG, idx, src_fun.0, 0],
            Decl::Local {
                idx,
                src_fun,
                mutable,
            } => [code::LOCAL, idx, src_fun.0, mutable as u32],
            Decl::Captured { idx, mutable } => [code::CAPTURED, idx, 0, mutable as u32],
        }
    }

    // The way back from `words`. A code that is none of the six reads as 6, so that every input has an answer.
    pub fn from_words(code: u32, x: u32, y: u32, z: u32) -> Decl
        ensures { result ≡ decl_of code x y z }
    {
        match code {
            code::FUN => Decl::Fun { id: FunId(x) },
            code::CLASS => Decl::Class { id: ClassId(x) },
            code::GLOBAL => Decl::Global {
                idx: x,
                mutable: z == 1,
            },
            code::ARG => Decl::Arg {
                idx: x,
                src_fun: FunId(y),
            },
            code::LOCAL => Decl::Local {
                idx: x,
                src_fun: FunId(y),
                mutable: z == 1,
            },
            _ => Decl::Captured {
                idx: x,
                mutable: z == 1,
            },
        }
    }
}
