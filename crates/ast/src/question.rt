// The questions, by what gets a yes.
ghost use Rattle.std.specs.Prelude.{◌≡◌};
ghost use Rattle.ast.specs.Question.{no_of, question_number};

#[derive(Clone, Copy, Debug, PartialEq, Eq)]
pub enum Question {
    RowsFit = 1,
    NamesFit = 2,
    FormatFits = 3,
    DepthFits = 4,
    // A break or continue stands in a loop of its function.
    InLoop = 5,
    // An assigned identifier is mutable.
    Mutable = 6,
    // A let's name is free in its scope.
    LetFree = 7,
    // An identifier is declared.
    Declared = 8,
    // The same of `null`.
    NullDeclared = 9,
    // Instanceof names a class.
    InstanceofClass = 10,
    // A class's parent names a class.
    ParentClass = 11,
    // A class called as a constructor has a record.
    ConstructedRecord = 12,
    // A class has the method called on it,
    MethodThere = 13,
    // with as many parameters as the call has arguments.
    MethodArity = 14,
    // An imported unit has the listed name.
    Exported = 15,
    // A name of an import, class, parameter or literal let is free in its scope.
    NameFree = 16,
    // A host constant is MAIN_UNIT; a class on which a method is called has a record.
    Known = 17,
    // No class is its own ancestor.
    NoCycle = 18,
    // A class's parent has a record.
    ParentRecord = 19,
    // A constructed class has a constructor,
    InitThere = 20,
    // with as many parameters as the call has arguments and the new object.
    InitArity = 21,
    // The answer rows fit the lent words.
    Room = 22,
    // The session is good, and the entry is one unit without imports that starts at the session's count of globals or above.
    Session = 23,
    // With the entry no count of the session is over its limit.
    SessionRoom = 24,
    // An entry is left to withdraw.
    EntryLeft = 25,
    // No chain of imports comes back to its start.
    NoCircle = 29,
}

impl Question {
    pub fn number(self) -> u32
        ensures { result ≡ question_number self }
    {
        self as u32
    }
}

// A question that got a no, the row of its position and the name asked about, or 0.
#[derive(Clone, Copy, Debug, PartialEq, Eq)]
pub struct Refusal {
    pub question: Question,
    pub at: u32,
    pub name: u32,
}

// The number of the question that got a no, or 0 if none did.
pub fn no_number(asked: Result<(), Question>) -> u32
    ensures { result ≡ no_of asked }
{
    match asked {
        Ok(()) => 0,
        Err(no) => no.number(),
    }
}

pub const ROWS_FIT: u32 = 1;

pub const NAMES_FIT: u32 = 2;

pub const FORMAT_FITS: u32 = 3;

pub const DEPTH_FITS: u32 = 4;

// A break or continue stands in a loop of its function.
pub const IN_LOOP: u32 = 5;

// An assigned identifier is mutable.
pub const MUTABLE: u32 = 6;

// A let's name is free in its scope.
pub const LET_FREE: u32 = 7;

// An identifier is declared.
pub const DECLARED: u32 = 8;

// The same of `null`.
pub const NULL_DECLARED: u32 = 9;

// Instanceof names a class.
pub const INSTANCEOF_CLASS: u32 = 10;

// A class's parent names a class.
pub const PARENT_CLASS: u32 = 11;

// A class called as a constructor has a record.
pub const CONSTRUCTED_RECORD: u32 = 12;

// A class has the method called on it,
pub const METHOD_THERE: u32 = 13;

// with as many parameters as the call has arguments.
pub const METHOD_ARITY: u32 = 14;

// An imported unit has the listed name.
pub const EXPORTED: u32 = 15;

// A name of an import, class, parameter or literal let is free in its scope.
pub const NAME_FREE: u32 = 16;

// A host constant is MAIN_UNIT; a class on which a method is called has a record.
pub const KNOWN: u32 = 17;

// No class is its own ancestor.
pub const NO_CYCLE: u32 = 18;

// A class's parent has a record.
pub const PARENT_RECORD: u32 = 19;

// A constructed class has a constructor,
pub const INIT_THERE: u32 = 20;

// with as many parameters as the call has arguments and the new object.
pub const INIT_ARITY: u32 = 21;

// The answer rows fit the lent words.
pub const ROOM: u32 = 22;

// The session is good, and the entry is one unit without imports that starts at the session's count of globals or above.
pub const SESSION: u32 = 23;

// With the entry no count of the session is over its limit.
pub const SESSION_ROOM: u32 = 24;

// An entry is left to withdraw.
pub const ENTRY_LEFT: u32 = 25;

// No chain of imports comes back to its start.
pub const NO_CIRCLE: u32 = 29;

// The constants are the numbers of the variants, which the code runs with.
const _: () = prove!(
    ROWS_FIT == Question::RowsFit as u32
        && NAMES_FIT == Question::NamesFit as u32
        && FORMAT_FITS == Question::FormatFits as u32
        && DEPTH_FITS == Question::DepthFits as u32
        && IN_LOOP == Question::InLoop as u32
        && MUTABLE == Question::Mutable as u32
        && LET_FREE == Question::LetFree as u32
        && DECLARED == Question::Declared as u32
        && NULL_DECLARED == Question::NullDeclared as u32
        && INSTANCEOF_CLASS == Question::InstanceofClass as u32
        && PARENT_CLASS == Question::ParentClass as u32
        && CONSTRUCTED_RECORD == Question::ConstructedRecord as u32
        && METHOD_THERE == Question::MethodThere as u32
        && METHOD_ARITY == Question::MethodArity as u32
        && EXPORTED == Question::Exported as u32
        && NAME_FREE == Question::NameFree as u32
        && KNOWN == Question::Known as u32
        && NO_CYCLE == Question::NoCycle as u32
        && PARENT_RECORD == Question::ParentRecord as u32
        && INIT_THERE == Question::InitThere as u32
        && INIT_ARITY == Question::InitArity as u32
        && ROOM == Question::Room as u32
        && SESSION == Question::Session as u32
        && SESSION_ROOM == Question::SessionRoom as u32
        && ENTRY_LEFT == Question::EntryLeft as u32
        && NO_CIRCLE == Question::NoCircle as u32
);
