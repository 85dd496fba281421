// The kinds of sheet rows.
ghost use Rattle.ast.specs.Kind.{ReadsKind};

#[derive(Clone, Copy, Debug, PartialEq, Eq)]
pub enum Kind {
    Header = 0,
    Unit = 2,
    Import = 3,
    Class = 4,
    Function = 6,
    FunctionExport = 7,
    ConstantExport = 8,
    // A name that an import lists.
    Listed = 9,
    Field = 10,
    Parameter = 11,
    // Statements: from EXPRESSION_STATEMENT to CLASS_DECLARATION.
    ExpressionStatement = 20,
    Assign = 21,
    Return = 22,
    Break = 23,
    Continue = 24,
    Block = 25,
    If = 26,
    For = 27,
    Assert = 28,
    Let = 29,
    ClassDeclaration = 30,
    // Expressions, and the pairs of a dict: from NIL on.
    Nil = 40,
    True = 41,
    False = 42,
    Integer = 43,
    Float = 44,
    String = 45,
    Bytes = 46,
    Array = 47,
    Dict = 48,
    Pair = 49,
    Identifier = 50,
    HostConstant = 51,
    // A function literal.
    Literal = 52,
    Index = 53,
    Member = 54,
    Instanceof = 55,
    Unary = 56,
    Binary = 57,
    Ternary = 58,
    Call = 59,
}

// A number that is no kind.
#[derive(Clone, Copy, Debug, PartialEq, Eq)]
pub struct UnknownKind(pub u32);

impl TryFrom<u32> for Kind {
    type Error = UnknownKind;

    ghost try_from_gives = { ReadsKind };

    fn try_from(number: u32) -> Result<Kind, UnknownKind> {
        Ok(match number {
            0 => Kind::Header,
            2 => Kind::Unit,
            3 => Kind::Import,
            4 => Kind::Class,
            6 => Kind::Function,
            7 => Kind::FunctionExport,
            8 => Kind::ConstantExport,
            9 => Kind::Listed,
            10 => Kind::Field,
            11 => Kind::Parameter,
            20 => Kind::ExpressionStatement,
            21 => Kind::Assign,
            22 => Kind::Return,
            23 => Kind::Break,
            24 => Kind::Continue,
            25 => Kind::Block,
            26 => Kind::If,
            27 => Kind::For,
            28 => Kind::Assert,
            29 => Kind::Let,
            30 => Kind::ClassDeclaration,
            40 => Kind::Nil,
            41 => Kind::True,
            42 => Kind::False,
            43 => Kind::Integer,
            44 => Kind::Float,
            45 => Kind::String,
            46 => Kind::Bytes,
            47 => Kind::Array,
            48 => Kind::Dict,
            49 => Kind::Pair,
            50 => Kind::Identifier,
            51 => Kind::HostConstant,
            52 => Kind::Literal,
            53 => Kind::Index,
            54 => Kind::Member,
            55 => Kind::Instanceof,
            56 => Kind::Unary,
            57 => Kind::Binary,
            58 => Kind::Ternary,
            59 => Kind::Call,
            _ => return Err(UnknownKind(number)),
        })
    }
}

pub const HEADER: u32 = 0;

pub const UNIT: u32 = 2;

pub const IMPORT: u32 = 3;

pub const CLASS: u32 = 4;

pub const FUNCTION: u32 = 6;

pub const FUNCTION_EXPORT: u32 = 7;

pub const CONSTANT_EXPORT: u32 = 8;

// A name that an import lists.
pub const LISTED: u32 = 9;

pub const FIELD: u32 = 10;

pub const PARAMETER: u32 = 11;

// Statements: from EXPRESSION_STATEMENT to CLASS_DECLARATION.
pub const EXPRESSION_STATEMENT: u32 = 20;

pub const ASSIGN: u32 = 21;

pub const RETURN: u32 = 22;

pub const BREAK: u32 = 23;

pub const CONTINUE: u32 = 24;

pub const BLOCK: u32 = 25;

pub const IF: u32 = 26;

pub const FOR: u32 = 27;

pub const ASSERT: u32 = 28;

pub const LET: u32 = 29;

pub const CLASS_DECLARATION: u32 = 30;

// Expressions, and the pairs of a dict: from NIL on.
pub const NIL: u32 = 40;

pub const TRUE: u32 = 41;

pub const FALSE: u32 = 42;

pub const INTEGER: u32 = 43;

pub const FLOAT: u32 = 44;

pub const STRING: u32 = 45;

pub const BYTES: u32 = 46;

pub const ARRAY: u32 = 47;

pub const DICT: u32 = 48;

pub const PAIR: u32 = 49;

pub const IDENTIFIER: u32 = 50;

pub const HOST_CONSTANT: u32 = 51;

// A function literal.
pub const LITERAL: u32 = 52;

pub const INDEX: u32 = 53;

pub const MEMBER: u32 = 54;

pub const INSTANCEOF: u32 = 55;

pub const UNARY: u32 = 56;

pub const BINARY: u32 = 57;

pub const TERNARY: u32 = 58;

pub const CALL: u32 = 59;

// The constants are the numbers of the variants, which the code runs with.
const _: () = prove!(
    HEADER == Kind::Header as u32
        && UNIT == Kind::Unit as u32
        && IMPORT == Kind::Import as u32
        && CLASS == Kind::Class as u32
        && FUNCTION == Kind::Function as u32
        && FUNCTION_EXPORT == Kind::FunctionExport as u32
        && CONSTANT_EXPORT == Kind::ConstantExport as u32
        && LISTED == Kind::Listed as u32
        && FIELD == Kind::Field as u32
        && PARAMETER == Kind::Parameter as u32
        && EXPRESSION_STATEMENT == Kind::ExpressionStatement as u32
        && ASSIGN == Kind::Assign as u32
        && RETURN == Kind::Return as u32
        && BREAK == Kind::Break as u32
        && CONTINUE == Kind::Continue as u32
        && BLOCK == Kind::Block as u32
        && IF == Kind::If as u32
        && FOR == Kind::For as u32
        && ASSERT == Kind::Assert as u32
        && LET == Kind::Let as u32
        && CLASS_DECLARATION == Kind::ClassDeclaration as u32
        && NIL == Kind::Nil as u32
        && TRUE == Kind::True as u32
        && FALSE == Kind::False as u32
        && INTEGER == Kind::Integer as u32
        && FLOAT == Kind::Float as u32
        && STRING == Kind::String as u32
        && BYTES == Kind::Bytes as u32
        && ARRAY == Kind::Array as u32
        && DICT == Kind::Dict as u32
        && PAIR == Kind::Pair as u32
        && IDENTIFIER == Kind::Identifier as u32
        && HOST_CONSTANT == Kind::HostConstant as u32
        && LITERAL == Kind::Literal as u32
        && INDEX == Kind::Index as u32
        && MEMBER == Kind::Member as u32
        && INSTANCEOF == Kind::Instanceof as u32
        && UNARY == Kind::Unary as u32
        && BINARY == Kind::Binary as u32
        && TERNARY == Kind::Ternary as u32
        && CALL == Kind::Call as u32
);
