// Source positions, packed into 64 bits: the column in bits 0..14, the line in 14..46, the file in 46..64.
// Shifts are written as products and quotients by powers of two, on which the proofs compute.
#![tactic(auto)]

ghost use Rattle.std.specs.Prelude.{◌≡◌};
ghost use Rattle.lexer.specs.SrcPos.{packed, file_of, line_of, column_of};

// Highest column a position can hold. Positions further right on the line all report this one.
pub const MAX_COL_NO: u32 = 16383;

// Highest line a position can hold: every u32 is one.
pub const MAX_LINE_NO: u32 = 4294967295;

// Number of files that a position can tell apart.
pub const MAX_FILES: u32 = 262144;

// 2^14 and 2^46: what one line and one file are worth.
const LINE_WEIGHT: u64 = 16384;

const FILE_WEIGHT: u64 = 70368744177664;

#[derive(Clone, Copy)]
pub struct SrcPos(pub u64);

impl SrcPos {
    // A file out of range, at which the Rust panics, gives no position: zero.
    pub fn new(file_id: u32, line_no: u32, col_no: u32) -> SrcPos
        ensures { result.0 ≡ packed file_id line_no col_no }
    {
        if file_id >= MAX_FILES {
            return SrcPos(0);
        }
        let column = col_no.min(MAX_COL_NO);
        SrcPos((file_id as u64) * FILE_WEIGHT + (line_no as u64) * LINE_WEIGHT + column as u64)
    }

    pub fn file_id(self) -> u32
        ensures { result ≡ file_of self.0 }
    {
        (self.0 / FILE_WEIGHT) as u32
    }

    pub fn line_no(self) -> u32
        ensures { result ≡ line_of self.0 }
    {
        (self.0 / LINE_WEIGHT % 4294967296) as u32
    }

    pub fn col_no(self) -> u32
        ensures { result ≡ column_of self.0 }
    {
        (self.0 % LINE_WEIGHT) as u32
    }
}
