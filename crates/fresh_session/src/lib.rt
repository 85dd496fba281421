// The fresh session: the nine core names on show, nothing else counted, and the fixed names.
#![tactic(auto)]

ghost use Rattle.std.specs.Prelude.{◌≡◌, length};
ghost use Rattle.fresh_session.specs.Fresh.{fresh_byte, fresh_in, Fresh};

use session::layout;
use words::{clear, put_at};

// The core names, which are on show in every session.
const CORE_NAMES: u32 = 9;

// The bytes of the fixed names, and zeros after them.
fn write_fixed(bytes: &mut [u8])
    ensures { bytes.new ≡ fresh_in (length bytes.old) }
{
    for i in 0..bytes.len() {
        bytes[i] = fixed_byte(i);
    }
}

// Byte `i` of a fresh session.
fn fixed_byte(i: usize) -> u8
    ensures { result ≡ fresh_byte i }
{
    if i < names::FIXED.len() {
        names::FIXED[i]
    } else {
        0
    }
}

// Makes the session in the lent words and bytes a fresh one. They may be of any length; `enter` refuses too short ones as 23.
pub fn fresh(words: &mut [u32], bytes: &mut [u8])
    ensures { Fresh (length words.old) (length bytes.old) words.new bytes.new }
{
    clear(words);
    put_at(words, layout::SHOWN, CORE_NAMES);
    write_fixed(bytes);
}
