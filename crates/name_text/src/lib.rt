// The text of a name, as a part of the lent bytes in which it stands: those of a session, or the list of an entry.
#![tactic(auto)]

ghost use Rattle.std.specs.Prelude.{◌≡◌, not, ◌&&◌, ◌-◌, ◌≤◌, eqb, leb, length, take, drop};
ghost use Rattle.definition.specs.Basics.{when◌then◌else◌};
ghost use Rattle.definition.specs.Names.{fixed, listed};
ghost use Rattle.session.specs.Words.{whole, name_bytes, session_names_fit, name_text};
ghost use Rattle.name_text.specs.Text.{of_entry, list_text, session_text};

use name_index::names_fit;
use names::{FIRST_LISTED, count_names, name_bytes, same_name};
use session::layout;
use words::word_at;

// Whose number is asked about.
#[derive(Clone, Copy, Debug, PartialEq, Eq)]
pub enum Whose {
    Session,
    Entry,
}

// The word that says the session's: any other says the entry's.
pub const OF_SESSION: u32 = 0;

impl From<u32> for Whose {
    ghost from_gives = { λ word whose. of_entry whose ≡ not (eqb word 0) };

    fn from(word: u32) -> Whose {
        if word == OF_SESSION {
            Whose::Session
        } else {
            Whose::Entry
        }
    }
}

impl Whose {
    // Is the name of this number one of the entry's list? The fixed names stand in the session's bytes.
    pub fn is_listed(self, number: u32) -> bool
        ensures { result ≡ (of_entry self && leb 25 number) }
    {
        match self {
            Whose::Session => false,
            Whose::Entry => FIRST_LISTED <= number,
        }
    }
}

// The largest number that a listed name can have.
const LAST_LISTED: u32 = 1048;

// The name of a number in the list of an entry; an empty part if the list is refused as 2.
fn list_text(list: &[u8], number: u32) -> &[u8]
    ensures { result.now ≡ list_text list.now number }
{
    if !names_fit(list) {
        return &[];
    }
    name_bytes(list, number)
}

// Where the listed names of a session end in its bytes.
fn list_end(words: &[u32], bytes: &[u8]) -> usize
    requires { 168 ≤ length bytes.now }
    ensures { (168 ≤ result) × (result ≤ length bytes.now)
        × (take (result - 168) (drop 168 bytes.now) ≡ name_bytes whole words.now bytes.now) }
{
    let end = layout::FIXED_BYTES + word_at(words, layout::NAME_BYTES) as usize;
    end.min(bytes.len())
}

// Are the names of a session, up to `end`, the fixed ones and then a list past question 2, of as many as it says?
fn session_names_fit(words: &[u32], bytes: &[u8], end: usize) -> bool
    requires { (168 ≤ end) × (end ≤ length bytes.now) × (take (end - 168) (drop 168 bytes.now) ≡ name_bytes whole words.now bytes.now) }
    ensures { result ≡ session_names_fit whole words.now bytes.now }
{
    if !same_name(&bytes[..layout::FIXED_BYTES], &names::FIXED) {
        return false;
    }
    let list = &bytes[layout::FIXED_BYTES..end];
    if !names_fit(list) {
        return false;
    }
    count_names(list) == word_at(words, layout::NAMES) as usize
}

// The name of a number in a session: the fixed and the listed names stand one after another. An empty part if its names are none that pass question 23.
fn session_text<'a>(words: &[u32], bytes: &'a [u8], number: u32) -> &'a [u8]
    ensures { result.now ≡ session_text words.now bytes.now number }
{
    if !(1..=LAST_LISTED).contains(&number) {
        return &[];
    }
    if bytes.len() < layout::FIXED_BYTES {
        return &[];
    }
    let end = list_end(words, bytes);
    if !session_names_fit(words, bytes, end) {
        return &[];
    }
    name_bytes(&bytes[..end], number + (FIRST_LISTED - 1))
}

// The text of name `number` of the session or the entry; fixed names stand in the session's bytes. An empty part for a number that is not
// there, and where the list in which it stands is refused.
pub fn name_text<'a>(
    words: &[u32],
    bytes: &'a [u8],
    names: &'a [u8],
    whose: u32,
    number: u32,
) -> &'a [u8]
    ensures { result.now ≡ name_text whole words.now bytes.now names.now (not (eqb whose 0)) number }
{
    if Whose::from(whose).is_listed(number) {
        return list_text(names, number);
    }
    session_text(words, bytes, number)
}
