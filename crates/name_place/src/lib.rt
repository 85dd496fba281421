// Where the text of a name stands, for callers that cannot be handed a part of a slice.
#![tactic(auto)]

ghost use Rattle.std.specs.Prelude.{◌≡◌, not, ◌-◌, ◌≤◌, eqb};
ghost use Rattle.definition.specs.Basics.{when◌then◌else◌};
ghost use Rattle.name_place.specs.Place.{bytes_before, NamePlaced};

use name_text::{Whose, name_text};
use names::{END, FIRST_LISTED};

// In which bytes a text stands: those of the session, or the list of the entry.
const IN_SESSION: u32 = 0;

const IN_LIST: u32 = 1;

// In which bytes a text stands, from which byte on, and how many it has.
#[derive(Clone, Copy)]
pub struct Place {
    pub list: u32,
    pub start: u32,
    pub length: u32,
}

const NOWHERE: Place = Place {
    list: 0,
    start: 0,
    length: 0,
};

// How many names are left to pass after a byte, if one at least was.
fn left_after(left: u32, byte: u8) -> u32
    requires { 1 ≤ left }
    ensures { result ≡ (when eqb byte 10 then left - 1 else left) }
{
    left - (byte == END) as u32
}

// Where name `k` of a list starts, counted from 0.
fn start_of(list: &[u8], k: u32) -> usize
    ensures { result ≡ bytes_before k list.now }
{
    let mut left = k;
    for at in 0..list.len() {
        if left == 0 {
            return at;
        }
        left = left_after(left, list[at]);
    }
    list.len()
}

// The place of name `k` of some bytes, which is `length` bytes long.
fn place_in(list: u32, bytes: &[u8], k: u32, length: usize) -> Place
    requires { (bytes_before k bytes.now ≤ 32936) × (length ≤ 255) }
    ensures { result ≡ record { list = list; start = bytes_before k bytes.now; length = length } }
{
    Place {
        list,
        start: start_of(bytes, k) as u32,
        length: length as u32,
    }
}

// Where the text of name `number` stands, of the session or the entry; all zeros where it has none.
pub fn name_place<'a>(
    words: &[u32],
    bytes: &'a [u8],
    names: &'a [u8],
    whose: u32,
    number: u32,
) -> Place
    ensures { NamePlaced words.now bytes.now names.now (not (eqb whose 0)) number result }
{
    let length = name_text(words, bytes, names, whose, number).len();
    if length == 0 {
        return NOWHERE;
    }
    if Whose::from(whose).is_listed(number) {
        return place_in(IN_LIST, names, number - FIRST_LISTED, length);
    }
    place_in(IN_SESSION, bytes, number - 1, length)
}
