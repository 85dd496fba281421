// The name index of document 02, F-2: a name is found by its bytes in a table of 2,048 places. Question 2 goes through it.
#![tactic(auto)]

ghost use Rattle.std.specs.Prelude.{◌≡◌, true, false, ◌+◌, ◌*◌, ◌%◌, ◌^◌, ◌<◌, ◌≤◌, length, replicate, MatchOption};
ghost use Rattle.definition.specs.Names.{fixed, names_unlike, names_fit};
ghost use Rattle.names.specs.Listed.{numbered};
ghost use Rattle.name_index.specs.Index.{fnv, place_of, turned, run, enter, index_of, walk, find, found_number};

use ast::{limit, name};
use names::NameTable;

// How many places the table has.
pub const PLACES: usize = 2048;

// The value of no bytes.
const FNV_START: u32 = 2166136261;

// The prime by which each value is multiplied.
const FNV_PRIME: u32 = 16777619;

// The place of each fixed name, in the order of their numbers.
const FIXED_PLACES: [u32; 24] = [
    1668, 1255, 88, 1222, 796, 1113, 1897, 1768, 1993, 579, 827, 108, 1137, 135, 1780, 1361, 958,
    1598, 199, 1708, 73, 932, 883, 1591,
];

// What a search finds: the number of the name, if it is there, and how many places were read.
#[derive(Clone, Copy, Debug, PartialEq, Eq)]
pub struct Found {
    pub number: Option<u32>,
    pub places: u32,
}

// The product modulo 2^32.
pub fn wrapping_product(a: u32, b: u32) -> u32
    ensures { result ≡ a * b % 2 ^ 32 }
{
    a.wrapping_mul(b)
}

// The 32-bit FNV-1a value.
pub fn fnv_value(bytes: &[u8]) -> u32
    ensures { result ≡ fnv bytes.now }
{
    bytes.iter().fold(FNV_START, |value, &byte| {
        wrapping_product(value ^ byte as u32, FNV_PRIME)
    })
}

// The place at which a name is looked for first.
pub fn first_place(name: &[u8]) -> usize
    ensures { result ≡ place_of name.now }
{
    fnv_value(name) as usize % PLACES
}

// The first free place from `first` on, around the end; `first` itself if none is free.
fn free_place(index: &[u32], first: usize) -> usize
    requires { (length index.now ≡ 2048) × (first < 2048) }
    ensures { result ≡ (first + run (turned first index.now)) % 2048 }
{
    let free = (0..PLACES).position(|read| index[(first + read) % PLACES] == 0);
    (first + free.unwrap_or(PLACES)) % PLACES
}

// Enters a number for a name whose first place is `first`.
pub fn enter_number(index: &mut [u32], first: usize, number: u32)
    requires { (length index.old ≡ 2048) × (first < 2048) }
    ensures { index.new ≡ enter index.old first number }
{
    let place = free_place(index, first);
    index[place] = number;
}

// Looks for a name from place `first` on in an index of fixed and listed names.
pub fn search(index: &[u32], first: usize, name: &[u8], listed: NameTable<'_>) -> Found
    requires { (length index.now ≡ 2048) × (first < 2048) }
    ensures { (result.number ≡ found_number (walk (numbered listed.entry.names.now) name.now (turned first index.now)).0)
        × (result.places ≡ (walk (numbered listed.entry.names.now) name.now (turned first index.now)).1) }
{
    for read in 0..PLACES {
        let number = index[(first + read) % PLACES];
        let places = read as u32 + 1;
        if number == 0 {
            return Found {
                number: None,
                places,
            };
        }
        if names::same_name(name, listed.named(number)) {
            return Found {
                number: Some(number),
                places,
            };
        }
    }
    Found {
        number: None,
        places: PLACES as u32,
    }
}

// Enters the fixed names into an empty index.
pub fn enter_fixed(index: &mut [u32])
    requires { index.old ≡ replicate 2048 0 }
    ensures { index.new ≡ index_of fixed }
{
    for k in 0..name::LAST_FIXED {
        enter_number(index, FIXED_PLACES[k] as usize, k as u32 + 1);
    }
}

// Enters the listed names one after another into an index of the fixed ones, up to one that is there already: are no two the same?
pub fn enter_listed(index: &mut [u32], listed: NameTable<'_>) -> bool
    requires { (index.old ≡ index_of fixed) × (length listed.table.now ≤ 1025) }
    ensures { (result ≡ names_unlike listed.entry.names.now) × (result ≡ true → index.new ≡ index_of (numbered listed.entry.names.now)) }
{
    for k in 0..listed.count() {
        let name = listed.name_at(k);
        let first = first_place(name);
        if search(index, first, name, listed).number.is_some() {
            return false;
        }
        enter_number(index, first, (name::LAST_FIXED + k + 1) as u32);
    }
    true
}

// A list that passes question 2: the table of its starts, and the index of its names and the fixed ones.
#[derive(Clone, Copy)]
pub struct NameIndex<'a> {
    pub listed: NameTable<'a>,
    pub index: &'a [u32],
    ghost fit: { names_fit listed.names.now ≡ true },
    ghost held: { index.now ≡ index_of (numbered listed.names.now) },
}

impl<'a> NameIndex<'a> {
    // Question 2, and of a list that passes it the table and the index in lent words.
    pub fn write(
        names: &'a [u8],
        table: &'a mut [u32],
        index: &'a mut [u32],
    ) -> Option<NameIndex<'a>>
        requires { (length table.old ≡ 1025) × (index.old ≡ replicate 2048 0) }
        ensures { MatchOption result (names_fit names.now ≡ false) (λ list. list.listed.names.now ≡ names.now) }
    {
        if names.len() > limit::LIST_BYTES || !names::is_ended(names) || !names::sizes_fit(names) {
            return None;
        }
        let listed = NameTable::write(names, table);
        enter_fixed(index);
        if !enter_listed(index, listed) {
            return None;
        }
        Some(NameIndex { listed, index })
    }

    // Looks for a name among the fixed and the listed ones.
    pub fn find(self, name: &[u8]) -> Found
        ensures { (result.number ≡ found_number (find self.entry.listed.names.now name.now).0)
            × (result.places ≡ (find self.entry.listed.names.now name.now).1) }
    {
        search(self.index, first_place(name), name, self.listed)
    }
}

// Question 2: may the names stand as they are listed?
pub fn names_fit(names: &[u8]) -> bool
    ensures { result ≡ names_fit names.now }
{
    // One start for each name, and the place past the last.
    let mut table = [0u32; 1025];
    let mut index = [0u32; PLACES];
    NameIndex::write(names, &mut table, &mut index).is_some()
}

// Finds bytes among the names of a list and the fixed ones.
pub fn find_name(names: &[u8], name: &[u8]) -> Found
    ensures { (result.number ≡ found_number (find names.now name.now).0)
        × (result.places ≡ (find names.now name.now).1) }
{
    let mut table = [0u32; 1025];
    let mut index = [0u32; PLACES];
    match NameIndex::write(names, &mut table, &mut index) {
        Some(list) => list.find(name),
        None => Found {
            number: None,
            places: 0,
        },
    }
}
