// The names of a sheet: a byte list in which byte 10 ends each. What question 2 asks of each name by itself, and the bytes of a name by its
// number.
#![tactic(auto)]

ghost use Rattle.std.specs.Prelude.{◌≡◌, ◌&&◌, [], ◌+◌, ◌<◌, ◌≤◌, length, get_or, take};
ghost use Rattle.std.specs.Iterator.{YieldsFirstRef, item_count};
ghost use Rattle.definition.specs.Names.{listed, same_name, names_few, names_sized, names_ended};
ghost use Rattle.names.specs.Listed.{name_of, first_size, starts, numbered, named};

use ast::{limit, name};

// The byte that ends a name.
pub const END: u8 = 10;

// The number of the first listed name. Smaller numbers are fixed.
pub const FIRST_LISTED: u32 = name::LAST_FIXED as u32 + 1;

// The fixed names as a list of their own, in the order of their numbers 1 to 24.
pub const FIXED: [u8; 168] =
    *b"Int64\nFloat64\nString\nArray\nByteArray\nDict\nUIEvent\nAudioNeeded\nAudioData\nkind\nwindow_id\nkey\nbutton\nx\ny\ndx\ndy\ntext\nnum_samples\nnum_channels\ndevice_id\nnull\ninit\nMAIN_UNIT\n";

// Where each of them starts, and the place past the last.
const FIXED_STARTS: [u32; 25] = [
    0, 6, 14, 21, 27, 37, 42, 50, 62, 72, 77, 87, 91, 98, 100, 102, 105, 108, 113, 125, 138, 148,
    153, 158, 168,
];

// Are the bytes of two names the same? They are compared from the last back: names that differ often begin alike. Measured: `a == b` goes from the first on.
pub fn same_name(a: &[u8], b: &[u8]) -> bool
    ensures { result ≡ same_name a.now b.now }
{
    if a.len() != b.len() {
        return false;
    }
    for i in (0..a.len()).rev() {
        if a[i] != b[i] {
            return false;
        }
    }
    true
}

// How many bytes the first name of a list has: it ends before its end byte, or with the list.
fn first_end(names: &[u8]) -> usize
    ensures { result ≡ first_size names.now }
{
    names
        .iter()
        .position(|&byte| byte == END)
        .unwrap_or(names.len())
}

// The names of a list one after another, each without its end. What stands after the last end is one too.
#[derive(Clone, Copy)]
pub struct Names<'a>(pub &'a [u8]);

impl<'a> Iterator for Names<'a> {
    type Item = &'a [u8];

    ghost next_gives = { YieldsFirstRef (λ left. listed left.0.now) };

    ghost remaining = { item_count (λ left. listed left.0.now) };

    #[tactic(auto, using(crate::proofs::Laws::first_next, crate::proofs::Laws::first_size_lem))]
    fn next(&mut self) -> Option<&'a [u8]> {
        let bytes = self.0;
        if bytes.is_empty() {
            return None;
        }
        let end = first_end(bytes);
        self.0 = &bytes[bytes.len().min(end + 1)..];
        Some(&bytes[..end])
    }
}

// How many names are listed. What stands after the last end is one too.
#[tactic(auto, using(crate::proofs::Laws::listed_few))]
pub fn count_names(names: &[u8]) -> usize
    ensures { result ≡ length (listed names.now) }
{
    Names(names).count()
}

// The listed name of a number, without its end, as a part of the list; an empty part where the number names nothing in it.
pub fn name_bytes(names: &[u8], number: u32) -> &[u8]
    ensures { result.now ≡ name_of names.now number }
{
    let Some(place) = number.checked_sub(FIRST_LISTED) else {
        return &[];
    };
    Names(names).nth(place as usize).unwrap_or(&[])
}

// Are the names few enough, and each neither empty nor too long?
#[tactic(auto, using(crate::proofs::Laws::listed_few))]
pub fn sizes_fit(names: &[u8]) -> bool
    ensures { result ≡ (names_few names.now && names_sized names.now) }
{
    Names(names).enumerate().all(|(place, name)| {
        place < limit::NAMES && (1..=limit::NAME_BYTES).contains(&name.len())
    })
}

// Has the last name its end?
pub fn is_ended(names: &[u8]) -> bool
    ensures { result ≡ names_ended names.now }
{
    names.last().copied().unwrap_or(END) == END
}

// Names, and where each of them starts with the place past the last.
#[derive(Clone, Copy)]
pub struct NameTable<'a> {
    pub names: &'a [u8],
    pub table: &'a [u32],
    ghost of_names: { table.now ≡ starts names.now },
}

// The fixed names by their places.
const FIXED_NAMES: NameTable<'static> = NameTable {
    names: &FIXED,
    table: &FIXED_STARTS,
};

impl<'a> NameTable<'a> {
    // Writes the table of some names into lent words.
    pub fn write(names: &'a [u8], words: &'a mut [u32]) -> NameTable<'a>
        requires short { length names.now ≤ 32768 }
        requires room { length (listed names.now) < length words.old }
        ensures { result.names.now ≡ names.now }
    {
        let count = find_starts(names, words);
        NameTable {
            names,
            table: &words[..count + 1],
        }
    }

    // How many names there are.
    pub fn count(self) -> usize
        ensures { result + 1 ≡ length self.entry.table.now }
    {
        self.table.len() - 1
    }

    // The name at place `k`.
    pub fn name_at(self, k: usize) -> &'a [u8]
        requires { k + 1 < length self.table.now }
        ensures { result.now ≡ get_or (listed self.entry.names.now) k [] }
    {
        let start = self.table[k] as usize;
        let end = self.table[k + 1] as usize - 1;
        &self.names[start..end]
    }

    // The name of a number, fixed or listed here; a number above them all has the empty name.
    pub fn named(self, number: u32) -> &'a [u8]
        requires { 0 < number }
        ensures { result.now ≡ named (numbered self.entry.names.now) number }
    {
        if number < FIRST_LISTED {
            return FIXED_NAMES.name_at(number as usize - 1);
        }
        let k = (number - FIRST_LISTED) as usize;
        if k + 1 < self.table.len() {
            return self.name_at(k);
        }
        &[]
    }
}

// Writes where each name starts and then the place past the last, and answers how many names there are.
#[tactic(auto, using(crate::proofs::Laws::listed_short))]
pub fn find_starts(names: &[u8], table: &mut [u32]) -> usize
    requires { (length names.now ≤ 32768) × (length (listed names.now) < length table.old) }
    ensures { (result ≡ length (listed names.now)) × (result < length table.old)
        × (take (result + 1) table.new ≡ starts names.now) }
{
    let mut at: usize = 0;
    let mut count: usize = 0;
    for name in Names(names) {
        table[count] = at as u32;
        at += name.len() + 1;
        count += 1;
    }
    table[count] = at as u32;
    count
}
