// Words of a session: their counts, the rows of its entries and the numbers of its classes. What else question 23 asks stands in session_check, which
// finds a class by halving, since the numbers asked about here rise.
#![tactic(auto)]

ghost use Rattle.std.specs.Prelude.{◌≡◌, ◌&&◌, [], suc, ◌/◌, ◌^◌, ◌<◌, ◌≤◌, eqb, leb, get_or};
ghost use Rattle.session.specs.Words.{whole, counts_fit, is_function_up_to};
ghost use Rattle.session_rows.specs.Rows.{five_right, after, count_rises, counts_rise, row_right, rows_right, last_right};
ghost use Rattle.session_rows.specs.Rows.{number_of, number_rises, numbers_rise, all_rise, order_right};

use ast::limit;
use session::layout;
use session::lent::LentSession;

pub mod count;

// The number of the class of row 0 of the first entry.
const FIRST_CLASS: usize = ast::FIRST_CLASS as usize;

// The word at a place, as a number to count with. Here and below words alone are taken: what reads them while it may write them has no bytes at hand.
pub fn number_at(words: &[u32], place: usize) -> usize
    ensures { (result ≡ get_or words.now place 0) × (result < 2 ^ 32) }
{
    words::word_at(words, place) as usize
}

// Is the word at a place not over its limit?
pub fn is_within(words: &[u32], place: usize, most: usize) -> bool
    ensures { result ≡ leb (get_or words.now place 0) most }
{
    number_at(words, place) <= most
}

// Is none of the five counts over its limit?
fn five_fit(words: &[u32]) -> bool
    ensures { result ≡ five_right words.now }
{
    (0..layout::ENTRY_WORDS).all(|c| is_within(words, layout::COUNTS + c, layout::MOST[c]))
}

// Is no count over its limit, and is there room for all?
#[tactic(auto, using(crate::proofs::OrderLaws::counts_split))]
pub fn counts_fit(session: LentSession<'_>) -> bool
    ensures { result ≡ counts_fit whole session.entry.words.now session.entry.bytes.now }
{
    let words = session.words;
    is_within(words, layout::GLOBALS, layout::MOST_GLOBALS)
        && is_within(words, layout::ENTRIES, layout::MOST_ENTRIES)
        && five_fit(words)
        && layout::WORDS <= words.len()
        && layout::BYTES <= session.bytes.len()
}

// Count c in the row of entry e.
pub fn count_at(words: &[u32], e: usize, c: usize) -> usize
    requires { (e < 1000) × (c < 5) }
    ensures { (result ≡ after words.now (suc e) c) × (result < 2 ^ 32) }
{
    number_at(words, layout::ENTRY_ROWS + layout::ENTRY_WORDS * e + c)
}

// Count c after the first e entries.
pub fn count_before(words: &[u32], e: usize, c: usize) -> usize
    requires { (e ≤ 1000) × (c < 5) }
    ensures { (result ≡ after words.now e c) × (result < 2 ^ 32) }
{
    if e == 0 { 0 } else { count_at(words, e - 1, c) }
}

// Does count c not fall in entry e, and is it not past the session's?
fn count_fits(words: &[u32], e: usize, c: usize) -> bool
    requires { (e < 1000) × (c < 5) }
    ensures { result ≡ count_rises words.now e c }
{
    let count = count_at(words, e, c);
    count_before(words, e, c) <= count && count <= number_at(words, layout::COUNTS + c)
}

// The same of all five.
fn counts_rise(words: &[u32], e: usize) -> bool
    requires { e < 1000 }
    ensures { result ≡ counts_rise words.now e }
{
    (0..layout::ENTRY_WORDS).all(|c| count_fits(words, e, c))
}

// Is the row of entry e as it should be? `starts` has the places of the listed names.
#[tactic(auto, unfolding(crate::specs::Rows::row_right))]
fn row_fits(words: &[u32], starts: &[u32], e: usize) -> bool
    requires { e < 1000 }
    ensures { result ≡ row_right words.now starts.now e }
{
    counts_rise(words, e)
        && count_at(words, e, count::NAME_BYTES)
            == number_at(starts, count_at(words, e, count::NAMES))
}

// Are all of them?
fn rows_fit(words: &[u32], starts: &[u32]) -> bool
    requires { get_or words.now 1 0 ≤ 1000 }
    ensures { result ≡ rows_right words.now starts.now }
{
    (0..number_at(words, layout::ENTRIES)).all(|e| row_fits(words, starts, e))
}

// Has the last row the session's counts?
fn last_fits(words: &[u32]) -> bool
    requires { get_or words.now 1 0 ≤ 1000 }
    ensures { result ≡ last_right words.now }
{
    let entries = number_at(words, layout::ENTRIES);
    (0..layout::ENTRY_WORDS).all(|c| count_before(words, entries, c)
        == number_at(words, layout::COUNTS + c))
}

// Is f the number of a function of an entry up to e? Row 0 of a sheet is none.
pub fn is_function_up_to(e: usize, f: usize) -> bool
    ensures { result ≡ is_function_up_to whole [] [] e f }
{
    let entry = f / limit::ROWS;
    entry <= e && f != limit::ROWS * entry
}

// Is f the number of a function of entry e?
pub fn is_function_of(e: usize, f: usize) -> bool
    ensures { result ≡ (is_function_up_to whole [] [] e f && eqb (f / 2048) e) }
{
    is_function_up_to(e, f) && f / limit::ROWS == e
}

// Is x the number of a name, up to the last one?
pub fn is_name(x: usize, last: usize) -> bool
    ensures { result ≡ (leb 1 x && leb x last) }
{
    (1..=last).contains(&x)
}

// The number of class i.
pub fn class_number(words: &[u32], i: usize) -> usize
    requires { i < 2 ^ 32 }
    ensures { (result ≡ number_of words.now i) × (result < 2 ^ 32) }
{
    number_at(words, layout::CLASS_ROWS + layout::CLASS_WORDS * i)
}

// Has class i of entry e, whose first class is `first`, a number of the entry, above that of the class before it?
#[tactic(auto, unfolding(crate::specs::Rows::number_rises), using(crate::proofs::OrderLaws::number_small))]
fn number_fits(words: &[u32], e: usize, first: usize, i: usize) -> bool
    requires { (first ≤ i) × (i < 2 ^ 32) }
    ensures { result ≡ number_rises words.now e first i }
{
    let number = class_number(words, i);
    FIRST_CLASS <= number
        && is_function_of(e, number - FIRST_CLASS)
        && (i == first || class_number(words, i - 1) < number)
}

// The same of all classes of entry e.
fn numbers_rise(words: &[u32], e: usize) -> bool
    requires { e < 1000 }
    ensures { result ≡ numbers_rise words.now e }
{
    let first = count_before(words, e, count::CLASSES);
    let end = count_at(words, e, count::CLASSES);
    (first..end).all(|i| number_fits(words, e, first, i))
}

// The same of all entries.
fn all_rise(words: &[u32]) -> bool
    requires { get_or words.now 1 0 ≤ 1000 }
    ensures { result ≡ all_rise words.now }
{
    (0..number_at(words, layout::ENTRIES)).all(|e| numbers_rise(words, e))
}

// Are the rows of entries and the numbers of classes as they should be, and has the last row the session's counts?
#[tactic(auto, unfolding(crate::specs::Rows::order_right))]
pub fn order_fits(words: &[u32], starts: &[u32]) -> bool
    requires { get_or words.now 1 0 ≤ 1000 }
    ensures { result ≡ order_right words.now starts.now }
{
    rows_fit(words, starts) && last_fits(words) && all_rise(words)
}
