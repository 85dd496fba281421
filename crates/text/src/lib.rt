// A sheet's text and its words: a row is eight numbers, each right-justified in ten columns, and a newline.
#![tactic(auto)]

ghost use Rattle.std.specs.Prelude.{◌≡◌, true, ◌*◌, ◌≤◌, length, take};
ghost use Rattle.definition.specs.Basics.{when◌then◌else◌};
ghost use Rattle.definition.specs.Text.{in_ten, trimmed};
ghost use Rattle.text.specs.Lines.{is_line, numbers_of, number_in, digits_from, whole_lines, good_lines, numbers_in, line_of, place_byte};
ghost use Rattle.text.specs.Reading.{SheetRead, lines_read};
ghost use Rattle.text.specs.Writing.{RowsWritten};

use ast::limit;
use words::clear;

// The number that bytes write, if all are digits. Ten digits at most fit 64 bits.
fn read_digits(digits: &[u8]) -> Option<u64>
    requires { length digits.now ≤ 10 }
    ensures { result ≡ digits_from 0 digits.now }
{
    let mut v: u64 = 0;
    for &byte in digits {
        if !byte.is_ascii_digit() {
            return None;
        }
        v = 10 * v + u64::from(byte - b'0');
    }
    Some(v)
}

// A column without its leading spaces.
fn trimmed(column: &[u8]) -> &[u8]
    ensures { (result.now ≡ trimmed column.now) × (length result.now ≤ length column.now) }
{
    let mut rest = column;
    while let [b' ', others @ ..] = rest {
        rest = others;
    }
    rest
}

// The number in a column. A zero has no digit after it.
fn read_number(column: &[u8]) -> Option<u32>
    requires { length column.now ≤ 10 }
    ensures { result ≡ number_in column.now }
{
    let digits = trimmed(column);
    if digits.is_empty() || digits[0] == b'0' && digits.len() > 1 {
        return None;
    }
    // Measured: most columns of a sheet are 0, which needs no loop over digits.
    if digits[0] == b'0' {
        return Some(0);
    }
    u32::try_from(read_digits(digits)?).ok()
}

// Reads a line into a row. Where it is no line, the row is left as far as it was read.
fn read_line(line: &[u8], row: &mut [u32]) -> bool
    requires { (length line.now ≡ 81) × (length row.old ≡ 8) }
    ensures { (result ≡ is_line line.now) × (result ≡ true → row.new ≡ numbers_of line.now) }
{
    for (c, word) in row.iter_mut().enumerate() {
        let Some(n) = read_number(&line[10 * c..10 * c + 10]) else {
            return false;
        };
        *word = n;
    }
    line[80] == b'\n'
}

// Reads n lines into as many rows. Returns n, or 0 where one of them is no line.
// By index: after `chunks_exact_mut` a proof knows no word that was written.
fn read_lines(text: &[u8], words: &mut [u32], n: usize) -> usize
    requires { (81 * n ≤ length text.now) × (8 * n ≤ length words.old) }
    ensures { (result ≡ (when good_lines text.now n then n else 0)) × (take (8 * result) words.new ≡ numbers_in text.now result) }
{
    for r in 0..n {
        if !read_line(&text[81 * r..81 * r + 81], &mut words[8 * r..8 * r + 8]) {
            return 0;
        }
    }
    n
}

// The lines to read of so many bytes into so many words, where they are whole and not too many.
#[tactic(auto, unfolding(crate::specs::Lines::whole_lines))]
fn lines_to_read(bytes: usize, lent: usize) -> Option<usize>
    ensures { result ≡ whole_lines bytes lent }
{
    let n = bytes / 81;
    (81 * n == bytes && n <= limit::ROWS && 8 * n <= lent).then_some(n)
}

// Reads the lines of a text, if all of them are lines and fit the words. Returns the number of lines read: all, or none.
fn read_all(text: &[u8], words: &mut [u32]) -> usize
    ensures { (result ≡ lines_read text.now (length words.old)) × (take (8 * result) words.new ≡ numbers_in text.now result) }
{
    match lines_to_read(text.len(), words.len()) {
        Some(n) => read_lines(text, words, n),
        None => 0,
    }
}

// Reads a sheet's text into the lent words, and clears those after it. Returns the number of lines read: all, or none.
pub fn read_sheet(text: &[u8], words: &mut [u32]) -> usize
    ensures { SheetRead text.now (length words.old) result words.new }
{
    let count = read_all(text, words);
    clear(&mut words[8 * count..]);
    count
}

// The byte at place i of ten, of a number whose digits up to there write `rest`: a space before the first digit.
#[tactic(auto, unfolding(crate::specs::Lines::place_byte))]
fn place_byte(rest: u32, i: usize) -> u8
    ensures { result ≡ place_byte rest i }
{
    if rest == 0 && i < 9 {
        b' '
    } else {
        b'0' + (rest % 10) as u8
    }
}

// Writes a number right-justified in ten columns, its last digit first.
fn write_number(n: u32, column: &mut [u8])
    requires { length column.old ≡ 10 }
    ensures { column.new ≡ in_ten n }
{
    let mut left = n;
    for i in (0..10).rev() {
        column[i] = place_byte(left, i);
        left /= 10;
    }
}

// Writes a row as a line.
fn write_line(row: &[u32], line: &mut [u8])
    requires { (length row.now ≡ 8) × (length line.old ≡ 81) }
    ensures { line.new ≡ line_of row.now }
{
    for (c, &n) in row.iter().enumerate() {
        write_number(n, &mut line[10 * c..10 * c + 10]);
    }
    line[80] = b'\n';
}

// Writes the whole rows of the words as text. Returns the number of bytes, or 0 where they do not fit the lent text.
pub fn write_rows(words: &[u32], text: &mut [u8]) -> usize
    ensures { RowsWritten words.now text.old result text.new }
{
    let n = words.len() / 8;
    if n > text.len() / 81 {
        return 0;
    }
    for r in 0..n {
        write_line(&words[8 * r..8 * r + 8], &mut text[81 * r..81 * r + 81]);
    }
    81 * n
}
