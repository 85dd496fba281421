// Reads sheet.txt and names.txt, and prints the first question that gets a no, or the answer rows.
#![tactic(auto)]

ghost use Rattle.program_io.specs.Counts.{IsPrefixLen};

use program_io::{fail, read_full};
use resolve_text::resolve_text;
use std::fs::File;
use std::io::Read;
use std::rt::Files;

// Has the file no bytes left? A read that fails says no.
fn at_end<F: Read>(file: &mut F) -> bool {
    let mut more = [0u8; 1];
    match file.read(&mut more) {
        Ok(n) => n == 0,
        Err(_) => false,
    }
}

// Reads an open file into the lent bytes, as far as they go. Returns their number, 0 where it is unreadable.
fn read_whole<F: Read>(file: &mut F, bytes: &mut [u8]) -> usize
    ensures { IsPrefixLen result bytes.new }
{
    let n = read_full(file, bytes);
    let is_whole = n == bytes.len() || at_end(file);
    if is_whole {
        return n;
    }
    0
}

// Reads a file into the lent bytes, as far as they go. Returns their number, 0 where it is unreadable.
fn read_file<R: Files>(rt: &R, path: &str, bytes: &mut [u8]) -> usize
    ensures { IsPrefixLen result bytes.new }
{
    match File::open(rt, path) {
        Ok(mut file) => read_whole(&mut file, bytes),
        Err(_) => 0,
    }
}

fn print_report<R: Print + Eprint>(rt: &R, sheet: &[u8], names: &[u8]) {
    // the longest report: 2,049 lines of 81 bytes
    let mut text = [0u8; 165969];
    let n = resolve_text(sheet, names, &mut text);
    if let Err(e) = rt.write_all(&text[..n]) {
        fail(rt, "write", &e);
    }
}

// Room for one byte more than the longest sheet and names have: a longer file is refused, not cut.
fn main(rt: HostRuntime) {
    let mut sheet = [0u8; 165889];
    let mut names = [0u8; 32769];
    let s = read_file(&rt, "sheet.txt", &mut sheet);
    let n = read_file(&rt, "names.txt", &mut names);
    print_report(&rt, &sheet[..s], &names[..n]);
}
