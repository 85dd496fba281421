// What the programs ask of the system, whatever the reader and the handle are.
#![tactic(auto)]

ghost use Rattle.std.specs.Prelude.{take};
ghost use Rattle.std.specs.Io.KnownBytes.{Consumes};
ghost use Rattle.program_io.specs.Counts.{IsPrefixLen};

use std::io::{Error, Read, Write};
use std::str::from_utf8;

// One read: how many bytes it put at the start of the lent ones, 0 at the end and where it fails.
fn read_some<R: Read>(input: &mut R, bytes: &mut [u8]) -> usize
    ensures count { IsPrefixLen result bytes.new }
    ensures bytes { Consumes (R.remaining input.old) (R.remaining input.new) (take result bytes.new) }
{
    match input.read(bytes) {
        Ok(n) => n,
        Err(_) => 0,
    }
}

// Reads until the bytes are full, the input ends or a read fails. Returns how many bytes there are at the start then.
pub fn read_full<R: Read>(input: &mut R, bytes: &mut [u8]) -> usize
    ensures count { IsPrefixLen result bytes.new }
    ensures bytes { Consumes (R.remaining input.old) (R.remaining input.new) (take result bytes.new) }
{
    let mut done = 0;
    while done < bytes.len() {
        let n = read_some(input, &mut bytes[done..]);
        if n == 0 {
            break;
        }
        done += n;
    }
    done
}

// The words of an error's text, which stand before its number.
fn words(text: &str) -> &str {
    match text.split_once(" (os error ") {
        Some((words, _)) => words,
        None => text.trim_end_matches('\0'),
    }
}

// Says on standard error what failed, and in the system's words why.
pub fn fail<R: Eprint>(rt: &R, what: &str, why: &Error) {
    let mut room = [0u8; 128];
    let mut rest = &mut room[..];
    let _ = write!(rest, "{why}");
    let words = words(from_utf8(&room).unwrap_or(""));
    let _ = eprintln!(rt; "{what}: {words}");
}
