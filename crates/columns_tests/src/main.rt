// Tries `rearrange` on the cases of its input, which are rows of eight numbers in the text of a sheet. Prints a line for each: the answer, the first 40
// words of the target, and a checksum of all.
//
// The numbers of a case are
//   0     1 to store by column, 2 for the way back, 3 for both, one after the other; 0 for no case, any other as 1
//   1, 2  how many words the source and the target have
//   3     what each word of the target holds before
//   4, 5  the source's first word, and how much each is above the one before it, modulo 2^32
//   6, 7  a place of the source, and the word that it has instead
#![tactic(auto)]

use ast::question::Question;
use columns::{Way, rearrange};
use program_io::read_full;
use words::put_entry;

// What a case tries.
#[derive(Clone, Copy, Debug, PartialEq, Eq)]
enum Trial {
    Store,
    TakeBack,
    Both,
}

// What the first number of a row says to try, any other number what 1 says; nothing where it is 0, so that the row is no case.
fn trial_of(number: u32) -> Option<Trial> {
    match number {
        0 => None,
        2 => Some(Trial::TakeBack),
        3 => Some(Trial::Both),
        _ => Some(Trial::Store),
    }
}

fn fill(words: &mut [u32], first: u32, step: u32) {
    let mut next = first;
    for word in words {
        *word = next;
        next = next.wrapping_add(step);
    }
}

// A checksum with one word more.
fn mixed(checksum: u32, word: u32) -> u32 {
    ((u64::from(checksum) * 31 + u64::from(word)) % 4294967291) as u32
}

fn print_case(rt: &impl Print, asked: Result<(), Question>, target: &[u32]) {
    let answer = match asked {
        Ok(()) => 0,
        Err(no) => no as u32,
    };
    let _ = print!(rt; "{answer}");
    for word in target.iter().take(40) {
        let _ = print!(rt; " {word}");
    }
    let checksum = target.iter().fold(0, |sum, &word| mixed(sum, word));
    let _ = println!(rt; " sum {checksum}");
}

// Prints what is in the target after one way; after both, what is in the source, which the way back from the target is written into.
fn try_trial(rt: &impl Print, trial: Trial, source: &mut [u32], target: &mut [u32], stale: u32) {
    match trial {
        Trial::Store => print_case(rt, rearrange(Way::ToColumns, source, target), target),
        Trial::TakeBack => print_case(rt, rearrange(Way::ToRows, source, target), target),
        Trial::Both => {
            let _ = rearrange(Way::ToColumns, source, target);
            fill(source, stale, 0);
            let stored = &target[..source.len().min(target.len())];
            print_case(rt, rearrange(Way::ToRows, stored, source), source);
        }
    }
}

// A case, in the first words of `a` and `b`. One that has no room there is left out.
fn try_case(rt: &impl Print, case: &[u32], a: &mut [u32], b: &mut [u32]) {
    let &[way, n, m, stale, first, step, place, changed] = case else {
        return;
    };
    let Some(trial) = trial_of(way) else {
        return;
    };
    let Some(source) = a.get_mut(..n as usize) else {
        return;
    };
    let Some(target) = b.get_mut(..m as usize) else {
        return;
    };
    fill(source, first, step);
    put_entry(source, place, changed);
    fill(target, stale, 0);
    try_trial(rt, trial, source, target, stale);
}

fn main(rt: HostRuntime) {
    let mut input = [0u8; 65536];
    let n = read_full(&mut rt.stdin(), &mut input);
    // as many rows as the buffer holds
    let mut cases = [0u32; 6472];
    text::read_sheet(&input[..n], &mut cases);
    // 2,049 rows, and a target that is longer still
    let mut a = [0u32; 17000];
    let mut b = [0u32; 17000];
    for case in cases.chunks_exact(8) {
        try_case(&rt, case, &mut a, &mut b);
    }
}
