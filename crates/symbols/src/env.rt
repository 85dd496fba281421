// The open scopes: entries of five words in a lent buffer, the innermost last. Searches go from the last entry down.
ghost use Rattle.std.specs.Prelude.{◌≡◌, [], ◌∷◌, ◌≤◌, ◌/◌, length};
ghost use Rattle.definition.specs.Walk.{enter, leave, loop};
ghost use Rattle.definition.specs.Basics.{when◌then◌else◌};
ghost use Rattle.definition.specs.Sheet.{Sheet, is};
ghost use Rattle.machine.specs.Machine.{entry_word, find_name, taken_in, loop_in, marks_after, last_mark, count_pushed, words_pushed, step_scopes};
ghost use Rattle.symbols.specs.OpenScopes.{scopes_of};

use crate::{entry, tag};
use ast::FunId;
use ast::kind::Kind;
use words::is_kind;

// The counters: entries in use, the next slot of a local, the innermost function or 0, the number of the next global.
#[derive(Clone, Copy)]
pub struct Env {
    pub count: u32,
    pub slot: u32,
    pub fun: FunId,
    pub globals: u32,
}

// Word `c` of entry `i`. A word past the end of the buffer reads as 0.
pub fn entry_word(entries: &[u32], i: u32, c: u32) -> u32
    ensures { result ≡ entry_word entries.now i c }
{
    let at = 5 * (i as usize) + (c as usize);
    if at < entries.len() { entries[at] } else { 0 }
}

// Where a name is declared: one more than the place of its entry, or 0, and how many functions' marks stand after it.
#[derive(Clone, Copy)]
pub struct NamePlace {
    pub place: u32,
    pub marks: u32,
}

// The innermost of the first `n` entries that declares name `m`. The search goes from the last entry down, past the marks that it counts.
// The entries lie in the buffer, so that their words are read where they stand.
pub fn find_name(sheet: &[u32], entries: &[u32], m: u32, n: u32) -> NamePlace
    requires { n ≤ length entries.now / 5 }
    ensures { (result.place ≡ find_name entries.now m n)
        × (result.marks ≡ marks_after sheet.now entries.now m n) }
{
    let mut marks = 0;
    for at in (0..n).rev() {
        let w = 5 * (at as usize);
        let tag = entries[w];
        let name = entries[w + 1];
        if tag == tag::SCOPE {
            if is_kind(sheet, name, Kind::Function) {
                marks += 1;
            }
        } else if name == m && tag::SCOPE < tag {
            return NamePlace {
                place: at + 1,
                marks,
            };
        }
    }
    NamePlace { place: 0, marks }
}

// The tag and the name of entry `i`. Measured: `has_local` reads them of each entry that it passes, with one test of their place.
#[inline(always)]
fn tag_and_name(entries: &[u32], i: u32) -> (u32, u32)
    ensures { (result.0 ≡ entry_word entries.now i 0) × (result.1 ≡ entry_word entries.now i 1) }
{
    let at = 5 * (i as usize);
    if at + 1 < entries.len() {
        (entries[at], entries[at + 1])
    } else {
        (
            entry_word(entries, i, entry::TAG),
            entry_word(entries, i, entry::NAME),
        )
    }
}

// Is name `m` declared in the innermost scope?
pub fn has_local(entries: &[u32], m: u32, n: u32) -> bool
    ensures { result ≡ taken_in entries.now m n }
{
    for i in (0..n).rev() {
        let (tag, name) = tag_and_name(entries, i);
        if tag == tag::SCOPE {
            return false;
        }
        if name == m && tag::SCOPE < tag {
            return true;
        }
    }
    false
}

// Is there a loop around, inside the innermost function?
pub fn in_loop(sheet: &[u32], entries: &[u32], n: u32) -> bool
    ensures { result ≡ loop_in sheet.now entries.now n }
{
    for i in (0..n).rev() {
        let tag = entry_word(entries, i, entry::TAG);
        if tag == tag::LOOP {
            return true;
        }
        if tag == tag::SCOPE
            && is_kind(sheet, entry_word(entries, i, entry::NAME), Kind::Function)
        {
            return false;
        }
    }
    false
}

// The place of the innermost scope's mark, or 0.
fn last_mark(entries: &[u32], n: u32) -> u32
    ensures { result ≡ last_mark entries.now n }
{
    for i in (0..n).rev() {
        if entry_word(entries, i, entry::TAG) == tag::SCOPE {
            return i;
        }
    }
    0
}

// One entry more, if there is room; the number of entries then.
pub fn push_entry(
    entries: &mut [u32],
    n: u32,
    tag: u32,
    name: u32,
    x: u32,
    y: u32,
    slot: u32,
) -> u32
    ensures { (result ≡ count_pushed entries.old n)
        × (entries.new ≡ words_pushed entries.old n (tag ∷ name ∷ x ∷ y ∷ slot ∷ [])) }
{
    let i = n as usize;
    if i < entries.len() / 5 {
        if n < 4294967295 {
            entries[5 * i] = tag;
            entries[5 * i + 1] = name;
            entries[5 * i + 2] = x;
            entries[5 * i + 3] = y;
            entries[5 * i + 4] = slot;
            return n + 1;
        }
    }
    n
}

// The innermost function inside the scope of `row`.
fn fun_inside(sheet: &[u32], row: u32, fun: FunId) -> FunId
    ensures { result.0 ≡ (when is sheet.now 6 row then row else fun.0) }
{
    if is_kind(sheet, row, Kind::Function) {
        FunId(row)
    } else {
        fun
    }
}

// Opens the scope of `row`. The mark keeps the function and the slot around it, to be restored.
pub fn push_scope(sheet: &[u32], row: u32, env: Env, entries: &mut [u32]) -> Env
    ensures { scopes_of result entries.new ≡ step_scopes sheet.now (enter row) (scopes_of env entries.old) }
{
    let count = push_entry(entries, env.count, tag::SCOPE, row, env.fun.0, 0, env.slot);
    Env {
        count,
        fun: fun_inside(sheet, row, env.fun),
        ..env
    }
}

// Marks a loop.
pub fn push_loop(env: Env, entries: &mut [u32]) -> Env
    ensures { (s : Sheet) → scopes_of result entries.new ≡ step_scopes s loop (scopes_of env entries.old) }
{
    let count = push_entry(entries, env.count, tag::LOOP, 0, env.fun.0, 0, env.slot);
    Env { count, ..env }
}

// Closes the innermost scope, and restores the function and the slot around it.
pub fn pop_scope(env: Env, entries: &[u32]) -> Env
    ensures { (s : Sheet) → scopes_of result entries.now ≡ step_scopes s leave (scopes_of env entries.now) }
{
    let mark = last_mark(entries, env.count);
    if mark == 0 {
        return Env {
            count: 0,
            slot: 0,
            fun: FunId(0),
            globals: env.globals,
        };
    }
    Env {
        count: mark,
        slot: entry_word(entries, mark, entry::SLOT),
        fun: FunId(entry_word(entries, mark, entry::FIRST)),
        globals: env.globals,
    }
}
