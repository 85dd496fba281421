// The fields and methods of the records: a field is one word, a method three.
ghost use Rattle.std.specs.Prelude.{◌≡◌, map, ℕ, ◌+◌, ◌<◌, ◌≤◌, get_or};
ghost use Rattle.std.proofs.lemmas.List.Edits.{sets};
ghost use Rattle.definition.specs.Basics.{concat_map, from};
ghost use Rattle.definition.specs.Outside.{core};
ghost use Rattle.session.specs.Words.{whole, member_place};
ghost use Rattle.session_outside.specs.Written.{method_words, member_run, records_from, earlier_method_in};

use crate::layout;
use crate::runs::SessionRuns;
use words::{entry_at, put_entry, put_words};

// The fields of the core's records, by name number.
const CORE_FIELDS: [u32; 14] = [
    // UIEvent: kind, window_id, key, button, x, y, dx, dy, text
    10, 11, 12, 13, 14, 15, 16, 17, 18,
    // AudioNeeded: num_samples, num_channels, device_id
    19, 20, 21,
    // AudioData: device_id, num_samples
    21, 19,
];

// Writes the names of `count` members as fields.
fn copy_fields(session: &[u32], first: u32, count: u32, at: u32, out: &mut [u32])
    requires { (first + count ≤ 8192) × (at ≤ 131072) }
    ensures { out.new ≡ sets out.old at (map (λ j. get_or session.now (member_place whole j) 0) (from first count)) }
{
    for i in 0..count {
        let p = layout::MEMBERS + layout::MEMBER_WORDS * (first + i);
        put_entry(out, at + i, entry_at(session, p));
    }
}

// Writes `count` members as methods.
fn copy_methods(session: &[u32], first: u32, count: u32, at: u32, out: &mut [u32])
    requires { (first + count ≤ 8192) × (at ≤ 131072)
        × ((j : ℕ) → first ≤ j → j < first + count → get_or session.now (member_place whole j + 1) 0 < 4294965248) }
    ensures { out.new
        ≡ sets out.old at (concat_map method_words (map (earlier_method_in session.now) (from first count))) }
{
    for i in 0..count {
        let p = layout::MEMBERS + layout::MEMBER_WORDS * (first + i);
        let q = at + 3 * i;
        put_entry(out, q, entry_at(session, p));
        put_entry(
            out,
            q + 1,
            entry_at(session, p + layout::FUNCTION) + layout::PAST_ROWS,
        );
        put_entry(out, q + 2, entry_at(session, p + layout::PARAMETERS));
    }
}

// Writes the members of all classes, one class's after another's. Answers the place after them.
fn class_members(runs: SessionRuns<'_>, start: u32, out: &mut [u32]) -> u32
    requires { start ≤ 65536 }
    ensures { (result ≤ start + 24576) × (sets out.new result (concat_map member_run core.records)
        ≡ sets out.old start (concat_map member_run (records_from runs.entry.words.now 0))) }
{
    let classes = entry_at(runs.words, layout::CLASS_COUNT);
    let mut at = start;
    let mut member: u32 = 0;
    for i in 0..classes {
        let p = layout::CLASSES + layout::CLASS_WORDS * i;
        let fields = entry_at(runs.words, p + layout::FIELDS);
        let methods = entry_at(runs.words, p + layout::METHODS);
        copy_fields(runs.words, member, fields, at, out);
        copy_methods(runs.words, member + fields, methods, at + fields, out);
        member += fields + methods;
        at += fields + 3 * methods;
    }
    at
}

// Writes the fields of the core's records.
fn core_fields(at: u32, out: &mut [u32])
    requires { at ≤ 131072 }
    ensures { out.new ≡ sets out.old at (concat_map member_run core.records) }
{
    put_words(out, at as usize, &CORE_FIELDS);
}

// Writes the members of all records from `start` on.
pub fn member_runs(runs: SessionRuns<'_>, start: u32, out: &mut [u32])
    requires { start ≤ 65536 }
    ensures { out.new ≡ sets out.old start (concat_map member_run (records_from runs.entry.words.now 0)) }
{
    core_fields(class_members(runs, start, out), out);
}
