// The rows of class records: those of the session's classes, then the core's three. The bounds on rows and places here and in `members` are round
// numbers above what occurs, so that sums fit a word.
ghost use Rattle.std.specs.Prelude.{◌≡◌, [], ◌+◌, ◌*◌, ◌<◌, ◌≤◌, get_or};
ghost use Rattle.std.proofs.lemmas.List.Edits.{sets};
ghost use Rattle.definition.specs.Outside.{core};
ghost use Rattle.session.specs.Session.{earlier_record};
ghost use Rattle.session.specs.Words.{whole, class_in};
ghost use Rattle.session_outside.specs.Written.{record_row, next_place, record_rows, records_from};

use crate::layout;
use crate::rows::put_row;
use crate::runs::SessionRuns;
use ast::{AUDIO_DATA_ID, AUDIO_NEEDED_ID, UIEVENT_ID};
use words::entry_at;

// Writes the row of class `i`, whose members begin at a place. Answers where those of the next begin.
fn class_row(runs: SessionRuns<'_>, i: u32, row: u32, place: u32, out: &mut [u32]) -> u32
    requires { (i < get_or runs.words.now 6 0) × (place ≤ 131072) }
    ensures { (result ≡ next_place place (earlier_record (class_in whole runs.entry.words.now [] i)))
        × (out.new ≡ sets out.old (8 * row) (record_row place (earlier_record (class_in whole runs.entry.words.now [] i)))) }
{
    let p = layout::CLASSES + layout::CLASS_WORDS * i;
    let number = entry_at(runs.words, p) + layout::PAST_ROWS;
    let name = entry_at(runs.words, p + layout::CLASS_NAME);
    let fields = entry_at(runs.words, p + layout::FIELDS);
    let methods = entry_at(runs.words, p + layout::METHODS);
    put_row(
        out,
        row,
        [number, name, place, fields, place + fields, methods, 0, 0],
    );
    place + fields + 3 * methods
}

// Writes the rows of all classes. Answers where the members of the next record begin.
fn class_rows(runs: SessionRuns<'_>, first: u32, start: u32, out: &mut [u32]) -> u32
    requires { (first ≤ 8192) × (start ≤ 65536) }
    ensures { (result ≤ start + 24576) × (sets out.new (8 * (first + get_or runs.entry.words.now 6 0)) (record_rows result core.records)
        ≡ sets out.old (8 * first) (record_rows start (records_from runs.entry.words.now 0))) }
{
    let classes = entry_at(runs.words, layout::CLASS_COUNT);
    let mut place = start;
    for i in 0..classes {
        place = class_row(runs, i, first + i, place, out);
    }
    place
}

// Writes the rows of the core's records: UIEvent (name 7) with nine fields, AudioNeeded (8) with three, AudioData (9) with two; none has methods.
#[tactic(auto, using(crate::proofs::RecordLaws::core_rows_written))]
fn core_rows(row: u32, place: u32, out: &mut [u32])
    requires { (row ≤ 16384) × (place ≤ 131072) }
    ensures { out.new ≡ sets out.old (8 * row) (record_rows place core.records) }
{
    put_row(out, row, [UIEVENT_ID.0, 7, place, 9, place + 9, 0, 0, 0]);
    put_row(
        out,
        row + 1,
        [AUDIO_NEEDED_ID.0, 8, place + 9, 3, place + 12, 0, 0, 0],
    );
    put_row(
        out,
        row + 2,
        [AUDIO_DATA_ID.0, 9, place + 12, 2, place + 14, 0, 0, 0],
    );
}

// Writes the rows of all records, whose members stand one after another from `start` on.
pub fn record_rows(runs: SessionRuns<'_>, first: u32, start: u32, out: &mut [u32])
    requires { (first ≤ 8192) × (start ≤ 65536) }
    ensures { out.new ≡ sets out.old (8 * first) (record_rows start (records_from runs.entry.words.now 0)) }
{
    let place = class_rows(runs, first, start, out);
    core_rows(
        first + entry_at(runs.words, layout::CLASS_COUNT),
        place,
        out,
    );
}
