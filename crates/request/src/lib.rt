// The header of a request: a row of eight numbers, and what the verb allows of each.
#![tactic(auto)]

pub mod broken;
mod column;
pub mod verb;

ghost use Rattle.std.specs.Prelude.{◌≡◌, length};
ghost use Rattle.request.specs.Header.{largest, checked, told, refused, request_of};

use crate::broken::Broken;
use crate::verb::Verb;
use ast::limit;
use text::read_sheet;

// A body may be of any length: what is too long is for a question to refuse. So may the number of a name: one that names nothing has no text.
const ANY: u32 = 4294967295;

// Whose number of a name it is: 0 says the session's, 1 the entry's.
const OF_ENTRY: u32 = 1;

// The most bytes that can be looked for.
const LOOKED_FOR: u32 = 32768;

// The numbers of a header.
#[derive(Clone, Copy)]
pub struct Request {
    pub verb: Verb,
    pub sheet: u32,
    pub names: u32,
    pub flags: u32,
    pub x: u32,
    pub y: u32,
    pub second_sheet: u32,
    pub second_names: u32,
}

// What breaks a request, with the numbers of its header as they stand; all are 0 where the header is no row.
#[derive(Clone, Copy)]
pub struct BrokenRequest {
    pub why: Broken,
    pub verb: u32,
    pub sheet: u32,
    pub names: u32,
    pub flags: u32,
    pub x: u32,
    pub y: u32,
    pub second_sheet: u32,
    pub second_names: u32,
}

// The largest of each number that a verb takes, in the order of the header.
fn largest_of(verb: Verb) -> [u32; 8]
    ensures { result ≡ largest verb }
{
    match verb {
        Verb::Resolve => [1, ANY, ANY, 0, limit::LENT_ROWS, 0, 0, 0],
        Verb::Enter => [2, ANY, ANY, 0, limit::LENT_ROWS, 0, 0, 0],
        Verb::Preview => [3, ANY, ANY, 0, limit::LENT_ROWS, 0, 0, 0],
        Verb::Withdraw => [4, 0, 0, 0, 0, 0, 0, 0],
        Verb::NameText => [5, 0, ANY, 0, OF_ENTRY, ANY, 0, 0],
        Verb::FindName => [6, 0, ANY, 0, 0, 0, 0, LOOKED_FOR],
        Verb::OrderUnits => [7, ANY, ANY, 0, limit::LENT_ROWS, 0, 0, 0],
        Verb::ToColumns => [9, ANY, 0, 0, limit::LENT_ROWS, 0, 0, 0],
        Verb::FromColumns => [10, ANY, 0, 0, limit::LENT_ROWS, 0, 0, 0],
    }
}

// What breaks a request of a known verb, whose numbers may be so large.
#[tactic(auto, unfolding(crate::specs::Header::checked))]
fn check(most: &[u32], row: &[u32]) -> Result<(), Broken>
    requires { (length most.now ≡ 8) × (length row.now ≡ 8) }
    ensures { result ≡ checked most.now row.now }
{
    if row[column::FLAGS] > most[column::FLAGS] {
        Err(Broken::Flags)
    } else if row[column::X] > most[column::X] {
        Err(Broken::X)
    } else if row[column::Y] > most[column::Y] {
        Err(Broken::Y)
    } else if row[column::SHEET] > most[column::SHEET]
        || row[column::NAMES] > most[column::NAMES]
        || row[column::SECOND_SHEET] > most[column::SECOND_SHEET]
        || row[column::SECOND_NAMES] > most[column::SECOND_NAMES]
    {
        Err(Broken::Bodies)
    } else {
        Ok(())
    }
}

#[tactic(auto, unfolding(crate::specs::Header::told))]
fn tell(verb: Verb, row: &[u32]) -> Request
    requires { length row.now ≡ 8 }
    ensures { result ≡ told verb row.now }
{
    Request {
        verb,
        sheet: row[column::SHEET],
        names: row[column::NAMES],
        flags: row[column::FLAGS],
        x: row[column::X],
        y: row[column::Y],
        second_sheet: row[column::SECOND_SHEET],
        second_names: row[column::SECOND_NAMES],
    }
}

#[tactic(auto, unfolding(crate::specs::Header::refused))]
fn refuse(why: Broken, row: &[u32]) -> BrokenRequest
    requires { length row.now ≡ 8 }
    ensures { result ≡ refused why row.now }
{
    BrokenRequest {
        why,
        verb: row[column::VERB],
        sheet: row[column::SHEET],
        names: row[column::NAMES],
        flags: row[column::FLAGS],
        x: row[column::X],
        y: row[column::Y],
        second_sheet: row[column::SECOND_SHEET],
        second_names: row[column::SECOND_NAMES],
    }
}

// Reads a header. An error is what breaks the request, with the numbers as they stand.
pub fn read_request(header: &[u8]) -> Result<Request, BrokenRequest>
    ensures { result ≡ request_of header.now }
{
    let mut row = [0u32; 8];
    if read_sheet(header, &mut row) == 0 {
        return Err(refuse(Broken::NoRow, &row));
    }
    let verb = match Verb::try_from(row[column::VERB]) {
        Ok(verb) => verb,
        Err(why) => return Err(refuse(why, &row)),
    };
    match check(&largest_of(verb), &row) {
        Ok(()) => Ok(tell(verb, &row)),
        Err(why) => Err(refuse(why, &row)),
    }
}
