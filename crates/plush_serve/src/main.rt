// Answers requests from the standard input on the standard output, one after another.
//
// The bodies of a request are read, a routine of a library makes the reply of its verb, and that is written. A request that is broken ends the
// program, with a line on standard error.
#![tactic(auto)]

ghost use Rattle.std.specs.Prelude.{IfOk};
ghost use Rattle.program_io.specs.Counts.{IsPrefixLen};

mod input;
mod say;

use columns::Way;
use columns_text::columns_lent;
use enter_text::enter_lent;
use find_text::find_lent;
use fresh_session::fresh;
use input::{fill, read_body};
use name_reply::name_lent;
use order_text::order_lent;
use preview_text::preview_lent;
use request::broken::Broken;
use request::verb::Verb;
use request::{Request, read_request};
use resolve_text::resolve_lent;
use say::{End, say};
use std::io::Read;
use withdraw_text::withdraw_lent;

const HEADER_BYTES: usize = 81;

// The reply to a request with these bodies, by its verb: how many bytes it has. Bytes that are looked for stand in place of a sheet's text.
fn reply(
    request: Request,
    words: &mut [u32],
    bytes: &mut [u8],
    sheet: &[u8],
    names: &[u8],
    text: &mut [u8],
) -> usize
    ensures { IsPrefixLen result text.new }
{
    let x = request.x;
    let lent = x as usize;
    match request.verb {
        Verb::Resolve => resolve_lent(sheet, names, lent, text),
        Verb::Enter => enter_lent(words, bytes, sheet, names, lent, text),
        Verb::Preview => preview_lent(words, bytes, sheet, names, lent, text),
        Verb::Withdraw => withdraw_lent(words, bytes, text),
        Verb::NameText => name_lent(words, bytes, names, x, request.y, text),
        Verb::FindName => find_lent(names, sheet, text),
        Verb::OrderUnits => order_lent(sheet, names, lent, text),
        Verb::ToColumns => columns_lent(sheet, Way::ToColumns, lent, text),
        Verb::FromColumns => columns_lent(sheet, Way::ToRows, lent, text),
    }
}

// How many bytes of a request's two bodies are kept: of the sheet, or of what is looked for, and of the names.
fn read_bodies<R: Read>(
    input: &mut R,
    request: Request,
    sheet: &mut [u8],
    names: &mut [u8],
) -> Result<(usize, usize), Broken>
    ensures { IfOk result (λ kept. (IsPrefixLen kept.0 sheet.new) × (IsPrefixLen kept.1 names.new)) }
{
    if request.verb == Verb::FindName {
        let n = read_body(input, request.names as usize, names)?;
        let s = read_body(input, request.second_names as usize, sheet)?;
        return Ok((s, n));
    }
    let s = read_body(input, request.sheet as usize, sheet)?;
    let n = read_body(input, request.names as usize, names)?;
    Ok((s, n))
}

// The request of a header. Of a body that is too long one byte more than the longest accepted is kept.
fn answer<P: Print, R: Read>(
    rt: &P,
    input: &mut R,
    header: &[u8],
    words: &mut [u32],
    bytes: &mut [u8],
    sheet: &mut [u8],
    names: &mut [u8],
    text: &mut [u8],
) -> Result<(), End> {
    let request = read_request(header).map_err(|no| End::Broken(no.why))?;
    let (s, n) = read_bodies(input, request, sheet, names).map_err(End::Broken)?;
    let count = reply(request, words, bytes, &sheet[..s], &names[..n], text);
    rt.write_all(&text[..count])
        .map_err(|e| End::Failed("write", e))
}

// One request. Where there is no byte of a header, there is no request.
fn step<P: Print, R: Read>(
    rt: &P,
    input: &mut R,
    words: &mut [u32],
    bytes: &mut [u8],
    sheet: &mut [u8],
    names: &mut [u8],
    text: &mut [u8],
) -> Result<(), End> {
    let mut header = [0u8; HEADER_BYTES];
    let got = input.read(&mut header).map_err(|e| End::Failed("read", e))?;
    if got == 0 {
        return Err(End::Done);
    }
    if fill(input, &mut header, got) < HEADER_BYTES {
        return Err(End::Broken(Broken::CutOff));
    }
    answer(rt, input, &header, words, bytes, sheet, names, text)
}

// All requests, with the words and bytes of the program's session. A loop needs an end; this one is out of reach.
fn run<P: Print, R: Read>(
    rt: &P,
    input: &mut R,
    words: &mut [u32],
    bytes: &mut [u8],
    sheet: &mut [u8],
    names: &mut [u8],
    text: &mut [u8],
) -> Result<(), End> {
    for _ in 0..u64::MAX {
        step(rt, input, words, bytes, sheet, names, text)?;
    }
    Ok(())
}

// Room for a session, for one byte more than the longest sheet and names have, and for the longest reply.
fn main(rt: HostRuntime) {
    let mut words = [0u32; 51088];
    let mut bytes = [0u8; 32936];
    let mut sheet = [0u8; 165889];
    let mut names = [0u8; 32769];
    let mut text = [0u8; 166050];
    fresh(&mut words, &mut bytes);
    if let Err(end) = run(
        &rt,
        &mut rt.stdin(),
        &mut words,
        &mut bytes,
        &mut sheet,
        &mut names,
        &mut text,
    ) {
        say(&rt, end);
    }
}
