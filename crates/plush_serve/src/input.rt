// The bytes of a request.
ghost use Rattle.std.specs.Prelude.{◌≤◌, length, IfOk};
ghost use Rattle.program_io.specs.Counts.{IsPrefixLen};

use program_io::read_full;
use request::broken::Broken;
use std::io::Read;

// Reads from `start` on until the bytes are full or the input ends, each time as many as there are: a pipe hands over few at once. Returns
// how many bytes there are then.
pub fn fill<R: Read>(input: &mut R, bytes: &mut [u8], start: usize) -> usize
    requires { start ≤ length bytes.old }
    ensures { IsPrefixLen result bytes.new }
{
    let more = read_full(input, &mut bytes[start..]);
    start + more
}

// Reads n bytes, or as many of them as the lent ones hold. Returns how many; fewer where the input ends.
pub fn read_part<R: Read>(input: &mut R, n: usize, bytes: &mut [u8]) -> usize
    ensures { (IsPrefixLen result bytes.new) × (result ≤ n) }
{
    if n < bytes.len() {
        return fill(input, &mut bytes[..n], 0);
    }
    fill(input, bytes, 0)
}

// Reads n bytes part by part and keeps none. An error says that the input ends before.
pub fn skip<R: Read>(input: &mut R, n: usize) -> Result<(), Broken> {
    let mut part = [0u8; 4096];
    let mut left = n;
    while left > 0 {
        let got = read_part(input, left, &mut part);
        if got == 0 {
            return Err(Broken::CutOff);
        }
        left -= got;
    }
    Ok(())
}

// Reads a body of n bytes. What the lent bytes do not hold is read past. Returns how many are kept; an error says that the input ends inside it.
pub fn read_body<R: Read>(input: &mut R, n: usize, bytes: &mut [u8]) -> Result<usize, Broken>
    ensures { IfOk result (λ kept. IsPrefixLen kept bytes.new) }
{
    let kept = read_part(input, n, bytes);
    skip(input, n - kept)?;
    Ok(kept)
}
