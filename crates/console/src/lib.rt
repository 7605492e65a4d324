// Standard input and output of the programs: an input is read whole or not at all, an answer is
// written whole, and what fails is said on standard error.
#![tactic(auto)]

ghost use Rattle.std.specs.Prelude.{◌≡◌, false, ◌<◌, ◌≤◌, ◌++◌, length, take, IfOk, OnOk};
ghost use Rattle.std.specs.Io.KnownBytes.{Appends, Consumes, IsAtEnd, Keeps};
ghost use Rattle.console.specs.Input.{moved_of, Within};

use std::env::{Env, FillError};
use std::io;
use std::io::{Cursor, Read, Write};

// What a read with room for so many bytes was, by what it answered: it failed with that error, or it moved so many bytes,
// none at the end.
fn moved(got: io::Result<usize>, room: usize) -> io::Result<usize>
    ensures { result ≡ moved_of got room }
{
    got.map(|n| n.min(room))
}

// Reads the input until it ends or the room is full, and answers how many bytes stand at the start of
// the room. A read that fails is not the end: its error is the answer.
pub fn read_all<R: Read>(input: &mut R, room: &mut [u8]) -> io::Result<usize>
    ensures within { Within result (length room.old) }
    ensures bytes { IfOk result (λ n. Consumes (R.remaining input.old) (R.remaining input.new) (take n room.new)) }
    ensures end { IfOk result (λ n. n < length room.old → IsAtEnd (R.remaining input.new)) }
{
    let mut n = 0;
    // Kept: no `for` counts here: each turn goes on by as many bytes as the read moved.
    while n < room.len() {
        let left = room.len() - n;
        let more = moved(input.read(&mut room[n..]), left)?;
        if more == 0 {
            return Ok(n);
        }
        n += more;
    }
    Ok(n)
}

// Writes a line and then a group, and answers whether all of it was written, or else why not.
pub fn write_both<W: Write>(output: &mut W, line: &[u8], group: &[u8]) -> io::Result<()>
    ensures { OnOk result
        (Appends (W.contents output.old) (W.contents output.new) (line.now ++ group.now)) }
{
    output.write_all(line)?;
    output.write_all(group)
}

// Whether a word stands behind the program's name; then the usage is said, and else nothing.
pub fn misused<E: Env, W: Write>(environment: &E, errors: &mut W, usage: &[u8]) -> bool
    ensures { result ≡ false → Keeps (W.contents errors.old) (W.contents errors.new) }
{
    let mut word = [0u8; 1];
    if let Err(FillError::NotPresent) = environment.arg(1, &mut word) {
        return false;
    }
    let _ = errors.write_all(usage);
    true
}

// Says in a line what failed, and why, without the number that the library puts behind the reason.
pub fn fail<W: Write>(errors: &mut W, what: &[u8], why: io::Error) {
    let mut room = Cursor::new([0u8; 256]);
    let _ = write!(room, "{why}");
    let text = room.into_inner();
    let _ = errors.write_all(what);
    let _ = errors.write_all(b": ");
    let _ = errors.write_all(&text[..reason_size(&text)]);
    let _ = errors.write_all(b"\n");
}

// How many bytes the reason has: all before the first zero and before ` (os error`.
fn reason_size(text: &[u8]) -> usize
    ensures { result ≤ length text.now }
{
    let end = text.iter().position(|b| *b == 0).unwrap_or(text.len());
    let number = b" (os error ";
    text.windows(number.len())
        .position(|w| w == number.as_slice())
        .unwrap_or(end)
}
