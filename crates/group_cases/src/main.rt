// Runs a list of inputs of the program `overlap` and compares what it would write with what it must:
// each case is a name of 32 bytes, two u32 sizes, the input, and what must be written.
#![tactic(auto)]

use std::io;
use std::io::{ErrorKind, Read, Write};

// The rooms of a case: its input, what must be written for it, and the line that is.
#[derive(Drop)]
struct Rooms {
    input: [u8; 70000],
    expected: [u8; 70000],
    line: [u8; 256],
}

// Reads a size.
fn read_size<R: Read>(cases: &mut R) -> io::Result<usize> {
    let mut size = [0; 4];
    cases.read_exact(&mut size)?;
    Ok(u32::from_le_bytes(size) as usize)
}

// Reads a case, runs it and writes whether it is as expected. An error where no case is left, or where it
// has no room. A case whose bytes end early is run with what is there.
fn run_case<R: Read, W: Write>(cases: &mut R, output: &mut W, rooms: &mut Rooms) -> io::Result<()> {
    let mut name = [0; 32];
    cases.read_exact(&mut name)?;
    let n = read_size(cases)?;
    let m = read_size(cases)?;
    let Some(input) = rooms.input.get_mut(..n) else {
        return Err(ErrorKind::InvalidData.into());
    };
    let Some(expected) = rooms.expected.get_mut(..m) else {
        return Err(ErrorKind::InvalidData.into());
    };
    let _ = cases.read_exact(input);
    let _ = cases.read_exact(expected);
    let written = line_overlap::overlap(input, n, &mut rooms.line);
    output.write_all(&name)?;
    if expected.strip_prefix(written.line_in(&rooms.line)) == Some(written.group_in(input, 2)) {
        writeln!(output, "as expected")
    } else {
        writeln!(output, "DIFFERS")
    }
}

// Runs the cases up to the last, of which there are at most 1,000.
fn run<R: Read, W: Write>(cases: &mut R, output: &mut W) -> io::Result<()> {
    let mut rooms = Rooms {
        input: [0; 70000],
        expected: [0; 70000],
        line: [0; 256],
    };
    for _ in 0..1000 {
        run_case(cases, output, &mut rooms)?;
    }
    Ok(())
}

// The run ends where no case is left, which is no failure.
fn main(rt: HostRuntime) {
    let _ = run(&mut rt.stdin(), &mut rt.stdout());
}
