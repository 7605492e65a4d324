// The program `overlap`: two digits and a group in, the line and the group out. It only reads and
// writes; crate line_overlap decides every byte.
#![tactic(auto)]

use std::io;

// What the program can't do, in its words, and why.
type Failure = (&'static [u8], io::Error);

// Reads, answers and writes.
// Kept: overlap_filed has a `run` like this one; one for both would take the rooms, both sentences and the step,
// and save no line here.
fn run(rt: &HostRuntime) -> Result<(), Failure> {
    // room for one byte more than the longest input
    let mut input = [0u8; 65537];
    let n = console::read_all(&mut rt.stdin(), &mut input).map_err(|why| (
        b"overlap: standard input can't be read".as_slice(),
        why,
    ))?;
    let mut out = [0u8; 256];
    let written = line_overlap::overlap(&mut input, n, &mut out);
    let line = written.line_in(&out);
    let group = written.group_in(&input, 2);
    console::write_both(&mut rt.stdout(), line, group).map_err(|why| (
        b"overlap: standard output can't be written".as_slice(),
        why,
    ))
}

fn main(rt: HostRuntime) {
    let mut errors = rt.stderr();
    let usage =
        b"usage: overlap <INPUT >OUTPUT   (INPUT: two digits, agreement and disagreement, then framed records)\n";
    if console::misused(&rt, &mut errors, usage) {
        return;
    }
    if let Err((what, why)) = run(&rt) {
        console::fail(&mut errors, what, why);
    }
}
