// Runs the group call with caps at their limits and beside other faults, and writes a line for each: what
// it is given, the answer, the two qualities of the pair, and the counts. The file `stdout` holds what the
// paper says.
#![tactic(auto)]

use cases::{Counts, Told};
use group::{GroupAnswer, Grouped};
use stats::CorrectionStats;
use std::{fmt, io};

// What a group call answers, as `ok 2 1 1` or as the refusal.
#[derive(Clone, Copy)]
struct Answered(GroupAnswer);

impl fmt::Display for Answered {
    fn fmt<W: fmt::Write>(&self, f: &mut fmt::Formatter<W>) -> fmt::Result {
        match self.0 {
            GroupAnswer::Done {
                records,
                pairs,
                overlapping,
            } => write!(f, "ok {records} {pairs} {overlapping}"),
            GroupAnswer::Refused(r) => Told(r).fmt(f),
        }
    }
}

// The frame of a record of 38 bytes: a base A of this quality at position 1, without a name.
fn frame(flags: u8, quality: u8) -> [u8; 42] {
    let mut frame = [0; 42];
    frame[0] = 38;
    frame[16] = 1;
    frame[18] = flags;
    frame[20] = 1;
    frame[36] = 16;
    frame[40] = 16;
    frame[41] = quality;
    frame
}

// A group of two mates whose bases agree, with the qualities 30 and 20.
fn mates() -> [u8; 84] {
    let mut group = [0; 84];
    group[..42].copy_from_slice(&frame(64, 30));
    group[42..].copy_from_slice(&frame(128, 20));
    group
}

// The counts, of which the first is given.
fn counts(overlapping: u64) -> CorrectionStats {
    CorrectionStats {
        overlapping,
        agreeing: 2,
        disagreeing: 3,
        corrected: 4,
    }
}

// Ends a line by what a call gave, and the qualities of the mates behind it.
fn tell(rt: &impl Print, grouped: &Grouped, mates: &[u8; 84]) -> io::Result<()> {
    let answer = Answered(grouped.answer);
    let counts = Counts(grouped.stats);
    println!(rt;
        ": {answer}, qualities {} {}, counts {counts}",
        mates[41], mates[83]
    )
}

// Runs the mates by this agreement and cap.
fn try_cap(rt: &impl Print, agreement: u32, cap: u32, overlapping: u64) -> io::Result<()> {
    print!(rt; "agreement {agreement}, cap {cap}")?;
    let mut mates = mates();
    let grouped = group::group(&mut mates, agreement, 0, cap, counts(overlapping));
    tell(rt, &grouped, &mates)
}

// Calls on all bytes but the last, which refuses the second frame.
fn call_cut_off(mates: &mut [u8; 84], cap: u32) -> Grouped {
    group::group(&mut mates[..83], 0, 0, cap, counts(1))
}

// Runs the mates with the last byte cut off.
fn try_cut_off(rt: &impl Print, cap: u32) -> io::Result<()> {
    print!(rt; "cut off, cap {cap}")?;
    let mut mates = mates();
    let grouped = call_cut_off(&mut mates, cap);
    tell(rt, &grouped, &mates)
}

// Runs each limit of the cap and one off, a number that would be 40 in eight bits, and the largest.
fn try_limits(rt: &impl Print, overlapping: u64) -> io::Result<()> {
    for cap in [0, 1, 2, 40, 93, 94, 296, u32::MAX] {
        try_cap(rt, 0, cap, overlapping)?;
    }
    Ok(())
}

// Runs all cases.
fn run(rt: &impl Print) -> io::Result<()> {
    try_limits(rt, 1)?;
    for (agreement, cap) in [(1, 2), (2, 2), (1, 94), (2, 1), (3, 93), (3, 94)] {
        try_cap(rt, agreement, cap, 1)?;
    }
    try_limits(rt, stats::LIMIT + 1)?;
    for cap in [93, 94] {
        try_cut_off(rt, cap)?;
    }
    Ok(())
}

// A line that can't be written ends the run.
fn main(rt: HostRuntime) {
    let _ = run(&rt);
}
