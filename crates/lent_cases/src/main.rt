// Runs the entries over lent statistics, and writes a line for each case: the counts that were lent, the
// answer, the counts after it, and what became of the records. The file `stdout` holds what the paper
// says.
#![tactic(auto)]

ghost use Rattle.std.specs.Prelude.{◌≤◌};

use cases::{Answered, Counts, Told};
use pair::Called;
use stats::CorrectionStats;
use std::{fmt, io};
use strategy::{AgreementStrategy, DisagreementStrategy, Strategies};

// The first count past what a call takes.
const PAST: u64 = stats::LIMIT + 1;

// The counts that most cases lend.
const LENT: CorrectionStats = CorrectionStats {
    overlapping: 10,
    agreeing: 20,
    disagreeing: 30,
    corrected: 40,
};

// Both strategies Consensus.
// Kept: judged_cases names this too; a crate for the one value would say no less.
const CONSENSUS: Strategies = Strategies {
    agreement: AgreementStrategy::Consensus,
    disagreement: DisagreementStrategy::Consensus,
    cap: strategy::FULL_CAP,
};

// How a record differs from the one that every case begins with: in how many bytes it has, or in the
// number in the four bytes from a place on.
#[derive(Clone, Copy)]
enum Change {
    None,
    Size(usize),
    Number(u8, u32),
}

// A call: the counts that are lent, or none for counts that begin anew; the strategies; and how the two
// records differ.
#[derive(Clone, Copy)]
struct Case {
    lent: Option<CorrectionStats>,
    strategies: Strategies,
    first: Change,
    second: Change,
}

// The case that the others differ from.
const PLAIN: Case = Case {
    lent: Some(LENT),
    strategies: CONSENSUS,
    first: Change::None,
    second: Change::None,
};

// A record's bytes and what they were. It is written as each byte that is another, behind its index.
#[derive(Clone, Copy)]
struct Changes<'a> {
    now: &'a [u8],
    was: &'a [u8],
}

impl fmt::Display for Changes<'_> {
    fn fmt<W: fmt::Write>(&self, f: &mut fmt::Formatter<W>) -> fmt::Result {
        if self.now == self.was {
            return f.write_str(" as it was");
        }
        for (i, (now, was)) in self.now.iter().zip(self.was).enumerate() {
            if now != was {
                write!(f, " {i}={now}")?;
            }
        }
        Ok(())
    }
}

// Stores a number in the four bytes from a place on, the least first.
fn put_number(record: &mut [u8; 65537], at: u8, number: u32) {
    let at = usize::from(at);
    record[at..at + 4].copy_from_slice(&number.to_le_bytes());
}

impl Change {
    // How many bytes the record has: 42, or up to one more than the longest has.
    fn size(self) -> usize
        ensures { result ≤ 65537 }
    {
        match self {
            Change::Size(size) => size.min(65537),
            _ => 42,
        }
    }

    // A record of 4M whose pos and reference id are 0, with four bases and their qualities, and the change.
    fn record(self, bases: [u8; 2], qualities: [u8; 4]) -> [u8; 65537] {
        let mut record = [0; 65537];
        record[12] = 1;
        record[16] = 4;
        record[32] = 0x40;
        record[36..38].copy_from_slice(&bases);
        record[38..42].copy_from_slice(&qualities);
        if let Change::Number(at, number) = self {
            put_number(&mut record, at, number);
        }
        record
    }
}

impl Case {
    // What the call answers, and the counts after it.
    fn call(self, first: &mut [u8], second: &mut [u8]) -> Called {
        let Some(mut stats) = self.lent else {
            return lent::call_anew(first, second, self.strategies);
        };
        let answer = lent::call_lent(first, second, self.strategies, &mut stats);
        Called { answer, stats }
    }

    // Runs the call on AAAT with qualities 30 to 33 and AANA with 10 to 13, at the same positions, and
    // ends the line by what it makes of them.
    fn run(self, rt: &impl Print) -> io::Result<()> {
        let mut first = self.first.record([0x11, 0x18], [30, 31, 32, 33]);
        let mut second = self.second.record([0x11, 0xf1], [10, 11, 12, 13]);
        let (first_was, second_was) = (first, second);
        let first = &mut first[..self.first.size()];
        let second = &mut second[..self.second.size()];
        let called = self.call(first, second);
        if let Some(stats) = self.lent {
            print!(rt; ", lent {}", Counts(stats))?;
        }
        print!(rt;
            ": {}, counts {}",
            Answered(called.answer),
            Counts(called.stats)
        )?;
        let first = Changes {
            now: first,
            was: &first_was[..self.first.size()],
        };
        let second = Changes {
            now: second,
            was: &second_was[..self.second.size()],
        };
        println!(rt; ", first{first}, second{second}")
    }
}

// Counts from 1 to 4, of which each in turn is this number.
fn each(n: u64) -> [CorrectionStats; 4] {
    let counts = counts(1, 2, 3, 4);
    [
        CorrectionStats {
            overlapping: n,
            ..counts
        },
        CorrectionStats {
            agreeing: n,
            ..counts
        },
        CorrectionStats {
            disagreeing: n,
            ..counts
        },
        CorrectionStats {
            corrected: n,
            ..counts
        },
    ]
}

// The four counts in their order.
fn counts(overlapping: u64, agreeing: u64, disagreeing: u64, corrected: u64) -> CorrectionStats {
    CorrectionStats {
        overlapping,
        agreeing,
        disagreeing,
        corrected,
    }
}

// Runs a change of the first record, and the same of the second.
fn run_either(rt: &impl Print, label: &str, change: Change) -> io::Result<()> {
    let first = Case {
        first: change,
        ..PLAIN
    };
    let second = Case {
        second: change,
        ..PLAIN
    };
    print!(rt; "{label} in the first")?;
    first.run(rt)?;
    print!(rt; "{label} in the second")?;
    second.run(rt)
}

// Runs an overlap by each strategy, and one of a single position; the lent counts are added to.
fn run_overlaps(rt: &impl Print) -> io::Result<()> {
    print!(rt; "Consensus")?;
    PLAIN.run(rt)?;
    let masked = Strategies {
        agreement: AgreementStrategy::MaxQual,
        disagreement: DisagreementStrategy::MaskBoth,
        ..CONSENSUS
    };
    print!(rt; "MaxQual and MaskBoth")?;
    run_lent(rt, masked, counts(0, 0, 0, 0))?;
    let lower = Strategies {
        agreement: AgreementStrategy::PassThrough,
        disagreement: DisagreementStrategy::MaskLowerQual,
        ..CONSENSUS
    };
    print!(rt; "PassThrough and MaskLowerQual")?;
    run_lent(rt, lower, counts(4, 3, 2, 1))?;
    run_either(rt, "pos 3", Change::Number(4, 3))
}

// Runs the plain records by these strategies, with these counts lent.
fn run_lent(rt: &impl Print, strategies: Strategies, stats: CorrectionStats) -> io::Result<()> {
    let case = Case {
        lent: Some(stats),
        strategies,
        ..PLAIN
    };
    case.run(rt)
}

// Runs each limit of the cap and one off; refusal 22 before 9, and before a refusal of a record.
fn run_caps(rt: &impl Print) -> io::Result<()> {
    let [past, ..] = each(PAST);
    for (cap, stats) in [
        (1, LENT),
        (2, LENT),
        (41, LENT),
        (93, LENT),
        (94, LENT),
        (93, past),
        (94, past),
    ] {
        print!(rt; "cap {cap}")?;
        run_lent(rt, Strategies { cap, ..CONSENSUS }, stats)?;
    }
    let short = Case {
        strategies: Strategies {
            cap: 1,
            ..CONSENSUS
        },
        first: Change::Size(31),
        ..PLAIN
    };
    print!(rt; "cap 1 and 31 bytes")?;
    short.run(rt)
}

// Runs what leaves the counts and the records as they were.
fn run_unchanged(rt: &impl Print) -> io::Result<()> {
    for (label, change) in [
        // No overlap.
        ("pos 4", Change::Number(4, 4)),
        ("unmapped", Change::Number(12, 0x40001)),
        ("reference 1", Change::Number(0, 1)),
        ("pos -1", Change::Number(4, u32::MAX)),
        // Refusals 1 to 5, 7 and 8.
        ("31 bytes", Change::Size(31)),
        ("65537 bytes", Change::Size(65537)),
        ("name length 7", Change::Number(8, 7)),
        ("five bases", Change::Number(16, 5)),
        ("operation code 9", Change::Number(32, 0x49)),
        ("0M", Change::Number(32, 0)),
        ("3M", Change::Number(32, 0x30)),
        ("pos 2147483643", Change::Number(4, 2147483643)),
    ] {
        run_either(rt, label, change)?;
    }
    Ok(())
}

// Runs the largest count that a call takes, and refusal 9 one past it, for each of the counts.
fn run_full(rt: &impl Print) -> io::Result<()> {
    for (limit, past) in each(stats::LIMIT).into_iter().zip(each(PAST)) {
        print!(rt; "limit")?;
        run_lent(rt, CONSENSUS, limit)?;
        print!(rt; "past the limit")?;
        run_lent(rt, CONSENSUS, past)?;
    }
    Ok(())
}

// Runs counts begun anew: an overlap, none, and a refusal.
fn run_anew(rt: &impl Print) -> io::Result<()> {
    for (label, second) in [
        ("anew", Change::None),
        ("anew, pos 4", Change::Number(4, 4)),
        ("anew, 3M", Change::Number(32, 0x30)),
    ] {
        let case = Case {
            lent: None,
            second,
            ..PLAIN
        };
        print!(rt; "{label}")?;
        case.run(rt)?;
    }
    Ok(())
}

// Writes the counts before a reset, and after it.
fn reset(rt: &impl Print, stats: CorrectionStats) -> io::Result<()> {
    let mut after = stats;
    lent::reset_lent(&mut after);
    println!(rt; "reset {}: counts {}", Counts(stats), Counts(after))
}

// Writes two sets of counts, and what a merge of the second into the first makes of it.
fn merge(rt: &impl Print, stats: CorrectionStats, other: CorrectionStats) -> io::Result<()> {
    let mut after = stats;
    print!(rt; "merge {} and {}: ", Counts(stats), Counts(other))?;
    match lent::merge_lent(&mut after, other) {
        Ok(()) => print!(rt; "added")?,
        Err(r) => print!(rt; "{}", Told(r))?,
    }
    println!(rt; ", counts {}", Counts(after))
}

// Merges the largest sum, and one past it, of each of the counts.
fn merge_limits(rt: &impl Print) -> io::Result<()> {
    for ((last, full), one) in each(u64::MAX - 1)
        .into_iter()
        .zip(each(u64::MAX))
        .zip(each(1))
    {
        merge(rt, last, one)?;
        merge(rt, full, one)?;
    }
    Ok(())
}

// Runs all cases.
fn run(rt: &impl Print) -> io::Result<()> {
    let most = counts(u64::MAX, u64::MAX, u64::MAX, u64::MAX);
    run_overlaps(rt)?;
    run_caps(rt)?;
    run_unchanged(rt)?;
    run_full(rt)?;
    run_anew(rt)?;
    reset(rt, LENT)?;
    reset(rt, most)?;
    merge(rt, LENT, counts(1, 2, 3, 4))?;
    merge(rt, most, counts(0, 0, 0, 0))?;
    merge_limits(rt)
}

// A line that can't be written ends the run.
fn main(rt: HostRuntime) {
    let _ = run(&rt);
}
