// Runs the judged examples of the paper through the pair call, and writes a line for each: what the
// two records are, and what came of them. The file `stdout` holds what the paper says.
#![tactic(auto)]

ghost use Rattle.std.specs.Prelude.{◌≤◌};

use cases::{Answered, Told};
use stats::CorrectionStats;
use std::{fmt, io};
use strategy::{AgreementStrategy, DisagreementStrategy, Strategies};

// Both strategies Consensus.
// Kept: lent_cases names this too; a crate for the one value would say no less.
const CONSENSUS: Strategies = Strategies {
    agreement: AgreementStrategy::Consensus,
    disagreement: DisagreementStrategy::Consensus,
    cap: strategy::FULL_CAP,
};

// The letters of the codes of a base.
const LETTERS: &[u8; 16] = b"=ACMGRSVTWYHKDBN";

// A base by its code, and its quality: as `A30`.
#[derive(Clone, Copy)]
struct Base {
    code: u8,
    quality: u8,
}

// An A of this quality.
fn a(quality: u8) -> Base {
    Base { code: 1, quality }
}

// A T of this quality.
fn t(quality: u8) -> Base {
    Base { code: 8, quality }
}

impl Base {
    // A record of this base alone, at position 1.
    fn record(self) -> [u8; 64] {
        let mut record = [0; 64];
        record[12] = 1;
        record[16] = 1;
        record[32] = 16;
        record[36] = self.code % 16 * 16;
        record[37] = self.quality;
        record
    }

    // The base of such a record.
    fn of(record: &[u8; 64]) -> Base {
        Base {
            code: record[36] / 16,
            quality: record[37],
        }
    }
}

impl fmt::Display for Base {
    fn fmt<W: fmt::Write>(&self, f: &mut fmt::Formatter<W>) -> fmt::Result {
        let letter = char::from(LETTERS[usize::from(self.code % 16)]);
        let quality = self.quality;
        write!(f, "{letter}{quality}")
    }
}

// A record without a name: its position, counted from 0; its operations as text, at most four and each
// of two bytes; and how many bases it has, at most eight. It is written as `4M at 10`, counted from 1.
#[derive(Clone, Copy)]
struct Aligned {
    pos: u32,
    operations: &'static str,
    count: u8,
}

// A record at this position.
fn at(pos: u32, operations: &'static str, count: u8) -> Aligned {
    Aligned {
        pos,
        operations,
        count,
    }
}

// The lowest byte of an operation, from its length's digit and its letter. The other three are 0.
fn operation(text: &[u8]) -> u8 {
    let &[digit, letter] = text else {
        return 0;
    };
    let length = digit % 16 * 16;
    match letter {
        b'M' => length,
        b'I' => length + 1,
        b'D' => length + 2,
        b'N' => length + 3,
        _ => length + 4,
    }
}

impl Aligned {
    // How many operations it has.
    fn operation_count(self) -> u8
        ensures { result ≤ 4 }
    {
        (self.operations.len() / 2).min(4) as u8
    }

    // Where its bases begin.
    fn bases_at(self) -> usize
        ensures { result ≤ 48 }
    {
        32 + 4 * usize::from(self.operation_count())
    }

    // Where its qualities begin.
    fn qualities_at(self) -> usize {
        self.bases_at() + usize::from(self.count).div_ceil(2)
    }

    // Its bytes: each base is an A, and has the next of the qualities.
    fn record(self, qualities: &[u8; 8]) -> [u8; 64] {
        let mut record = [0; 64];
        record[4..8].copy_from_slice(&self.pos.to_le_bytes());
        record[12] = self.operation_count();
        record[16] = self.count;
        let count = usize::from(self.count);
        let operations = self.operations.as_bytes().chunks_exact(2);
        for (lowest, text) in record.iter_mut().skip(32).step_by(4).zip(operations) {
            *lowest = operation(text);
        }
        for bases in record
            .iter_mut()
            .skip(self.bases_at())
            .take(count.div_ceil(2))
        {
            *bases = 0x11;
        }
        for (byte, quality) in record
            .iter_mut()
            .skip(self.qualities_at())
            .zip(qualities)
            .take(count)
        {
            *byte = *quality;
        }
        record
    }
}

impl fmt::Display for Aligned {
    fn fmt<W: fmt::Write>(&self, f: &mut fmt::Formatter<W>) -> fmt::Result {
        let operations = if self.operations.is_empty() {
            "nothing"
        } else {
            self.operations
        };
        let at = u64::from(self.pos) + 1;
        write!(f, "{operations} at {at}")
    }
}

// Writes two records of one base each, and what they become. The number is the growth of `corrected`.
fn treat(rt: &impl Print, strategies: Strategies, a: Base, b: Base) -> io::Result<()> {
    let mut first = a.record();
    let mut second = b.record();
    let called = pair::call(&mut first, &mut second, strategies, CorrectionStats::new());
    let corrected = called.stats.corrected;
    println!(rt;
        "{a} {b} become {} {} +{corrected}",
        Base::of(&first),
        Base::of(&second)
    )
}

// Writes what two bases at one position become.
fn treat_all(rt: &impl Print) -> io::Result<()> {
    for (first, second) in [
        (a(30), a(20)),
        (a(60), a(40)),
        (a(255), a(255)),
        (a(93), a(0)),
        (a(0), a(0)),
        (t(30), a(10)),
        (t(31), a(30)),
        (t(30), a(30)),
        (t(255), a(30)),
    ] {
        treat(rt, CONSENSUS, first, second)?;
    }
    let masked = Strategies {
        disagreement: DisagreementStrategy::MaskLowerQual,
        ..CONSENSUS
    };
    treat(rt, masked, t(10), a(30))
}

// Writes what they become on a scale that stops at 40: the cap binds agreement under Consensus alone.
fn treat_capped(rt: &impl Print) -> io::Result<()> {
    let added = AgreementStrategy::Consensus;
    for (agreement, first, second) in [
        (added, a(30), a(9)),
        (added, a(30), a(10)),
        (added, a(30), a(11)),
        (added, a(40), a(0)),
        (added, a(255), a(93)),
        (added, t(255), a(30)),
        (AgreementStrategy::MaxQual, a(60), a(50)),
        (AgreementStrategy::PassThrough, a(60), a(50)),
    ] {
        let capped = Strategies {
            agreement,
            cap: 40,
            ..CONSENSUS
        };
        treat(rt, capped, first, second)?;
    }
    Ok(())
}

// Writes the answer for a pair at each limit of the cap, and one off.
fn try_caps(rt: &impl Print) -> io::Result<()> {
    for cap in [0, 1, 2, 93, 94, 255] {
        let mut first = a(30).record();
        let mut second = a(20).record();
        let capped = Strategies { cap, ..CONSENSUS };
        let called = pair::call(&mut first, &mut second, capped, CorrectionStats::new());
        print!(rt; "cap {cap}: {}, ", Answered(called.answer))?;
        println!(rt; "{} {} ", Base::of(&first), Base::of(&second))?;
    }
    Ok(())
}

// Writes two records of bases that all agree, the answer, and the offsets of the bases that met: the
// qualities i + 1 and 10 * (j + 1) of two that did were added.
fn meet(rt: &impl Print, first: Aligned, second: Aligned) -> io::Result<()> {
    let mut record = first.record(&[1, 2, 3, 4, 5, 6, 7, 8]);
    let mut other = second.record(&[10, 20, 30, 40, 50, 60, 70, 80]);
    let called = pair::call(&mut record, &mut other, CONSENSUS, CorrectionStats::new());
    print!(rt; "{first}, {second}: {}", Answered(called.answer))?;
    for (i, quality) in record.iter().skip(first.qualities_at()).take(8).enumerate() {
        if *quality >= 10 {
            print!(rt; " ({i},{})", *quality / 10 - 1)?;
        }
    }
    println!(rt; "")
}

// Which bases meet. The paper's pos 2147483642 is position 2147483643 when counted from 1.
fn place(rt: &impl Print) -> io::Result<()> {
    for (first, second) in [
        (at(9, "2S3M1D2M", 7), at(11, "2M1I3M", 6)),
        (at(9, "4M", 4), at(12, "1M", 1)),
        (at(9, "4M", 4), at(13, "1M", 1)),
        (at(9, "3M6N3M", 6), at(12, "4M", 4)),
        (at(2147483642, "4M", 4), at(2147483642, "4M", 4)),
        (at(2147483642, "5M", 5), at(2147483642, "4M", 4)),
        (at(9, "4M", 4), at(2147483642, "5M", 5)),
        (at(2147483646, "", 0), at(9, "4M", 4)),
        (at(2147483647, "", 0), at(9, "4M", 4)),
    ] {
        meet(rt, first, second)?;
    }
    Ok(())
}

// Operations of length 0 count nothing and place no base.
fn place_by_zeros(rt: &impl Print) -> io::Result<()> {
    for (first, second) in [
        (at(9, "1M0M1I1M", 3), at(9, "2M", 2)),
        (at(9, "2M", 2), at(9, "1M0M1I1M", 3)),
        (at(9, "1M0M1D1M", 2), at(9, "3M", 3)),
        (at(9, "1M0M1D1M", 2), at(9, "1D1M", 1)),
        (at(9, "1M0M1D1M", 2), at(9, "2N1M", 1)),
        (at(9, "0S2M0D2M", 4), at(9, "2M0I0N2M", 4)),
        (at(9, "2S0M2S", 4), at(9, "4M", 4)),
        (at(9, "0M", 0), at(9, "4M", 4)),
        (at(9, "4M", 4), at(9, "0M", 0)),
        (at(9, "0M", 4), at(9, "4M", 4)),
        (at(9, "4M", 4), at(9, "0D", 4)),
        (at(2147483642, "4M0D0M", 4), at(2147483642, "0N4M", 4)),
        (at(2147483642, "4M0M1N", 4), at(2147483642, "4M", 4)),
    ] {
        meet(rt, first, second)?;
    }
    Ok(())
}

// An alignment that uses nothing of the reference, and ones that use some and share no position.
fn place_nothing(rt: &impl Print) -> io::Result<()> {
    for (first, second) in [
        (at(9, "4S", 4), at(9, "4M", 4)),
        (at(9, "4M", 4), at(9, "2S2I", 4)),
        (at(9, "4S1D", 4), at(9, "4M", 4)),
        (at(9, "4M", 4), at(9, "4I1N", 4)),
        (at(9, "4S", 3), at(9, "4M", 4)),
        (at(9, "4S", 4), at(9, "4M", 3)),
    ] {
        meet(rt, first, second)?;
    }
    Ok(())
}

// Writes the answer for records of 32 bytes with nothing declared but the lengths of the names.
fn try_names(rt: &impl Print) -> io::Result<()> {
    for (name1, name2) in [(0, 0), (1, 0), (0, 1)] {
        let mut first = [0; 32];
        let mut second = [0; 32];
        first[8] = name1;
        second[8] = name2;
        let called = pair::call(&mut first, &mut second, CONSENSUS, CorrectionStats::new());
        println!(rt;
            "32 bytes, name lengths {name1} and {name2}: {}",
            Answered(called.answer)
        )?;
    }
    Ok(())
}

// Statistics with this count of overlapping positions.
fn overlapping(count: u64) -> CorrectionStats {
    CorrectionStats {
        overlapping: count,
        agreeing: 0,
        disagreeing: 0,
        corrected: 0,
    }
}

// Writes two counts of overlapping positions, and what they are as one.
fn merge(rt: &impl Print) -> io::Result<()> {
    for (first, second) in [(u64::MAX - 1, 1), (u64::MAX, 1)] {
        print!(rt; "merging {first} and {second}: ")?;
        match overlapping(first).merge(overlapping(second)) {
            Ok(sums) => println!(rt; "{}", sums.overlapping)?,
            Err(r) => println!(rt; "{}", Told(r))?,
        }
    }
    Ok(())
}

// Runs all examples.
fn run(rt: &impl Print) -> io::Result<()> {
    treat_all(rt)?;
    treat_capped(rt)?;
    try_caps(rt)?;
    place(rt)?;
    place_by_zeros(rt)?;
    place_nothing(rt)?;
    try_names(rt)?;
    merge(rt)
}

// A line that can't be written ends the run.
fn main(rt: HostRuntime) {
    let _ = run(&rt);
}
