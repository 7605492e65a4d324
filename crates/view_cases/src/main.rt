// Runs records through the read view, and writes a line for each: its name's length, how many bytes it
// has, and all that the view says of it. The file `stdout` holds what the paper says.
#![tactic(auto)]

use cases::Told;
use refusal::Refusal;
use std::{fmt, io, str};

// What the first 20 bytes of a record hold.
#[derive(Clone, Copy)]
struct Header {
    reference: i32,
    pos: i32,
    name: u8,
    operations: u16,
    flags: u16,
    bases: u32,
}

// The header whose numbers are all 0.
const ZERO: Header = Header {
    reference: 0,
    pos: 0,
    name: 0,
    operations: 0,
    flags: 0,
    bases: 0,
};

// A header whose bytes all differ, but for the name's length.
const FULL: Header = Header {
    reference: 0x01020304,
    pos: 0x05060708,
    name: 7,
    operations: 0x0a0b,
    flags: 0x0c0d,
    bases: 0x0d0e0f10,
};

impl Header {
    // Stores each number where a record has it, the least byte first.
    fn lay(&self, record: &mut [u8; 65537]) {
        record[0..4].copy_from_slice(&self.reference.to_le_bytes());
        record[4..8].copy_from_slice(&self.pos.to_le_bytes());
        record[8] = self.name;
        record[12..14].copy_from_slice(&self.operations.to_le_bytes());
        record[14..16].copy_from_slice(&self.flags.to_le_bytes());
        record[16..20].copy_from_slice(&self.bases.to_le_bytes());
    }
}

// What the view answers to a record, as `well` or as the refusal.
#[derive(Clone, Copy)]
struct Viewed(Result<(), Refusal>);

impl fmt::Display for Viewed {
    fn fmt<W: fmt::Write>(&self, f: &mut fmt::Formatter<W>) -> fmt::Result {
        match self.0 {
            Ok(()) => f.write_str("well"),
            Err(r) => Told(r).fmt(f),
        }
    }
}

// Lays a name over all the bytes that one can take: the alphabet, again and again.
fn lay_name(record: &mut [u8; 65537]) {
    for (i, byte) in record[32..287].iter_mut().enumerate() {
        *byte = b'a' + (i % 26) as u8;
    }
}

// Shows the view of a record of `size` bytes, up to one more than the longest has, with this header.
fn show(rt: &impl Print, size: usize, header: &Header) -> io::Result<()> {
    let mut room = [0; 65537];
    lay_name(&mut room);
    header.lay(&mut room);
    let record = &room[..size.min(room.len())];
    let view = view::view_of(record);
    print!(rt;
        "name length {} in {size} bytes: {}",
        header.name,
        Viewed(view::refused_of(record))
    )?;
    print!(rt;
        ", name '{}', flags {}",
        str::from_utf8(view::name_of(record)).unwrap_or("?"),
        view.flags().0
    )?;
    print!(rt; ", reference {}, pos {}", view.ref_id(), view.pos())?;
    println!(rt;
        ", operations {}, bases {}",
        view.n_cigar_op(),
        view.l_seq()
    )
}

// Records by their size, the lengths of their name and operations, and their number of bases.
const LENGTHS: [(usize, u8, u16, u32); 23] = [
    // Names by their length, which counts a closing byte.
    (287, 0, 0, 0),
    (287, 1, 0, 0),
    (287, 2, 0, 0),
    (287, 3, 0, 0),
    (287, 255, 0, 0),
    // Refusals 1 and 2 at their limits; each comes before 3.
    (31, 0, 0, 0),
    (32, 0, 0, 0),
    (31, 255, 65535, 0),
    (65536, 3, 0, 0),
    (65537, 3, 0, 0),
    (65537, 255, 65535, 0),
    // Refusal 3: the name, the operations and both to the last byte, and one past.
    (35, 3, 0, 0),
    (34, 3, 0, 0),
    (286, 255, 0, 0),
    (40, 0, 2, 0),
    (39, 0, 2, 0),
    (43, 3, 2, 0),
    (42, 3, 2, 0),
    (65536, 0, 16376, 0),
    (65536, 1, 16376, 0),
    (65536, 0, 65535, 0),
    // Bases and qualities past the end, which refusal 4 speaks of, do not refuse.
    (32, 0, 0, 1),
    (43, 3, 2, 4294967295),
];

// Shows records with these lengths, and 0 for every other number.
fn lengths(rt: &impl Print) -> io::Result<()> {
    for (size, name, operations, bases) in LENGTHS {
        let header = Header {
            name,
            operations,
            bases,
            ..ZERO
        };
        show(rt, size, &header)?;
    }
    Ok(())
}

// Shows the numbers of the header: each of its bytes, and both signs at their limits.
fn numbers(rt: &impl Print) -> io::Result<()> {
    for header in [
        Header { name: 0, ..FULL },
        Header {
            reference: -1,
            pos: i32::MAX,
            name: 0,
            operations: u16::MAX,
            flags: u16::MAX,
            bases: u32::MAX,
        },
        Header {
            reference: i32::MAX,
            pos: -1,
            name: 0,
            operations: 1,
            flags: 1,
            bases: 1,
        },
        Header {
            reference: i32::MIN,
            pos: i32::MIN,
            flags: 4,
            ..ZERO
        },
    ] {
        show(rt, 32, &header)?;
    }
    Ok(())
}

// Shows records under 32 bytes, which have none of these numbers.
fn too_short(rt: &impl Print) -> io::Result<()> {
    for size in [31, 20, 0] {
        show(rt, size, &FULL)?;
    }
    Ok(())
}

// Runs all records.
fn run(rt: &impl Print) -> io::Result<()> {
    lengths(rt)?;
    numbers(rt)?;
    too_short(rt)
}

// A line that can't be written ends the run.
fn main(rt: HostRuntime) {
    let _ = run(&rt);
}
