// Replays the stored list of the published Rust's answers (oracle/README.md has its layout): each
// pair goes through the exported call, and the answer and every byte are compared.
#![tactic(auto)]

use std::fs::File;
use std::io;
use std::io::Read;

// What stands before a case: the numbers of its strategies, how long its two records and its counts
// are, and the stored answer.
#[derive(Clone, Copy)]
struct Head {
    agreement: u32,
    disagreement: u32,
    first: usize,
    second: usize,
    counts: usize,
    answer: u32,
}

impl Head {
    // Reads the head of the next case, all of it at once.
    fn read<R: Read>(list: &mut R) -> io::Result<Head> {
        let mut bytes = [0; 24];
        list.read_exact(&mut bytes)?;
        Ok(Head {
            agreement: fields::u32_at(&bytes, 0),
            disagreement: fields::u32_at(&bytes, 4),
            first: fields::u32_at(&bytes, 8) as usize,
            second: fields::u32_at(&bytes, 12) as usize,
            counts: fields::u32_at(&bytes, 16) as usize,
            answer: fields::u32_at(&bytes, 20),
        })
    }
}

// Rooms for the two records and the counts of a case, each for the longest record of the list.
// Kept: rooms of fixed length, and the sizes in `Head`, since no memory is taken.
#[derive(Drop)]
struct Rooms {
    first: [u8; 66000],
    second: [u8; 66000],
    counts: [u8; 66000],
}

impl Rooms {
    // Rooms of zeros.
    fn new() -> Rooms {
        Rooms {
            first: [0; 66000],
            second: [0; 66000],
            counts: [0; 66000],
        }
    }

    // Reads the records and the counts of a case to the fronts of the rooms. False where one has no room
    // or is not there.
    fn read<R: Read>(&mut self, list: &mut R, head: &Head) -> bool {
        let first = read_front(list, self.first.get_mut(..head.first));
        let second = read_front(list, self.second.get_mut(..head.second));
        let counts = read_front(list, self.counts.get_mut(..head.counts));
        first && second && counts
    }

    // Copies the fronts of other rooms, and no byte behind them: a case has some hundred bytes, and the rooms 198,000.
    fn copy(&mut self, other: &Rooms, head: &Head) {
        copy_front(
            self.first.get_mut(..head.first),
            other.first.get(..head.first),
        );
        copy_front(
            self.second.get_mut(..head.second),
            other.second.get(..head.second),
        );
        copy_front(
            self.counts.get_mut(..head.counts),
            other.counts.get(..head.counts),
        );
    }

    // What the exported call answers on the fronts, where they are there.
    fn call(&mut self, head: &Head) -> Option<u32> {
        let first = self.first.get_mut(..head.first)?;
        let second = self.second.get_mut(..head.second)?;
        let counts = self.counts.get_mut(..head.counts)?;
        let cap = u32::from(strategy::FULL_CAP);
        Some(overlap_c::overlap_call_2(
            first,
            second,
            head.agreement,
            head.disagreement,
            cap,
            counts,
        ))
    }

    // Whether the fronts hold the same bytes as those of other rooms.
    fn agrees(&self, other: &Rooms, head: &Head) -> bool {
        self.first.get(..head.first) == other.first.get(..head.first)
            && self.second.get(..head.second) == other.second.get(..head.second)
            && self.counts.get(..head.counts) == other.counts.get(..head.counts)
    }
}

// Reads the front of a room. False where the room has none that long, or the bytes are not there.
fn read_front<R: Read>(list: &mut R, front: Option<&mut [u8]>) -> bool {
    match front {
        Some(front) => list.read_exact(front).is_ok(),
        None => false,
    }
}

// Copies a front to one of the same length, where both are there.
fn copy_front(front: Option<&mut [u8]>, other: Option<&[u8]>) {
    if let (Some(to), Some(from)) = (front, other) {
        if to.len() == from.len() {
            to.copy_from_slice(from);
        }
    }
}

// Whether the call on the case behind this head answers as stored and leaves what is stored: for an
// overlap that follows in the list, and else it is what was given.
fn agrees<R: Read>(list: &mut R, head: &Head, rooms: &mut Rooms, stored: &mut Rooms) -> bool {
    let given = rooms.read(list, head);
    stored.copy(rooms, head);
    let left = head.answer != 1 || stored.read(list, head);
    let answered = rooms.call(head) == Some(head.answer);
    given && left && answered && rooms.agrees(stored, head)
}

// Replays n cases, or those up to where the list ends, and answers how many agree.
fn replay<R: Read>(list: &mut R, n: u32) -> u32 {
    let mut rooms = Rooms::new();
    let mut stored = Rooms::new();
    let mut good = 0;
    for _k in 0..n {
        let Ok(head) = Head::read(list) else {
            return good;
        };
        if agrees(list, &head, &mut rooms, &mut stored) {
            good += 1;
        }
    }
    good
}

// The list begins with a mark and the number of its cases.
fn main(rt: HostRuntime) {
    let mut list = match File::open(&rt, "pairs.bin") {
        Ok(list) => list,
        Err(why) => {
            console::fail(&mut rt.stderr(), b"pairs.bin", why);
            return;
        }
    };
    let mut mark = [0; 4];
    let mut count = [0; 4];
    let _ = list.read_exact(&mut mark);
    let _ = list.read_exact(&mut count);
    let n = u32::from_le_bytes(count);
    let good = replay(&mut list, n);
    let _ = println!(rt; "{good} of {n} stored pairs agree");
}
