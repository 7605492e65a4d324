// Texts in a lent room: numbers and the lines of an answer, put one behind the other, parts of a room,
// and how many bytes of its rooms a program writes.
#![tactic(auto)]

ghost use Rattle.std.specs.Prelude.{◌≡◌, ◌+◌, ◌*◌, ◌≤◌, [], ◌∷◌, ◌++◌, length, take, drop};
ghost use Rattle.line_text.specs.Line.{spaced, all_spaced, done_text, already_text, refusal_text};
ghost use Rattle.line_text.specs.Put.{Put};

use refusal::Refusal;
use stats::CorrectionStats;

// Puts a text into `out` from byte `at` on, and answers where it ends.
pub fn put_text(out: &mut [u8], at: usize, text: &[u8]) -> usize
    requires { at + length text.now ≤ length out.old }
    ensures { Put out.old at text.now out.new result }
{
    let end = at + text.len();
    out[at..end].copy_from_slice(text);
    end
}

// Puts a blank and the decimal digits of a number.
// Kept: `write!` into a slice says nothing of the bytes, as `Write` for `&mut [u8]` names no contents; `spaced` names each.
pub fn put_number(out: &mut [u8], at: usize, n: u64) -> usize
    requires { at + 21 ≤ length out.old }
    ensures { Put out.old at (spaced n) out.new result × (result ≤ at + 21) }
{
    let mut digits = [0u8; 20];
    let k = io::decimal(n, &mut digits);
    let start = put_text(out, at, b" ");
    put_text(out, start, &digits[..k])
}

// Puts the numbers one behind the other, each behind a blank.
pub fn put_numbers(out: &mut [u8], at: usize, numbers: &[u64]) -> usize
    requires { at + 21 * length numbers.now ≤ length out.old }
    ensures { Put out.old at (all_spaced numbers.now) out.new result × (result ≤ at + 21 * length numbers.now) }
{
    let mut end = at;
    for n in numbers {
        end = put_number(out, end, *n);
    }
    end
}

// A line at the start of `out`: a word, numbers behind blanks, and the line's end.
fn put_line(out: &mut [u8], word: &[u8], numbers: &[u64]) -> usize
    requires { length word.now + 21 * length numbers.now + 1 ≤ length out.old }
    ensures { Put out.old 0 (word.now ++ all_spaced numbers.now ++ (10 ∷ [])) out.new result × (result ≤ length word.now + 21 * length numbers.now + 1) }
{
    let first = put_text(out, 0, word);
    let last = put_numbers(out, first, numbers);
    put_text(out, last, b"\n")
}

// The line of a group that is accepted, at the start of `out`.
// Kept: a clause and no array type, as docs/PROVED.md names the three lines with what they ask, and an array asks more.
pub fn put_done(
    out: &mut [u8],
    records: usize,
    pairs: usize,
    overlapping: usize,
    g: CorrectionStats,
) -> usize
    requires { 256 ≤ length out.old }
    ensures { Put out.old 0 (done_text records pairs overlapping g) out.new result × (result ≤ 256) }
{
    let numbers = [
        records as u64,
        pairs as u64,
        overlapping as u64,
        g.overlapping,
        g.agreeing,
        g.disagreeing,
        g.corrected,
    ];
    put_line(out, b"ok", &numbers)
}

// The line of a group that was corrected before, at the start of `out`.
pub fn put_already(out: &mut [u8], records: usize, g: CorrectionStats) -> usize
    requires { 256 ≤ length out.old }
    ensures { Put out.old 0 (already_text records g) out.new result × (result ≤ 256) }
{
    let numbers = [
        records as u64,
        g.overlapping,
        g.agreeing,
        g.disagreeing,
        g.corrected,
    ];
    put_line(out, b"done", &numbers)
}

// The line of a refusal, at the start of `out`.
pub fn put_refusal(out: &mut [u8], r: Refusal) -> usize
    requires { 256 ≤ length out.old }
    ensures { Put out.old 0 (refusal_text r) out.new result × (result ≤ 256) }
{
    let numbers = [u64::from(r.number()), u64::from(r.place())];
    put_line(out, b"no", &numbers)
}

// The n bytes from `start` on, or as many of them as there are.
pub fn part(s: &[u8], start: usize, n: usize) -> &[u8]
    ensures { result.now ≡ take n (drop start s.now) }
{
    let rest = &s[start.min(s.len())..];
    &rest[..n.min(rest.len())]
}

// How many bytes a program reads at most.
pub const MOST: usize = 65536;

// What a program writes: so many bytes of the room for the line, then so many of the room for the group.
#[derive(Clone, Copy)]
pub struct Written {
    pub line: usize,
    pub group: usize,
}

impl Written {
    // The line of a refusal, at the start of `out`, and no group.
    pub fn refused(out: &mut [u8], r: Refusal) -> Written
        requires { 256 ≤ length out.old }
        ensures { Put out.old 0 (refusal_text r) out.new result.line × (result.line ≤ 256) × (result.group ≡ 0) }
    {
        let line = put_refusal(out, r);
        Written { line, group: 0 }
    }

    // The line in its room.
    pub fn line_in(self, out: &[u8; 256]) -> &[u8]
        ensures { result.now ≡ take self.line out.now }
    {
        part(out, 0, self.line)
    }

    // The group in its room, where it stands from byte `start` on.
    pub fn group_in(self, room: &[u8], start: usize) -> &[u8]
        ensures { result.now ≡ take self.group (drop start room.now) }
    {
        part(room, start, self.group)
    }
}
