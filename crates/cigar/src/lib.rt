// The operations of an alignment: what each uses, the refusals 5, 7 and 8, and a cursor over the bases
// that sit on the reference. An operation of length 0 uses nothing and places no base.
#![tactic(auto)]

ghost use Rattle.std.specs.Prelude.{◌≡◌, true, false, ◌+◌, ◌-◌, ◌/◌, ◌%◌, ◌≤◌, ◌<◌, length, take};
ghost use Rattle.fields.specs.Number.{unsigned};
ghost use Rattle.fields.specs.Sound.{Lies};
ghost use Rattle.cigar.specs.Operation.{Both, kind, len, read_len, ref_len, operations};
ghost use Rattle.cigar.specs.Judge.{walk_of, operations_of, span_of};
ghost use Rattle.cigar.specs.Passing.{cursor, advanced, Stands, Settled};

use fields::{Layout, ReadOffset, RefPos};
use refusal::Refusal;

// What the operations use, two bits a code, M I D N S H P = X from code 0 on: shifted by twice the
// code, bit 0 is for the read and bit 1 for the reference. Codes above 8 use neither.
const USES: usize = 0x3C1A7;

// A place in an alignment: the next `left` bases, from `offset` on, sit at the positions from
// `position` on; `at` is the byte at which the operation after them begins.
#[derive(Clone, Copy)]
pub struct Cursor {
    pub at: usize,
    pub offset: ReadOffset,
    pub position: RefPos,
    pub left: usize,
}

// How much of the read and of the reference operations use.
#[derive(Clone, Copy)]
pub struct Totals {
    pub read: usize,
    pub reference: usize,
}

// The positions that an alignment covers: from `start` on, up to but not `end`.
#[derive(Clone, Copy)]
pub struct Extent {
    pub start: RefPos,
    pub end: RefPos,
}

// How much of the read an operation uses.
// Kept: a usize whose clause says that it has 32 bits: a u32 would be cast where its length is added (`read_len`,
// `ref_len`, `join`).
fn read_len(op: usize) -> usize
    requires { op < 4294967296 }
    ensures { (result ≡ read_len op) × (result ≤ op / 16) }
{
    let uses = USES >> (op % 16) >> (op % 16);
    if uses % 2 == 1 { op / 16 } else { 0 }
}

// How much of the reference it uses.
// Kept: beside `read_len`, as docs/PROVED.md gives each its own theorem (`read_told`, `ref_told`); one function over the bit
// would stand under both names, and isn't plainer than one line.
fn ref_len(op: usize) -> usize
    requires { op < 4294967296 }
    ensures { (result ≡ ref_len op) × (result ≤ op / 16) }
{
    let uses = USES >> (op % 16) >> (op % 16);
    if uses / 2 % 2 == 1 { op / 16 } else { 0 }
}

// Whether it uses both, as an aligned operation does.
fn uses_both(op: usize) -> bool
    ensures { (result ≡ true → kind op ≡ Both) × (result ≡ false → kind op ≡ Both → ⊥) }
{
    let uses = USES >> (op % 16 * 2);
    uses % 2 * (uses / 2 % 2) == 1
}

// Whether its code is above 8, so that it is no operation; its length may be any.
fn unknown(op: usize) -> bool
    ensures { (result ≡ true → 8 < op % 16) × (result ≡ false → op % 16 ≤ 8) }
{
    8 < op % 16
}

// The operation at a byte: its length times 16, and its code.
// Kept: the clause is that of `fields::u32_at`, which docs/PROVED.md names.
fn operation_at(s: &[u8], at: usize) -> usize
    requires { at + 4 ≤ length s.now }
    ensures { (result ≡ unsigned 4 s.now at) × (result < 4294967296) }
{
    fields::u32_at(s, at) as usize
}

// How much the operations between two bytes use, front to back; or the index of the first with an unknown code, from 0.
// Kept: the end of the operations is a place in the record, as `begin` and `pass` ask for it, which docs/PROVED.md names.
#[inline(always)]
fn walk_operations(s: &[u8], from: usize, end: usize) -> Result<Totals, u16>
    requires { (from ≤ end) × (end ≤ length s.now) × (length s.now ≤ 65536) }
    ensures { result ≡ walk_of (operations from end s.now) }
{
    let mut read = 0;
    let mut reference = 0;
    for i in 0..(end - from) / 4 {
        let op = operation_at(s, from + 4 * i);
        if unknown(op) {
            return Err(i as u16);
        }
        read += read_len(op);
        reference += ref_len(op);
    }
    Ok(Totals { read, reference })
}

// Refusals 5 and 7 of a record with this layout. It and its walk are a part of each caller, as a pair that is mapped apart
// takes 34 instructions fewer so.
#[inline(always)]
pub fn check_operations(s: &[u8], y: Layout, place: u16) -> Result<usize, Refusal>
    requires { Lies y (length s.now) × (length s.now ≤ 65536) }
    ensures { result ≡ operations_of y s.now place }
{
    let walked = walk_operations(s, y.operations, y.bases);
    let totals = walked.map_err(|i| Refusal::OperationCode(place, i))?;
    if y.count == 0 || y.bases - y.operations < 4 || totals.read == y.count {
        return Ok(totals.reference);
    }
    Err(Refusal::ReadTotal(place))
}

// The last position that an alignment may cover, counted from 0.
const LAST: usize = 2147483646;

// Refusal 8 of an alignment that uses so much of the reference from `pos` on, counted from 0.
pub fn check_span(pos: u32, uses: usize, place: u16) -> Result<Extent, Refusal>
    ensures { result ≡ span_of pos uses place }
{
    let start = pos as usize;
    if LAST < start || LAST - start < uses {
        return Err(Refusal::ReferenceEnd(place));
    }
    Ok(Extent {
        start: RefPos(start + 1),
        end: RefPos(start + 1 + uses),
    })
}

// The cursor with the aligned operation behind its run joined to the run.
fn join(c: Cursor, op: usize) -> Cursor
    requires { (c.at + 4 < 18446744073709551616) × (c.left ≤ 4294967296) × (op < 4294967296) }
    ensures { result ≡ cursor (c.at + 4) c.offset.0 c.position.0 (c.left + len op) }
{
    let mut joined = c;
    joined.at += 4;
    joined.left += op / 16;
    joined
}

// The cursor with any other operation passed, by what it uses of the read and of the reference.
fn skip(c: Cursor, op: usize) -> Cursor
    requires { (c.at + 4 < 18446744073709551616) × (c.offset.0 ≤ 4294967296) × (c.position.0 ≤ 4294967296) × (op < 4294967296) }
    ensures { result ≡ cursor (c.at + 4) (c.offset.0 + read_len op) (c.position.0 + ref_len op) c.left }
{
    Cursor {
        at: c.at + 4,
        offset: ReadOffset(c.offset.0 + read_len(op)),
        position: RefPos(c.position.0 + ref_len(op)),
        left: c.left,
    }
}

// The cursor with a base at hand, unless there is none left. Aligned operations side by side, as in
// 3=1X1=, are one run.
// Kept: a `while`, as the byte that it counts is a part of the cursor that is answered; a `for` would count it twice.
fn settle(s: &[u8], end: usize, c: Cursor) -> Cursor
    requires { (end ≤ length s.now) × Stands (take end s.now) c }
    ensures { Settled (take end s.now) c result }
{
    if c.left != 0 {
        return c;
    }
    let mut cur = c;
    while 4 <= end - cur.at {
        let op = operation_at(s, cur.at);
        if uses_both(op) {
            cur = join(cur, op);
        } else {
            if cur.left != 0 {
                return cur;
            }
            cur = skip(cur, op);
        }
    }
    cur
}

// The cursor with the first base of an alignment at hand, unless it has none.
pub fn begin(s: &[u8], y: Layout, start: RefPos) -> Cursor
    requires { (y.bases ≤ length s.now) × Stands (take y.bases s.now) (cursor y.operations 0 start.0 0) }
    ensures { Settled (take y.bases s.now) (cursor y.operations 0 start.0 0) result }
{
    settle(
        s,
        y.bases,
        Cursor {
            at: y.operations,
            offset: ReadOffset(0),
            position: start,
            left: 0,
        },
    )
}

// The cursor with `d` bases of its run passed.
fn advance(c: Cursor, d: usize) -> Cursor
    requires { (d ≤ c.left) × (c.offset.0 + c.left ≤ 4294967296) × (c.position.0 + c.left ≤ 4294967296) }
    ensures { result ≡ advanced c d }
{
    Cursor {
        at: c.at,
        offset: ReadOffset(c.offset.0 + d),
        position: RefPos(c.position.0 + d),
        left: c.left - d,
    }
}

// The cursor with `d` bases passed and a base at hand, unless there is none left.
pub fn pass(s: &[u8], end: usize, c: Cursor, d: usize) -> Cursor
    requires { (end ≤ length s.now) × Stands (take end s.now) c × (d ≤ c.left) }
    ensures { Settled (take end s.now) (advanced c d) result }
{
    settle(s, end, advance(c, d))
}
