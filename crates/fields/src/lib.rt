// The numbers, the layout and the flags of a BAM record, and the check that its parts lie within it.
#![tactic(auto)]

ghost use Rattle.std.specs.Prelude.{◌≡◌, ◌+◌, ◌<◌, ◌≤◌, length, take, drop};
ghost use Rattle.fields.specs.Number.{unsigned, put, signed32};
ghost use Rattle.fields.specs.Flag.{has_bit, unmapped, first_segment, last_segment, secondary, supplementary};
ghost use Rattle.fields.specs.Position.{position_of, same_id};
ghost use Rattle.fields.specs.Layout.{header, name_in, layout_of};
ghost use Rattle.fields.specs.Check.{check_of};

use refusal::Refusal;

// How many bytes a record has before its name.
pub const FIXED: usize = 32;

// How many bytes a record may have.
const LONGEST: usize = 65536;

// The bytes from `at` on, as many as the type of the result has.
fn bytes_at<const W: usize>(s: &[u8], at: usize) -> [u8; W]
    requires { at + W ≤ length s.now }
    ensures { result ≡ take W (drop at s.now) }
{
    let mut bytes = [0; W];
    bytes.copy_from_slice(&s[at..at + W]);
    bytes
}

// The number that the two bytes from `at` on hold, least byte first.
// Kept: six functions of a line over the library's, one a width and a sign: docs/PROVED.md names each with its promise.
pub fn u16_at(s: &[u8], at: usize) -> u16
    requires { at + 2 ≤ length s.now }
    ensures { result ≡ unsigned 2 s.now at }
{
    u16::from_le_bytes(bytes_at(s, at))
}

// The number that the four bytes from `at` on hold, least byte first.
pub fn u32_at(s: &[u8], at: usize) -> u32
    requires { at + 4 ≤ length s.now }
    ensures { result ≡ unsigned 4 s.now at }
{
    u32::from_le_bytes(bytes_at(s, at))
}

// The number that the eight bytes from `at` on hold, least byte first.
pub fn u64_at(s: &[u8], at: usize) -> u64
    requires { at + 8 ≤ length s.now }
    ensures { result ≡ unsigned 8 s.now at }
{
    u64::from_le_bytes(bytes_at(s, at))
}

// The signed number that the four bytes from `at` on hold, in two's complement.
pub fn i32_at(s: &[u8], at: usize) -> i32
    requires { at + 4 ≤ length s.now }
    ensures { result ≡ signed32 (unsigned 4 s.now at) }
{
    i32::from_le_bytes(bytes_at(s, at))
}

// Stores a number in the four bytes from `at` on, least byte first. All other bytes stay.
pub fn put_u32(d: &mut [u8], at: usize, v: u32)
    requires { at + 4 ≤ length d.old }
    ensures { d.new ≡ put 4 d.old at v }
{
    d[at..at + 4].copy_from_slice(&v.to_le_bytes());
}

// Stores a number in the eight bytes from `at` on, least byte first. All other bytes stay.
pub fn put_u64(d: &mut [u8], at: usize, v: u64)
    requires { at + 8 ≤ length d.old }
    ensures { d.new ≡ put 8 d.old at v }
{
    d[at..at + 8].copy_from_slice(&v.to_le_bytes());
}

// The flags of a record, each a bit of one number. The constants are the weights of the bits.
#[derive(Clone, Copy)]
pub struct Flags(pub u16);

impl Flags {
    // The read is placed nowhere on the reference.
    pub const UNMAPPED: u16 = 4;

    // The read is the first of its template.
    pub const FIRST_SEGMENT: u16 = 64;

    // The read is the last of its template.
    pub const LAST_SEGMENT: u16 = 128;

    // The record is another placing of a read whose main one stands elsewhere.
    pub const SECONDARY: u16 = 256;

    // The record is a further piece of a read that is placed in pieces.
    pub const SUPPLEMENTARY: u16 = 2048;

    // Whether the bit of this weight is set.
    fn has(self, weight: u16) -> bool
        requires { 0 < weight }
        ensures { result ≡ has_bit self.0 weight }
    {
        self.0 / weight % 2 == 1
    }

    // Whether UNMAPPED is set.
    pub fn unmapped(self) -> bool
        ensures { result ≡ has_bit self.0 unmapped }
    {
        self.has(Self::UNMAPPED)
    }

    // Whether FIRST_SEGMENT is set.
    pub fn first_segment(self) -> bool
        ensures { result ≡ has_bit self.0 first_segment }
    {
        self.has(Self::FIRST_SEGMENT)
    }

    // Whether LAST_SEGMENT is set.
    pub fn last_segment(self) -> bool
        ensures { result ≡ has_bit self.0 last_segment }
    {
        self.has(Self::LAST_SEGMENT)
    }

    // Whether SECONDARY is set.
    pub fn secondary(self) -> bool
        ensures { result ≡ has_bit self.0 secondary }
    {
        self.has(Self::SECONDARY)
    }

    // Whether SUPPLEMENTARY is set.
    pub fn supplementary(self) -> bool
        ensures { result ≡ has_bit self.0 supplementary }
    {
        self.has(Self::SUPPLEMENTARY)
    }
}

// The id of the reference that the record is placed on; negative where it has none.
// Kept: each read from here on asks for the 32 bytes itself, as docs/PROVED.md names them with this clause, and as the paper has
// plain reads under the thin view.
pub fn ref_id(s: &[u8]) -> i32
    requires { 32 ≤ length s.now }
    ensures { result ≡ (header s.now).ref_id }
{
    i32_at(s, 0)
}

// The leftmost position on the reference, counted from 0; negative where the record is unplaced.
pub fn pos(s: &[u8]) -> i32
    requires { 32 ≤ length s.now }
    ensures { result ≡ (header s.now).pos }
{
    i32_at(s, 4)
}

// How many bytes the name takes, its closing zero byte included.
pub fn l_read_name(s: &[u8]) -> u8
    requires { 32 ≤ length s.now }
    ensures { result ≡ (header s.now).name_length }
{
    s[8]
}

// The name without its closing byte, as a part of the record.
pub fn name_of(s: &[u8]) -> &[u8]
    requires { 32 + (header s.now).name_length ≤ length s.now }
    ensures { result.now ≡ name_in s.now }
{
    let n = usize::from(l_read_name(s));
    &s[FIXED..][..n.saturating_sub(1)]
}

// How many operations the alignment has.
pub fn n_cigar_op(s: &[u8]) -> u16
    requires { 32 ≤ length s.now }
    ensures { result ≡ (header s.now).operation_count }
{
    u16_at(s, 12)
}

// The flags of the record.
pub fn flags_of(s: &[u8]) -> Flags
    requires { 32 ≤ length s.now }
    ensures { result.0 ≡ (header s.now).flags }
{
    Flags(u16_at(s, 14))
}

// How many bases, and how many qualities, the record holds.
pub fn l_seq(s: &[u8]) -> u32
    requires { 32 ≤ length s.now }
    ensures { result ≡ (header s.now).l_seq }
{
    u32_at(s, 16)
}

// Where a record with this position is placed: nowhere if it is negative.
pub fn position_of(p: i32) -> Option<u32>
    ensures { result ≡ position_of p }
{
    u32::try_from(p).ok()
}

// Whether two reference ids are the same one. Two ids of -1 are.
// Kept: public, and promises this of ids alone, of which `same_id_equal` (docs/PROVED.md) says what it is.
pub fn same_id(a: i32, b: i32) -> bool
    ensures { result ≡ same_id a b }
{
    a == b
}

// The record's position, where it has one.
pub fn start_of(s: &[u8]) -> Option<u32>
    requires { 32 ≤ length s.now }
    ensures { result ≡ position_of (header s.now).pos }
{
    position_of(pos(s))
}

// Whether two records name one reference.
pub fn same_reference(a: &[u8], b: &[u8]) -> bool
    requires { (32 ≤ length a.now) × (32 ≤ length b.now) }
    ensures { result ≡ same_id (header a.now).ref_id (header b.now).ref_id }
{
    same_id(ref_id(a), ref_id(b))
}

// A position on the reference, counted from 1.
#[derive(Clone, Copy)]
pub struct RefPos(pub usize);

// An offset in a read, counted from 0.
#[derive(Clone, Copy)]
pub struct ReadOffset(pub usize);

// Where the operations, the bases and the qualities of a record begin, and how many bases there are.
#[derive(Clone, Copy)]
pub struct Layout {
    pub operations: usize,
    pub bases: usize,
    pub qualities: usize,
    pub count: usize,
}

// Where the parts of a record begin by its header, whether or not they lie within it.
pub fn layout_of(s: &[u8]) -> Layout
    requires { 32 ≤ length s.now }
    ensures { (result ≡ layout_of s.now) × (result.qualities + result.count < 8589934592) }
{
    let operations = FIXED + usize::from(l_read_name(s));
    let bases = operations + 4 * usize::from(n_cigar_op(s));
    let count = l_seq(s) as usize;
    let qualities = bases + (count + 1) / 2;
    Layout {
        operations,
        bases,
        qualities,
        count,
    }
}

// Whether the record's length is allowed and its parts lie within it. `place` is what a refusal names.
pub fn check_record(s: &[u8], place: u16) -> Result<Layout, Refusal>
    ensures { result ≡ check_of s.now place }
{
    if s.len() < FIXED {
        return Err(Refusal::RecordShort(place));
    }
    if LONGEST < s.len() {
        return Err(Refusal::RecordLong(place));
    }
    let y = layout_of(s);
    if s.len() < y.bases {
        return Err(Refusal::NameAndOperations(place));
    }
    if s.len() < y.qualities + y.count {
        return Err(Refusal::BasesAndQualities(place));
    }
    Ok(y)
}
