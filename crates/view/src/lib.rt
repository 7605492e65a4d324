// The read view over a lent record: whether it is refused, its name as a part of it, and the
// numbers of its header that the overlap step reads.
#![tactic(auto)]

ghost use Rattle.std.specs.Prelude.{◌≡◌, ◌<◌, ◌≤◌, length, MatchOption};
ghost use Rattle.view.specs.View.{refused_of, name_of, flags_of, ref_id_of, pos_of, operation_count_of, l_seq_of};

use fields::{FIXED, Flags};
use refusal::Refusal;

// A record, lent to be read. Whether the record is refused is a question of its own: ask `refused` first.
#[derive(Clone, Copy)]
pub struct RecordView<'a> {
    pub bytes: &'a [u8],
}

// The view over lent bytes. Any bytes have one; `refused` says whether they are a record.
pub fn view_of<'a>(bytes: &'a [u8]) -> RecordView<'a>
    ensures { result.bytes ≡ bytes.entry }
{
    RecordView { bytes }
}

impl<'a> RecordView<'a> {
    // Whether the record is refused: by 1, 2 or 3 of the table, with place 0; 4 does not refuse.
    pub fn refused(self) -> Result<(), Refusal>
        ensures { result ≡ refused_of self.entry.bytes.now }
    {
        match fields::check_record(self.bytes, 0) {
            Err(r) if r.number() < 4 => Err(r),
            _ => Ok(()),
        }
    }

    // The name without its closing byte, as a part of the record; the empty part where the record is refused.
    pub fn name(self) -> &'a [u8]
        ensures { result.now ≡ name_of self.entry.bytes.now }
    {
        match self.refused() {
            Ok(()) => fields::name_of(self.bytes),
            Err(_) => &self.bytes[..0],
        }
    }

    // The record, where it has a header to read.
    fn headed(self) -> Option<&'a [u8]>
        ensures { MatchOption result (length self.entry.bytes.now < 32) (λ s. (s.now ≡ self.entry.bytes.now) × (32 ≤ length s.now)) }
    {
        if self.bytes.len() < FIXED {
            None
        } else {
            Some(self.bytes)
        }
    }

    // The flags; none is set where the record is under 32 bytes.
    pub fn flags(self) -> Flags
        ensures { result.0 ≡ flags_of self.entry.bytes.now }
    {
        self.headed().map_or(Flags(0), fields::flags_of)
    }

    // The id of the reference; negative where it has none, and -1 where the record is under 32 bytes.
    pub fn ref_id(self) -> i32
        ensures { result ≡ ref_id_of self.entry.bytes.now }
    {
        self.headed().map_or(-1, fields::ref_id)
    }

    // The leftmost position on the reference, counted from 0; negative where it is unplaced.
    pub fn pos(self) -> i32
        ensures { result ≡ pos_of self.entry.bytes.now }
    {
        self.headed().map_or(-1, fields::pos)
    }

    // How many operations the alignment has; 0 where the record is under 32 bytes.
    pub fn n_cigar_op(self) -> u16
        ensures { result ≡ operation_count_of self.entry.bytes.now }
    {
        self.headed().map_or(0, fields::n_cigar_op)
    }

    // How many bases, and how many qualities, the record holds; 0 where it is under 32 bytes.
    pub fn l_seq(self) -> u32
        ensures { result ≡ l_seq_of self.entry.bytes.now }
    {
        self.headed().map_or(0, fields::l_seq)
    }
}

// The name of a record that is lent as plain bytes.
pub fn name_of(s: &[u8]) -> &[u8]
    ensures { result.now ≡ name_of s.now }
{
    view_of(s).name()
}

// Whether a record that is lent as plain bytes is refused.
pub fn refused_of(s: &[u8]) -> Result<(), Refusal>
    ensures { result ≡ refused_of s.now }
{
    view_of(s).refused()
}
