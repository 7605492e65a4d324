// The frames of a group: where each record lies. A frame is a u32 size and then that many bytes.
#![tactic(auto)]

ghost use Rattle.std.specs.Prelude.{◌≡◌, ◌<◌, ◌≤◌, length};
ghost use Rattle.group_frames.specs.Frame.{frame_of, frames_of, record_of};
ghost use Rattle.group_frames.specs.Table.{Filled, Tabled};

use refusal::Refusal;

// How many records a group may have.
pub const MOST: usize = 256;

// The frame of record k, which begins at a byte of the group: where it ends.
pub fn frame_at(s: &[u8], begin: usize, k: usize) -> Result<usize, Refusal>
    requires { (begin < length s.now) × (k < 256) }
    ensures { result ≡ frame_of s.now begin k }
{
    let place = k as u16;
    let left = s.len() - begin;
    if left < 4 {
        return Err(Refusal::Frame(place));
    }
    let size = fields::u32_at(s, begin) as usize;
    if left - 4 < size {
        return Err(Refusal::Frame(place));
    }
    let start = begin + 4;
    let end = start + size;
    fields::check_record(&s[start..end], place)?;
    Ok(end)
}

// Cuts a group into its records, each checked, and answers how many there are. Afterwards `begins` holds where
// each frame begins, and behind these where the last one ends.
// Kept: the table is the caller's and of fixed length, since no memory is taken for a group.
pub fn cut(s: &[u8], begins: &mut [usize]) -> Result<usize, Refusal>
    requires { 257 ≤ length begins.old }
    ensures { (result ≡ frames_of s.now) × Filled s.now begins.new result }
{
    let mut begin: usize = 0;
    begins[0] = 0;
    // Kept: k is the number of the record too, and where a frame begins isn't known before the one in front of it is read.
    for k in 0..MOST {
        if s.len() <= begin {
            return Ok(k);
        }
        begin = frame_at(s, begin, k)?;
        begins[k + 1] = begin;
    }
    if begin < s.len() {
        return Err(Refusal::TooManyRecords);
    }
    Ok(MOST)
}

// The bytes of a group and the table of its frames: where each of so many begins, and behind these where
// the last one ends.
// Kept: the fact that the table is right (`Tabled`) is a clause and no ghost field, since docs/PROVED.md names
// `group_mates::find` and the others that ask for it, and these may not take a type with an invariant instead.
#[derive(Clone, Copy)]
pub struct Frames<'a> {
    pub bytes: &'a [u8],
    pub begins: &'a [usize],
    pub count: usize,
}

impl<'a> Frames<'a> {
    // Record k, as a part of the group.
    pub fn record(self, k: usize) -> &'a [u8]
        requires { Tabled self × (k < self.count) }
        ensures { result.now ≡ record_of self.entry.bytes.now k }
    {
        let start = self.begins[k] + 4;
        let end = self.begins[k + 1];
        &self.bytes[start..end]
    }
}
