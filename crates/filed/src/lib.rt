// The call on a filed group: framed records and a trailer that says whether they were corrected. A raw
// group is corrected into another buffer, front to back; a corrected one is known and left alone.
#![tactic(auto)]

ghost use Rattle.std.specs.Prelude.{◌≡◌, ◌↔◌, IsTrue, false, ◌+◌, ◌<◌, ◌≤◌, length, take};
ghost use Rattle.stats.specs.declared.CorrectionStats.{CorrectionStats};
ghost use Rattle.stats.specs.Counts.{full};
ghost use Rattle.group_frames.specs.Part.{part, splice};
ghost use Rattle.group_frames.specs.Frame.{begin_of};
ghost use Rattle.group_frames.specs.Table.{Tabled};
ghost use Rattle.group_mates.specs.Table.{Mated};
ghost use Rattle.filed_ending.specs.Found.{FramesEnd};
ghost use Rattle.filed_writing.specs.Short.{Short};
ghost use Rattle.filed_writing.specs.Turn.{AllPassed};
ghost use Rattle.filed_writing.specs.Written.{WrittenTo};
ghost use Rattle.filed_trailer.specs.Trailer.{stamped};
ghost use Rattle.filed.specs.Filed.{ended, counted, ended_by, on_raw, on_ending, filed_of};
ghost use Rattle.filed.specs.Final.{Final, Before, FiledTo, Fits, FitsBy, Slight};

use filed_trailer::{State, Trailer};
use group_applying::Applied;
use group_frames::Frames;
use refusal::Refusal;
use stats::CorrectionStats;
use strategy::Strategies;

// What the call answers: a raw group was corrected, with so many records, pairs and overlapping pairs and
// this growth of the counts; it was corrected before, with the counts of its trailer; or why it is refused.
// Kept: the refusal stands in the answer, as below.
#[derive(Clone, Copy)]
pub enum FiledAnswer {
    Corrected {
        records: usize,
        pairs: usize,
        overlapping: usize,
        growth: CorrectionStats,
    },
    AlreadyDone {
        records: usize,
        growth: CorrectionStats,
    },
    Refused(Refusal),
}

// The answer, and the counts after the call.
// Kept: the refusal stands in the answer, and the counts beside it, as in the pair and the group call (docs/DECISIONS.md,
// Forms); `filed_of` has it so.
#[derive(Clone, Copy)]
pub struct Filed {
    pub answer: FiledAnswer,
    pub stats: CorrectionStats,
}

// The counts after a call with this answer: only a group that was corrected adds to them.
fn counted(answer: FiledAnswer, stats: CorrectionStats) -> CorrectionStats
    requires { Fits answer stats }
    ensures { result ≡ counted answer stats }
{
    match answer {
        FiledAnswer::Corrected { growth, .. } => stats.plus(growth),
        FiledAnswer::AlreadyDone { .. } => stats,
        FiledAnswer::Refused(_) => stats,
    }
}

// The longest record that the small rooms take. Reads of a few hundred bases have under 1,000 bytes, and
// rooms for the longest record would cost more to clear than most groups to correct.
const SMALL: usize = 1024;

// The longest record that a group may have.
const LARGE: usize = 65536;

// Whether the small rooms take every record, each of which is a size of 4 bytes behind where its frame begins.
fn small(frames: Frames<'_>) -> bool
    requires { frames.count < length frames.begins.now }
    ensures { IsTrue result ↔ Short frames.entry.begins.now frames.entry.count 1024 }
{
    let begins = frames.begins;
    (0..frames.count).all(|k| begins[k + 1].saturating_sub(begins[k]) <= SMALL + 4)
}

// The frames of a raw group corrected into `out`, front to back, in rooms for records of so many bytes.
// Kept: what is known of frames, mates and rooms stands in clauses here and below, as `filed_writing::write_all` asks for
// it, which docs/PROVED.md names; and `mate` and `lead` are tables of fixed length, since no memory is taken for a group.
fn write_in<const ROOM: usize>(
    frames: Frames<'_>,
    mate: &[usize],
    lead: &mut [usize],
    w: Strategies,
    out: &mut [u8],
) -> Applied
    requires { Tabled frames × Mated frames.bytes.now mate.now frames.count × (256 ≤ length lead.old) × (begin_of frames.bytes.now frames.count ≤ length out.old) × Short frames.begins.now frames.count ROOM × AllPassed frames.bytes.now frames.count × (ROOM ≤ 65536) }
    ensures { WrittenTo w frames.entry.bytes.now frames.entry.count out.old out.new result }
{
    let mut left = [0u8; ROOM];
    let mut right = [0u8; ROOM];
    filed_writing::write_all(frames, mate, lead, w, &mut left, &mut right, out)
}

// The frames of a raw group corrected into `out`, front to back: in the small rooms, and where a record is
// too long for them, again in the large ones. Since it calls itself, it is compiled by itself and the rooms are
// not taken into it: a group of small records does not hold the 128 KiB of the large ones on its stack.
// Kept: so `large` is a flag of one function and not two functions or a closure.
fn write_frames(
    frames: Frames<'_>,
    mate: &[usize],
    w: Strategies,
    out: &mut [u8],
    large: bool,
) -> Applied
    requires { Tabled frames × Mated frames.bytes.now mate.now frames.count × (begin_of frames.bytes.now frames.count ≤ length out.old) × AllPassed frames.bytes.now frames.count }
    ensures { WrittenTo w frames.entry.bytes.now frames.entry.count out.old out.new result }
{
    let mut lead = [0usize; 256];
    if large {
        return write_in::<LARGE>(frames, mate, &mut lead, w, out);
    }
    if small(frames) {
        return write_in::<SMALL>(frames, mate, &mut lead, w, out);
    }
    write_frames(frames, mate, w, out, true)
}

// The trailer, made for a corrected group and put behind its frames. The frames must stand before it.
fn put_trailer(filed: &[u8], p: usize, growth: CorrectionStats, out: &mut [u8])
    requires { (p + 50 ≤ length filed.now) × (p + 50 ≤ length out.old) × Final (take p filed.now) out.old p growth }
    ensures { out.new ≡ splice out.old p (p + 50) (stamped (part filed.now p (p + 50)) growth) }
{
    let mut t = [0u8; filed_trailer::SIZE];
    t.copy_from_slice(&filed[p..p + filed_trailer::SIZE]);
    filed_trailer::stamp(&mut t, growth);
    out[p..p + filed_trailer::SIZE].copy_from_slice(&t);
}

// A raw filed group corrected into `out`: its frames, and then the trailer.
// Kept: `mate` is a table of fixed length, since no memory is taken for a group.
fn write_filed(
    filed: &[u8],
    frames: Frames<'_>,
    mate: &[usize],
    w: Strategies,
    out: &mut [u8],
) -> Applied
    requires { Before frames filed.now × Mated frames.bytes.now mate.now frames.count × (length filed.now ≤ length out.old) × AllPassed frames.bytes.now frames.count }
    ensures { FiledTo w filed.now (begin_of filed.now frames.entry.count) frames.entry.count out.old out.new result }
{
    let applied = write_frames(frames, mate, w, out, false);
    let growth = applied.stats;
    put_trailer(filed, frames.bytes.len(), growth, out);
    applied
}

// A raw filed group: every pair is judged before any byte is written.
fn correct_raw(
    filed: &[u8],
    frames: Frames<'_>,
    t: Trailer,
    out: &mut [u8],
) -> Result<FiledAnswer, Refusal>
    requires { Before frames filed.now }
    ensures { ((g : CorrectionStats) → ended_by result out.new g ≡ on_raw filed.now out.old g (begin_of filed.now frames.entry.count) t.strategies) × Slight result }
{
    let (agreement, disagreement) = t.numbers();
    let w = strategy::by_number(agreement, disagreement, u32::from(strategy::FULL_CAP))?;
    // Kept: a table of fixed length, since no memory is taken for a group.
    let mut mate = [0usize; 256];
    group_mates::find(frames, &mut mate);
    group_verdicts::judge_all(frames, &mate)?;
    if out.len() < filed.len() {
        return Err(Refusal::OutputShort);
    }
    let applied = write_filed(filed, frames, &mate, w, out);
    Ok(FiledAnswer::Corrected {
        records: frames.count,
        pairs: applied.pairs,
        overlapping: applied.overlapping,
        growth: applied.stats,
    })
}

// A filed group whose n frames were cut: its trailer, and what that asks for.
// Kept: the table and the count come by themselves and not as `Frames`: behind the frames stands the trailer, which is
// read here.
fn correct_ended(
    filed: &[u8],
    begins: &[usize],
    n: usize,
    out: &mut [u8],
) -> Result<FiledAnswer, Refusal>
    requires { FramesEnd filed.now begins.now n }
    ensures { ((g : CorrectionStats) → ended_by result out.new g ≡ on_ending filed.now out.old g (Ok n)) × Slight result }
{
    let p = begins[n];
    if filed.len() - p != filed_trailer::SIZE {
        return Err(Refusal::TrailerMissing);
    }
    let t = filed_trailer::read(filed, p);
    if t.wrong(n, p) {
        return Err(Refusal::TrailerField);
    }
    if t.state == u8::from(State::Corrected) {
        return Ok(FiledAnswer::AlreadyDone {
            records: n,
            growth: t.growth,
        });
    }
    let frames = Frames {
        bytes: &filed[..p],
        begins,
        count: n,
    };
    correct_raw(filed, frames, t, out)
}

// A filed group corrected into `out`, where that is asked for and the counts have room for it: what is
// answered, or why it is refused.
fn corrected(filed: &[u8], out: &mut [u8], stats: CorrectionStats) -> Result<FiledAnswer, Refusal>
    ensures { (ended_by result out.new stats ≡ filed_of filed.now out.old stats) × FitsBy result stats }
{
    if stats.full() {
        return Err(Refusal::Count);
    }
    // Kept: a table of fixed length, since no memory is taken for a group.
    let mut begins = [1usize; 257];
    let n = filed_ending::cut(filed, &mut begins)?;
    correct_ended(filed, &begins, n, out)
}

// Corrects a raw filed group into `out` by the strategies of its trailer, and adds to the counts. A group
// that was corrected before is answered as such. Only where it is corrected is anything written.
pub fn correct(filed: &[u8], out: &mut [u8], stats: CorrectionStats) -> Filed
    ensures { ended result.answer out.new result.stats ≡ filed_of filed.now out.old stats }
{
    match corrected(filed, out, stats) {
        Ok(answer) => Filed {
            answer,
            stats: counted(answer, stats),
        },
        Err(why) => Filed {
            answer: FiledAnswer::Refused(why),
            stats,
        },
    }
}
