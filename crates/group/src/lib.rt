// The group call: framed records paired by name, and each pair corrected where it stands.
#![tactic(auto)]

ghost use Rattle.std.specs.Prelude.{◌≡◌, false};
ghost use Rattle.stats.specs.Counts.{full};
ghost use Rattle.group.specs.Group.{ended, ended_by, framed_of, group_of};

use group_applying::Applied;
use group_frames::Frames;
use refusal::Refusal;
use stats::CorrectionStats;
use strategy::Strategies;

// What a group call answers: how many records, pairs and overlapping pairs there are, or why it is
// refused. A refusal changes nothing.
// Kept: the refusal stands in the answer, which the paper names as the form of this call (docs/DECISIONS.md, Forms).
#[derive(Clone, Copy)]
pub enum GroupAnswer {
    Done {
        records: usize,
        pairs: usize,
        overlapping: usize,
    },
    Refused(Refusal),
}

// The answer, and the counts after the call.
// Kept: counts by value beside the answer, which the paper names as the form (docs/DECISIONS.md, Forms).
#[derive(Clone, Copy)]
pub struct Grouped {
    pub answer: GroupAnswer,
    pub stats: CorrectionStats,
}

// The pairs of a group that is cut into its frames, corrected once all of them are judged: how many records
// there are, and what their pairs give.
fn group_framed(
    buf: &mut [u8],
    room: &mut [u8; 65536],
    w: Strategies,
    stats: CorrectionStats,
) -> Result<(usize, Applied), Refusal>
    requires { full stats ≡ false }
    ensures { ended_by result buf.new stats ≡ framed_of w buf.old stats }
{
    // Kept: a table of fixed length, since no memory is taken for a group.
    let mut begins = [1usize; 257];
    let count = group_frames::cut(buf, &mut begins)?;
    let frames = Frames {
        bytes: buf,
        begins: &begins,
        count,
    };
    // Kept: as above.
    let mut mate = [1usize; 256];
    group_mates::find(frames, &mut mate);
    group_verdicts::judge_all(frames, &mate)?;
    let applied = group_applying::apply_all(buf, room, &begins, count, &mate, w, stats);
    Ok((count, applied))
}

// The group corrected by the strategies and the cap of these numbers, or why it is refused.
fn group_numbered(
    buf: &mut [u8],
    agreement: u32,
    disagreement: u32,
    cap: u32,
    stats: CorrectionStats,
) -> Result<(usize, Applied), Refusal>
    ensures { ended_by result buf.new stats ≡ group_of agreement disagreement cap buf.old stats }
{
    let mut room = [0u8; 65536];
    let w = strategy::by_number(agreement, disagreement, cap)?;
    if stats.full() {
        return Err(Refusal::Count);
    }
    group_framed(buf, &mut room, w, stats)
}

// Corrects the overlapping pairs of a group of framed records where they stand, by the strategies and the
// cap of these numbers, and adds to the counts. Refused, the group and the counts are as they came.
pub fn group(
    buf: &mut [u8],
    agreement: u32,
    disagreement: u32,
    cap: u32,
    stats: CorrectionStats,
) -> Grouped
    ensures { ended result.answer buf.new result.stats ≡ group_of agreement disagreement cap buf.old stats }
{
    match group_numbered(buf, agreement, disagreement, cap, stats) {
        Ok((records, applied)) => Grouped {
            answer: GroupAnswer::Done {
                records,
                pairs: applied.pairs,
                overlapping: applied.overlapping,
            },
            stats: applied.stats,
        },
        Err(r) => Grouped {
            answer: GroupAnswer::Refused(r),
            stats,
        },
    }
}
