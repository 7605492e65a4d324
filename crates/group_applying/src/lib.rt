// The pairs of a group, all of them judged, corrected where they stand as the pair call corrects them.
#![tactic(auto)]

ghost use Rattle.std.specs.Prelude.{◌≡◌, ◌+◌, ◌*◌, ◌<◌, ◌≤◌, length};
ghost use Rattle.stats.specs.Counts.{plus};
ghost use Rattle.stats.specs.Room.{Adds, Room};
ghost use Rattle.pair_judgement.specs.Ready.{Cleared};
ghost use Rattle.group_frames.specs.Part.{part};
ghost use Rattle.group_frames.specs.Table.{FrameTable};
ghost use Rattle.group_mates.specs.Register.{pairs_of};
ghost use Rattle.group_mates.specs.Table.{Mated};
ghost use Rattle.group_verdicts.specs.Judged.{judge_by};
ghost use Rattle.group_verdicts.specs.Indexed.{indexed_at};
ghost use Rattle.group_applying.specs.Applied.{AppliedTo};
ghost use Rattle.group_applying.specs.Within.{start_in, end_in, Given, Within, overlap_of, BothPut};

use pair_merge::Met;
use stats::CorrectionStats;
use strategy::Strategies;

// What treating the pairs gives: how many there are, how many of these overlap, and the counts after.
#[derive(Clone, Copy)]
pub struct Applied {
    pub pairs: usize,
    pub overlapping: usize,
    pub stats: CorrectionStats,
}

impl Applied {
    // What one pair adds that was treated with counts from 0.
    pub fn of_pair(met: Met) -> Applied
        ensures { (result.pairs ≡ 1) × (result.overlapping ≡ overlap_of met.shared) × (result.stats ≡ met.stats) }
    {
        Applied {
            pairs: 1,
            overlapping: usize::from(met.shared != 0),
            stats: met.stats,
        }
    }

    // What these pairs and more give together.
    pub fn plus(self, more: Applied) -> Applied
        requires { (self.pairs + more.pairs < 18446744073709551616) × (self.overlapping + more.overlapping < 18446744073709551616) × Adds self.stats more.stats }
        ensures { (result.pairs ≡ self.pairs + more.pairs) × (result.overlapping ≡ self.overlapping + more.overlapping) × (result.stats ≡ plus self.stats more.stats) }
    {
        Applied {
            pairs: self.pairs + more.pairs,
            overlapping: self.overlapping + more.overlapping,
            stats: self.stats.plus(more.stats),
        }
    }
}

// Where a record lies in its group.
#[derive(Clone, Copy)]
struct Place {
    start: usize,
    end: usize,
}

// Where record k lies, by the table of frames.
// Kept: the table comes without its bytes, which are lent to be written where its places are used.
fn place_of(begins: &[usize], k: usize) -> Place
    requires { (k + 1 < length begins.now) × (start_in begins.now k ≤ end_in begins.now k) }
    ensures { (result.start ≡ start_in begins.now k) × (result.end ≡ end_in begins.now k) }
{
    Place {
        start: begins[k] + 4,
        end: begins[k + 1],
    }
}

// Two parts of a list that were judged as a pair, corrected with counts from 0. The second is copied
// out for it, and back.
fn apply_parts(buf: &mut [u8], room: &mut [u8], a: Place, b: Place, w: Strategies) -> Met
    requires { Within buf.old (length room.old) a.start a.end b.start b.end × Cleared (part buf.old a.start a.end) (part buf.old b.start b.end) }
    ensures { BothPut w buf.old a.start a.end b.start b.end buf.new result }
{
    let n = b.end - b.start;
    room[0..n].copy_from_slice(&buf[b.start..b.end]);
    let met = pair_judgement::treat_judged(
        w,
        &mut buf[a.start..a.end],
        &mut room[0..n],
        CorrectionStats::new(),
    );
    buf[b.start..b.end].copy_from_slice(&room[0..n]);
    met
}

// Records i and j of a group, which were judged as a pair, corrected.
// Kept: the table stands beside `buf` and not in a `Frames`, which lends the bytes to read.
fn apply_pair(
    buf: &mut [u8],
    room: &mut [u8],
    begins: &[usize],
    i: usize,
    j: usize,
    w: Strategies,
) -> Met
    requires { Given buf.old (length room.old) begins.now i j }
    ensures { BothPut w buf.old (start_in begins.now i) (end_in begins.now i) (start_in begins.now j) (end_in begins.now j) buf.new result }
{
    apply_parts(buf, room, place_of(begins, i), place_of(begins, j), w)
}

// Every pair of a group corrected, in order of the first's index; all were judged, and none refused.
// `room` takes one record at a time.
// Kept: the table and the count come beside `buf` and not in a `Frames`, which lends the bytes to read.
pub fn apply_all(
    buf: &mut [u8],
    room: &mut [u8],
    begins: &[usize],
    n: usize,
    mate: &[usize],
    w: Strategies,
    stats: CorrectionStats,
) -> Applied
    requires { FrameTable buf.old begins.now n × Mated buf.old mate.now n × (65536 ≤ length room.old) × Room stats (128 * 131072) × (judge_by (indexed_at buf.old) (pairs_of buf.old n) ≡ Ok tt) }
    ensures { AppliedTo w buf.old (pairs_of buf.old n) stats buf.new result }
{
    let mut sum = Applied {
        pairs: 0,
        overlapping: 0,
        stats,
    };
    for (i, m) in mate[..n].iter().enumerate() {
        if let Some(j) = m.checked_sub(1) {
            let met = apply_pair(buf, room, begins, i, j, w);
            sum = sum.plus(Applied::of_pair(met));
        }
    }
    sum
}
