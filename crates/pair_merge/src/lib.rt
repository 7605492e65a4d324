// The walk over the shared positions of two records: two cursors, one over each alignment, and every
// run of positions at which both records have a base.
#![tactic(auto)]

ghost use Rattle.std.specs.Prelude.{◌≡◌, ◌*◌, ◌≤◌, ltb, length, take};
ghost use Rattle.fields.specs.Sound.{Lies};
ghost use Rattle.stats.specs.Room.{Room};
ghost use Rattle.positions.specs.Step.{state};
ghost use Rattle.pair_merge.specs.Shared.{shared, merged, Walked};
ghost use Rattle.pair_merge.specs.Meeting.{Ready, Skipped, Level};

use cigar::Cursor;
use fields::{Layout, RefPos};
use positions::Job;
use stats::CorrectionStats;

// How many positions are shared, and the counts after them.
#[derive(Clone, Copy)]
pub struct Met {
    pub shared: usize,
    pub stats: CorrectionStats,
}

// Two cursors at the next position at which both have a base, or where one of them has none left: the one that is behind
// goes on, by so many bases as its run and the other let it. It is a part of each caller: called, it takes 146 instructions
// more a pair of W1.
// Kept: a `while` over two cursors, of which one goes on in a turn; no iterator does.
#[inline(always)]
fn meeting(
    first: &[u8],
    second: &[u8],
    y: Layout,
    z: Layout,
    a: Cursor,
    b: Cursor,
) -> (Cursor, Cursor)
    requires { (y.bases ≤ length first.now) × (z.bases ≤ length second.now) × Ready (take y.bases first.now) a × Ready (take z.bases second.now) b }
    ensures skipped { Skipped (take y.bases first.now) (take z.bases second.now) a b result.0 result.1 }
    ensures level { Level result.0 result.1 }
{
    let mut c = a;
    let mut d = b;
    while c.left != 0 && d.left != 0 && c.position.0 != d.position.0 {
        if c.position.0 < d.position.0 {
            c = cigar::pass(first, y.bases, c, c.left.min(d.position.0 - c.position.0));
        } else {
            d = cigar::pass(second, z.bases, d, d.left.min(c.position.0 - d.position.0));
        }
    }
    (c, d)
}

// All shared positions of two records whose alignments start at the positions p and q, treated.
// Kept: what the checks said of both records stands in clauses, as docs/PROVED.md names this function with what it asks.
pub fn merge(
    w: Job,
    first: &mut [u8],
    second: &mut [u8],
    p: RefPos,
    q: RefPos,
    g: CorrectionStats,
) -> Met
    requires { Lies w.first (length first.old) × Lies w.second (length second.old) × Walked w.first p first.old × Walked w.second q second.old × Room g (2 * w.first.count) }
    ensures treated { state first.new second.new result.stats ≡ merged w p q (state first.old second.old g) }
    ensures counted { result.shared ≡ length (shared w.first w.second p q first.old second.old) }
{
    let y = w.first;
    let z = w.second;
    let begun = cigar::begin(first, y, p);
    let mate = cigar::begin(second, z, q);
    let (mut a, mut b) = meeting(first, second, y, z, begun, mate);
    let mut met = 0;
    let mut h = g;
    // Kept: a turn treats as many positions as both runs hold, and takes both cursors on by them; no iterator does.
    while a.left != 0 && b.left != 0 {
        let n = a.left.min(b.left);
        h = rows::treat_row(w, first, second, a.offset, b.offset, n, h);
        met += n;
        let passed = cigar::pass(first, y.bases, a, n);
        let mate = cigar::pass(second, z.bases, b, n);
        (a, b) = meeting(first, second, y, z, passed, mate);
    }
    Met {
        shared: met,
        stats: h,
    }
}

// Whether two records whose alignments start at the positions p and q share a position.
pub fn meet(first: &[u8], second: &[u8], y: Layout, z: Layout, p: RefPos, q: RefPos) -> bool
    requires { Lies y (length first.now) × Lies z (length second.now) × Walked y p first.now × Walked z q second.now }
    ensures { result ≡ ltb 0 (length (shared y z p q first.now second.now)) }
{
    let begun = cigar::begin(first, y, p);
    let mate = cigar::begin(second, z, q);
    let (a, b) = meeting(first, second, y, z, begun, mate);
    a.left != 0 && b.left != 0
}
