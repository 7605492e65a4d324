// Shared positions treated: one, or several in a row, given the offsets of the two bases.
#![tactic(auto)]

ghost use Rattle.std.specs.Prelude.{◌≡◌, ◌+◌, ◌*◌, ◌≤◌, ◌<◌, length};
ghost use Rattle.fields.specs.Sound.{Lies};
ghost use Rattle.stats.specs.Room.{Room};
ghost use Rattle.positions.specs.Step.{state};
ghost use Rattle.positions.specs.Treating.{step, steps, row};

use fields::{Layout, ReadOffset};
use stats::CorrectionStats;
use strategy::Strategies;

// What is the same over a whole pair: the strategies, and where each record has its parts.
#[derive(Clone, Copy)]
pub struct Job {
    pub strategies: Strategies,
    pub first: Layout,
    pub second: Layout,
}

// One shared position: base i of the first record and base j of the second.
pub fn treat_one(
    job: Job,
    first: &mut [u8],
    second: &mut [u8],
    i: ReadOffset,
    j: ReadOffset,
    g: CorrectionStats,
) -> CorrectionStats
    requires { Lies job.first (length first.old) × Lies job.second (length second.old) × (i.0 < job.first.count) × (j.0 < job.second.count) × Room g 2 }
    ensures { state first.new second.new result ≡ step job (state first.old second.old g) i.0 j.0 }
{
    let p = bases::get(first, job.first, i);
    let q = bases::get(second, job.second, j);
    let o = strategy::treat(job.strategies, p.base, p.quality, q.base, q.quality);
    bases::set(first, job.first, i, o.base1, o.qual1);
    bases::set(second, job.second, j, o.base2, o.qual2);
    g.plus(o.growth)
}

// n shared positions in a row, from base i of the first record and base j of the second on. Bases are
// written only where they differ, and the counts of agreements are added up beside the others.
// Kept: i, j and n by themselves, as docs/PROVED.md names this function with what it asks of each.
pub fn treat_row(
    job: Job,
    first: &mut [u8],
    second: &mut [u8],
    i: ReadOffset,
    j: ReadOffset,
    n: usize,
    g: CorrectionStats,
) -> CorrectionStats
    requires { Lies job.first (length first.old) × Lies job.second (length second.old) × (i.0 + n ≤ job.first.count) × (j.0 + n ≤ job.second.count) × Room g (2 * n) }
    ensures { state first.new second.new result ≡ steps job (row i.0 j.0 n) (state first.old second.old g) }
{
    let w = job.strategies;
    let yq = job.first.qualities;
    let zq = job.second.qualities;
    let mut h = g;
    let mut agreeing: u64 = 0;
    let mut corrected: u64 = 0;
    for t in 0..n {
        let p = ReadOffset(i.0 + t);
        let q = ReadOffset(j.0 + t);
        let a = bases::get(first, job.first, p);
        let b = bases::get(second, job.second, q);
        if a.base == bases::N {
            continue;
        }
        if a.base == b.base {
            let r = lane::agreed(w, a.quality, b.quality);
            first[yq + p.0] = r.qual1;
            second[zq + q.0] = r.qual2;
            agreeing += 1;
            corrected += u64::from(lane::changed(a.quality, b.quality, r.qual1, r.qual2));
        } else {
            h = treat_one(job, first, second, p, q, h);
        }
    }
    h.plus(lane::agreements(agreeing, corrected))
}
