// Rows of shared positions, treated a stretch at a time: `treat_row` answers what `positions::treat_row`
// answers, and takes a tenth of its instructions on long rows.
#![tactic(auto)]

ghost use Rattle.std.specs.Prelude.{◌≡◌, true, false, ◌+◌, ◌*◌, ◌≤◌, length};
ghost use Rattle.fields.specs.Sound.{Lies};
ghost use Rattle.stats.specs.Room.{Room};
ghost use Rattle.positions.specs.Step.{state};
ghost use Rattle.positions.specs.Treating.{steps, row};
ghost use Rattle.rows.specs.Wide.{Wide};

use fields::{Layout, ReadOffset};
use positions::Job;
use stats::CorrectionStats;

// Whether a record has too few bases for stretches to be read: 16 bases as a word from any base on, and 32 bytes
// up to any quality. One of fewer than eight bases has, and no other record that was checked.
fn narrow(y: Layout, z: Layout) -> bool
    ensures { (result ≡ false → Wide y × Wide z) × (result ≡ true → Wide y × Wide z → ⊥) }
{
    y.count < 8 || z.count < 8 || y.qualities < 32 || z.qualities < 32
}

// n shared positions in a row, from base i of the first record and base j of the second on: as many as agree at
// once, then the one behind them by itself, and on. Where a record is too short for that, all one by one.
// Kept: the parameters and clauses of `positions::treat_row`, whose contract this is word for word.
pub fn treat_row(
    job: Job,
    first: &mut [u8],
    second: &mut [u8],
    i: ReadOffset,
    j: ReadOffset,
    n: usize,
    g: CorrectionStats,
) -> CorrectionStats
    requires { Lies job.first (length first.old) × Lies job.second (length second.old) × (i.0 + n ≤ job.first.count) × (j.0 + n ≤ job.second.count) × Room g (2 * n) }
    ensures { state first.new second.new result ≡ steps job (row i.0 j.0 n) (state first.old second.old g) }
{
    let y = job.first;
    let z = job.second;
    if narrow(y, z) {
        return positions::treat_row(job, first, second, i, j, n, g);
    }
    let yq = y.qualities;
    let zq = z.qualities;
    let mut t = 0;
    let mut h = g;
    let mut agreeing: u64 = 0;
    let mut corrected: u64 = 0;
    // Kept: a turn passes as many positions as agree and the one behind them, which no range or iterator yields.
    while t < n {
        let p = ReadOffset(i.0 + t);
        let q = ReadOffset(j.0 + t);
        let left = n - t;
        let k = stretch::agreeing(first, second, y, z, p, q, left);
        corrected += stretch_qualities::treat(job.strategies, first, yq + p.0, second, zq + q.0, k);
        agreeing += k as u64;
        t += k;
        if t < n {
            let u = ReadOffset(i.0 + t);
            let v = ReadOffset(j.0 + t);
            h = positions::treat_one(job, first, second, u, v, h);
            t += 1;
        }
    }
    h.plus(lane::agreements(agreeing, corrected))
}
