// Entries over lent statistics: the pair call, the reset and the merge, each on the four counts where
// they stand.
#![tactic(auto)]

ghost use Rattle.std.specs.Prelude.{◌≡◌};
ghost use Rattle.stats.specs.Counts.{zeroed};
ghost use Rattle.positions.specs.Step.{state};
ghost use Rattle.pair.specs.Pair.{outcome, pair_of};
ghost use Rattle.lent.specs.Lent.{merge_called, merge_of};

use pair::{Answer, Called};
use refusal::Refusal;
use stats::CorrectionStats;
use strategy::Strategies;

// Corrects two records where they stand, and adds to the lent counts where they stand. Refused, or
// without an overlap, both records and the counts are as they came.
pub fn call_lent(
    first: &mut [u8],
    second: &mut [u8],
    w: Strategies,
    stats: &mut CorrectionStats,
) -> Answer
    ensures { outcome result (state first.new second.new stats.new) ≡ pair_of w (state first.old second.old stats.old) }
{
    let called = pair::call(first, second, w, *stats);
    *stats = called.stats;
    called.answer
}

// The same with counts that begin at zero and are given back, for a caller that lends none.
pub fn call_anew(first: &mut [u8], second: &mut [u8], w: Strategies) -> Called
    ensures { outcome result.answer (state first.new second.new result.stats) ≡ pair_of w (state first.old second.old zeroed) }
{
    let mut stats = CorrectionStats::new();
    let answer = call_lent(first, second, w, &mut stats);
    Called { answer, stats }
}

// Begins the lent counts anew.
pub fn reset_lent(stats: &mut CorrectionStats)
    ensures { stats.new ≡ zeroed }
{
    *stats = CorrectionStats::new();
}

// Adds other counts to the lent ones. Where a sum passes the largest number all are as they were.
pub fn merge_lent(stats: &mut CorrectionStats, other: CorrectionStats) -> Result<(), Refusal>
    ensures { merge_called result stats.new ≡ merge_of stats.old other }
{
    *stats = stats.merge(other)?;
    Ok(())
}
