// The four counts that a call adds to: how many shared positions were compared, and what became of
// them; and the same as 32 bytes within a slice.
#![tactic(auto)]

ghost use Rattle.std.specs.Prelude.{◌≡◌, ◌+◌, ◌≤◌, length};
ghost use Rattle.stats.specs.Counts.{zeroed, plus, full, sum_of, merged_of};
ghost use Rattle.stats.specs.Room.{Adds};
ghost use Rattle.stats.specs.Tally.{counts_at, with_counts};

use refusal::Refusal;

// Shared positions with two called bases; of these those that agree and those that disagree; and
// bases or qualities changed.
#[derive(Clone, Copy)]
pub struct CorrectionStats {
    pub overlapping: u64,
    pub agreeing: u64,
    pub disagreeing: u64,
    pub corrected: u64,
}

// The largest count that a call accepts: it leaves room for what any pair or group can add.
pub const LIMIT: u64 = 18446744073692774399;

// The sum of two counts, where it fits.
fn sum(a: u64, b: u64) -> Result<u64, Refusal>
    ensures { result ≡ sum_of a b }
{
    a.checked_add(b).ok_or(Refusal::Sum)
}

impl CorrectionStats {
    // Nothing counted yet.
    pub fn new() -> Self
        ensures { result ≡ zeroed }
    {
        CorrectionStats {
            overlapping: 0,
            agreeing: 0,
            disagreeing: 0,
            corrected: 0,
        }
    }

    // The counts begun anew.
    pub fn reset(self) -> Self
        ensures { result ≡ zeroed }
    {
        CorrectionStats::new()
    }

    // Whether some count is too large to be given to a call.
    pub fn full(self) -> bool
        ensures { result ≡ full self }
    {
        LIMIT < self.overlapping
            || LIMIT < self.agreeing
            || LIMIT < self.disagreeing
            || LIMIT < self.corrected
    }

    // Both counts added up, where each sum fits.
    pub fn plus(self, growth: CorrectionStats) -> Self
        requires { Adds self growth }
        ensures { result ≡ plus self growth }
    {
        CorrectionStats {
            overlapping: self.overlapping + growth.overlapping,
            agreeing: self.agreeing + growth.agreeing,
            disagreeing: self.disagreeing + growth.disagreeing,
            corrected: self.corrected + growth.corrected,
        }
    }

    // Two statistics as one. Refused where a sum passes the largest number.
    pub fn merge(self, other: CorrectionStats) -> Result<CorrectionStats, Refusal>
        ensures { result ≡ merged_of self other }
    {
        Ok(CorrectionStats {
            overlapping: sum(self.overlapping, other.overlapping)?,
            agreeing: sum(self.agreeing, other.agreeing)?,
            disagreeing: sum(self.disagreeing, other.disagreeing)?,
            corrected: sum(self.corrected, other.corrected)?,
        })
    }
}

// The four counts that stand from `at` on.
// Kept: four reads by their offsets, here and below: an array of counts gone over in step names no field, and isn't plainer.
pub fn counts_at(s: &[u8], at: usize) -> CorrectionStats
    requires { at + 32 ≤ length s.now }
    ensures { result ≡ counts_at s.now at }
{
    CorrectionStats {
        overlapping: fields::u64_at(s, at),
        agreeing: fields::u64_at(s, at + 8),
        disagreeing: fields::u64_at(s, at + 16),
        corrected: fields::u64_at(s, at + 24),
    }
}

// Stores the four counts from `at` on. All other bytes stay.
// Kept: 32 bytes from `at` on, as `counts_at` asks for them, which docs/PROVED.md names.
pub fn put_counts(s: &mut [u8], at: usize, g: CorrectionStats)
    requires { at + 32 ≤ length s.old }
    ensures { s.new ≡ with_counts s.old at g }
{
    fields::put_u64(s, at, g.overlapping);
    fields::put_u64(s, at + 8, g.agreeing);
    fields::put_u64(s, at + 16, g.disagreeing);
    fields::put_u64(s, at + 24, g.corrected);
}
