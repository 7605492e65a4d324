// The pair call: two records judged wholly, and only then corrected where they stand.
#![tactic(auto)]

ghost use Rattle.std.specs.Prelude.{◌≡◌};
ghost use Rattle.positions.specs.Step.{state};
ghost use Rattle.pair.specs.Pair.{outcome, untreated_answer, placed_of, capped_of, pair_of, answer_code};

use pair_judgement::{Placed, Reason, Untreated};
use refusal::Refusal;
use stats::CorrectionStats;
use strategy::Strategies;

// What a pair call answers: no overlap, for a reason; overlap; or a refusal. A refusal and "no overlap"
// change nothing.
// Kept: the refusal stands in the answer, which the paper names as the form of this call (docs/DECISIONS.md, Forms).
#[derive(Clone, Copy)]
pub enum Answer {
    NoOverlap(Reason),
    Overlap,
    Refused(Refusal),
}

// The answer, and the counts after the call.
// Kept: counts by value beside the answer, which the paper names as the form (docs/DECISIONS.md, Forms).
#[derive(Clone, Copy)]
pub struct Called {
    pub answer: Answer,
    pub stats: CorrectionStats,
}

impl Answer {
    // The number that an exported call answers.
    pub fn code(self) -> u32
        ensures { result ≡ answer_code self }
    {
        match self {
            Self::NoOverlap(_) => 0,
            Self::Overlap => 1,
            Self::Refused(r) => r.code(),
        }
    }
}

impl From<Untreated> for Answer {
    ghost from_gives = { λ u a. a ≡ untreated_answer u };

    fn from(untreated: Untreated) -> Answer {
        match untreated {
            Untreated::Refused(refusal) => Answer::Refused(refusal),
            Untreated::Apart(reason) => Answer::NoOverlap(reason),
        }
    }
}

// Two records judged by their bytes alone, each checked first: where both lie on one reference, or why
// they are not treated. A part of each caller, as the pair call takes fewer instructions so.
#[inline(always)]
pub fn judged(first: &[u8], second: &[u8]) -> Result<(Placed, Placed), Untreated>
    ensures { result ≡ placed_of first.now second.now }
{
    let y = fields::check_record(first, 1)?;
    let z = fields::check_record(second, 2)?;
    let (p, q) = pair_judgement::judge(first, second, y, z, 1, 2)?;
    let a = Placed {
        layout: y,
        extent: p,
    };
    let b = Placed {
        layout: z,
        extent: q,
    };
    Ok((a, b))
}

// The call with a cap that is one: the order of judgement from the statistics on.
fn call_capped(first: &mut [u8], second: &mut [u8], w: Strategies, stats: CorrectionStats) -> Called
    ensures { outcome result.answer (state first.new second.new result.stats) ≡ capped_of w (state first.old second.old stats) }
{
    if stats.full() {
        return Called {
            answer: Answer::Refused(Refusal::Count),
            stats,
        };
    }
    let (a, b) = match judged(first, second) {
        Ok(placed) => placed,
        Err(untreated) => {
            return Called {
                answer: Answer::from(untreated),
                stats,
            };
        }
    };
    let met = pair_judgement::treat(w, first, second, a, b, stats);
    let answer = if met.shared == 0 {
        Answer::NoOverlap(pair_judgement::unshared(a.extent, b.extent))
    } else {
        Answer::Overlap
    };
    Called {
        answer,
        stats: met.stats,
    }
}

// Corrects two records where they stand, and adds to the counts: the cap first, and then the order of
// judgement. Refused, or without an overlap, both records and the counts are as they came. The rest is a
// function of its own: in one with the test the compiler would take what follows for seldom run.
pub fn call(first: &mut [u8], second: &mut [u8], w: Strategies, stats: CorrectionStats) -> Called
    ensures { outcome result.answer (state first.new second.new result.stats) ≡ pair_of w (state first.old second.old stats) }
{
    if w.cap_outside() {
        return Called {
            answer: Answer::Refused(Refusal::Cap),
            stats,
        };
    }
    call_capped(first, second, w, stats)
}
