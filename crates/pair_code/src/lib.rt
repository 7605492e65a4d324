// The pair call as a host makes it: strategies and the cap by their numbers, counts as bytes, and one
// number for the answer.
#![tactic(auto)]

ghost use Rattle.std.specs.Prelude.{◌≡◌};
ghost use Rattle.pair_code.specs.Call.{returned, call_of};

use pair::Answer;
use refusal::Refusal;

// How many bytes the four counts take.
pub const COUNTS: usize = 32;

// The pair call over two records, two strategy numbers, the cap and the four counts as 32 bytes. It
// answers 0 for no overlap, 1 for overlap, else 1000 + 100 * place + number; it writes only for 1.
pub fn call(
    first: &mut [u8],
    second: &mut [u8],
    agreement: u32,
    disagreement: u32,
    cap: u32,
    counts: &mut [u8],
) -> u32
    ensures { returned result first.new second.new counts.new ≡ call_of first.old second.old agreement disagreement cap counts.old }
{
    if counts.len() != COUNTS {
        return Refusal::CountsSlice.code();
    }
    let w = match strategy::by_number(agreement, disagreement, cap) {
        Ok(strategies) => strategies,
        Err(refusal) => return refusal.code(),
    };
    let called = pair::call(first, second, w, stats::counts_at(counts, 0));
    if let Answer::Overlap = called.answer {
        stats::put_counts(counts, 0, called.stats);
    }
    called.answer.code()
}
