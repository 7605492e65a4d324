// The calls for a host program in C or Rust to link. include/overlap.h declares them. In a library `no_mangle` exports
// nothing: crate overlap_c_c does, under the same names.
#![tactic(auto)]

ghost use Rattle.std.specs.Prelude.{◌≡◌};
ghost use Rattle.pair_code.specs.Call.{returned, call_of};
ghost use Rattle.pair_reason.specs.Reason.{reason_call_of};
ghost use Rattle.overlap_c.specs.FiledCall.{filed_returned, filed_call_of, trailer_returned, trailer_call_of};

use filed::FiledAnswer;
use pair_code::COUNTS;
use refusal::Refusal;

// The pair call over two records, two strategy numbers, the cap and the four counts as 32 bytes. It answers
// 0 for no overlap, 1 for overlap, else 1000 + 100 * place + number; it writes only for 1. The header calls it
// `overlap_call`: its own name carries the version since which it takes these, so that no older host links it.
// Kept: the clause of `pair_code::call`, since C calls this by its own name; crate overlap_c_c has it once more.
#[unsafe(no_mangle)]
pub extern "C" fn overlap_call_2(
    first: &mut [u8],
    second: &mut [u8],
    agreement: u32,
    disagreement: u32,
    cap: u32,
    counts: &mut [u8],
) -> u32
    ensures { returned result first.new second.new counts.new ≡ call_of first.old second.old agreement disagreement cap counts.old }
{
    pair_code::call(first, second, agreement, disagreement, cap, counts)
}

// Why two records do not overlap, which are only read. It answers 0 where they overlap, 1 to 5 for the
// reason, else 1000 + 100 * place + number, with 10,000 times the index of an operation of unknown code.
// Kept: as above, of `pair_reason::call`.
#[unsafe(no_mangle)]
pub extern "C" fn overlap_reason_call(first: &[u8], second: &[u8]) -> u32
    ensures { result ≡ reason_call_of first.now second.now }
{
    pair_reason::call(first, second)
}

// The call on a filed group, and the four counts as 32 bytes. It answers 0 where the group was corrected
// into `out`, 1 where it had been corrected before, else 1000 + 100 * place + number; it writes only for 0.
#[unsafe(no_mangle)]
pub extern "C" fn overlap_filed_call(filed: &[u8], out: &mut [u8], counts: &mut [u8]) -> u32
    ensures { filed_returned result out.new counts.new ≡ filed_call_of filed.now out.old counts.old }
{
    if counts.len() != COUNTS {
        return Refusal::CountsSlice.code();
    }
    let called = filed::correct(filed, out, stats::counts_at(counts, 0));
    match called.answer {
        FiledAnswer::Corrected { .. } => {
            stats::put_counts(counts, 0, called.stats);
            0
        }
        FiledAnswer::AlreadyDone { .. } => 1,
        FiledAnswer::Refused(refusal) => refusal.code(),
    }
}

// The raw trailer of framed records, made in the first 50 bytes of `trailer` for the strategies of these
// numbers. It answers 0, else 1000 + 100 * place + number; it writes only for 0.
#[unsafe(no_mangle)]
pub extern "C" fn overlap_trailer_call(
    frames: &[u8],
    agreement: u32,
    disagreement: u32,
    trailer: &mut [u8],
) -> u32
    ensures { trailer_returned result trailer.new ≡ trailer_call_of frames.now agreement disagreement trailer.old }
{
    match filed_raw::file(frames, agreement, disagreement, trailer) {
        Ok(_) => 0,
        Err(refusal) => refusal.code(),
    }
}
