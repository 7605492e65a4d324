// The archive for a host program in C or Rust to link: the calls of crate overlap_c, exported under their own names.
// include/overlap.h declares them.
#![tactic(auto)]

ghost use Rattle.std.specs.Prelude.{◌≡◌};
ghost use Rattle.pair_code.specs.Call.{returned, call_of};
ghost use Rattle.pair_reason.specs.Reason.{reason_call_of};
ghost use Rattle.overlap_c.specs.FiledCall.{filed_returned, filed_call_of, trailer_returned, trailer_call_of};

// The pair call over two records, two strategy numbers, the cap and the four counts as 32 bytes. The header calls it
// `overlap_call`: its own name carries the version since which it takes these, so that no older host links it.
// Kept: each call once more under its own name, since C links an archive, and a library is none.
#[unsafe(no_mangle)]
pub extern "C" fn overlap_call_2(
    first: &mut [u8],
    second: &mut [u8],
    agreement: u32,
    disagreement: u32,
    cap: u32,
    counts: &mut [u8],
) -> u32
    ensures { returned result first.new second.new counts.new ≡ call_of first.old second.old agreement disagreement cap counts.old }
{
    overlap_c::overlap_call_2(first, second, agreement, disagreement, cap, counts)
}

// Why two records do not overlap, which are only read.
// Kept: as above.
#[unsafe(no_mangle)]
pub extern "C" fn overlap_reason_call(first: &[u8], second: &[u8]) -> u32
    ensures { result ≡ reason_call_of first.now second.now }
{
    overlap_c::overlap_reason_call(first, second)
}

// The call on a filed group, and the four counts as 32 bytes.
// Kept: as above.
#[unsafe(no_mangle)]
pub extern "C" fn overlap_filed_call(filed: &[u8], out: &mut [u8], counts: &mut [u8]) -> u32
    ensures { filed_returned result out.new counts.new ≡ filed_call_of filed.now out.old counts.old }
{
    overlap_c::overlap_filed_call(filed, out, counts)
}

// The raw trailer of framed records, made in the first 50 bytes of `trailer`.
// Kept: as above.
#[unsafe(no_mangle)]
pub extern "C" fn overlap_trailer_call(
    frames: &[u8],
    agreement: u32,
    disagreement: u32,
    trailer: &mut [u8],
) -> u32
    ensures { trailer_returned result trailer.new ≡ trailer_call_of frames.now agreement disagreement trailer.old }
{
    overlap_c::overlap_trailer_call(frames, agreement, disagreement, trailer)
}
