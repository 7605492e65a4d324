// All that the program `overlap_filed` writes, made from all that it reads: the line and the filed group,
// each in a room of its own.
#![tactic(auto)]

ghost use Rattle.std.specs.Prelude.{◌≤◌, length, take};
ghost use Rattle.line_filed.specs.Told.{Told};

use filed::FiledAnswer;
use line_text::{MOST, Written};
use refusal::Refusal;
use stats::CorrectionStats;

// What the program writes for this input: the line stands at the start of `out`, a group that is
// corrected at the start of `filed`.
fn answer(input: &[u8], filed: &mut [u8], out: &mut [u8]) -> Written
    requires { (256 ≤ length out.old) × (65536 ≤ length filed.old) }
    ensures { Told input.now filed.old filed.new out.old out.new result.line result.group }
{
    let n = input.len();
    if MOST < n {
        return Written::refused(out, Refusal::Input);
    }
    match filed::correct(input, filed, CorrectionStats::new()).answer {
        FiledAnswer::Refused(r) => Written::refused(out, r),
        FiledAnswer::AlreadyDone { records, growth } => {
            let line = line_text::put_already(out, records, growth);
            Written { line, group: 0 }
        }
        FiledAnswer::Corrected {
            records,
            pairs,
            overlapping,
            growth,
        } => {
            let line = line_text::put_done(out, records, pairs, overlapping, growth);
            Written { line, group: n }
        }
    }
}

// What the program writes for the first n bytes of `input`, or for all where there are fewer. The line is
// put at the start of `out`, a group that is corrected at the start of `filed`; no other byte changes.
// Kept: the sizes stand beside the rooms: `Told` and `one_outcome` speak of them and of both rooms after the call.
pub fn overlap_filed(
    input: &[u8],
    n: usize,
    filed: &mut [u8; 65536],
    out: &mut [u8; 256],
) -> Written
    ensures { Told (take n input.now) filed.old filed.new out.old out.new result.line result.group }
{
    answer(line_text::part(input, 0, n), filed, out)
}
