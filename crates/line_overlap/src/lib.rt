// All that the program `overlap` writes, made from all that it reads: the line in a room of its own,
// and the group where it was read.
#![tactic(auto)]

ghost use Rattle.std.specs.Prelude.{◌≡◌, ◌≤◌, length, take};
ghost use Rattle.line_overlap.specs.Overlap.{number_at};
ghost use Rattle.line_overlap.specs.Told.{Told};

use group::GroupAnswer;
use line_text::{MOST, Written};
use refusal::Refusal;
use stats::CorrectionStats;

// Stands for a digit that is missing; it names no strategy.
// Kept: a number for none, as the definition `number_at` has it, and as the group call takes numbers.
const NO_STRATEGY: u32 = 3;

// The number that the digit at byte k stands for; one that names no strategy where there is none.
fn number_at(s: &[u8], k: usize) -> u32
    ensures { result ≡ number_at s.now k }
{
    match s.get(k) {
        Some(&digit) if b'0' <= digit => u32::from(digit - b'0'),
        _ => NO_STRATEGY,
    }
}

// What the program writes for this input: the line stands at the start of `out`, the group in its
// place, from byte 2 of the input on.
fn answer(input: &mut [u8], out: &mut [u8]) -> Written
    requires { 256 ≤ length out.old }
    ensures { Told input.old input.old input.new out.old out.new result.line result.group }
{
    let n = input.len();
    if MOST < n {
        return Written::refused(out, Refusal::Input);
    }
    if n < 2 {
        return Written::refused(out, Refusal::Strategy);
    }
    let agreement = number_at(input, 0);
    let disagreement = number_at(input, 1);
    let grouped = group::group(
        &mut input[2..],
        agreement,
        disagreement,
        u32::from(strategy::FULL_CAP),
        CorrectionStats::new(),
    );
    match grouped.answer {
        GroupAnswer::Refused(r) => Written::refused(out, r),
        GroupAnswer::Done {
            records,
            pairs,
            overlapping,
        } => {
            let line = line_text::put_done(out, records, pairs, overlapping, grouped.stats);
            let group = n - 2;
            Written { line, group }
        }
    }
}

// What the program writes for the first n bytes of `input`, or for all where there are fewer. The
// line is put at the start of `out`, an accepted group is corrected in `input`; no other byte changes.
// Kept: the sizes stand beside the rooms: `Told` and `one_outcome` speak of them and of both rooms after the call.
pub fn overlap(input: &mut [u8], n: usize, out: &mut [u8; 256]) -> Written
    ensures { Told (take n input.old) input.old input.new out.old out.new result.line result.group }
{
    let end = n.min(input.len());
    answer(&mut input[..end], out)
}
