// A group's frames filed: the raw trailer that goes behind them.
#![tactic(auto)]

ghost use Rattle.std.specs.Prelude.{◌≡◌};
ghost use Rattle.filed_raw.specs.Filing.{filing, file_of};

use refusal::Refusal;

// Makes the raw trailer of these frames in the first 50 bytes of `out`, for a correction by the
// strategies of these numbers. All other bytes stay.
pub fn file(
    frames: &[u8],
    agreement: u32,
    disagreement: u32,
    out: &mut [u8],
) -> Result<usize, Refusal>
    ensures { filing result out.new ≡ file_of agreement disagreement frames.now out.old }
{
    strategy::by_number(agreement, disagreement, u32::from(strategy::FULL_CAP))?;
    // Kept: a table of fixed length, since no memory is taken for a group.
    let mut begins = [0usize; 257];
    let n = group_frames::cut(frames, &mut begins)?;
    if out.len() < filed_trailer::SIZE {
        return Err(Refusal::OutputShort);
    }
    let strategies = filed_trailer::joined(agreement, disagreement);
    filed_trailer::raw(out, strategies, n as u32, frames.len() as u64);
    Ok(n)
}
