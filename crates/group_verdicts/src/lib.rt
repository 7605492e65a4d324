// The pairs of a group judged, each from the bytes given, before any is written.
#![tactic(auto)]

ghost use Rattle.std.specs.Prelude.{◌≡◌, ◌<◌};
ghost use Rattle.fields.specs.Layout.{layout_of};
ghost use Rattle.fields.specs.Sound.{Sound};
ghost use Rattle.group_frames.specs.Table.{Tabled};
ghost use Rattle.group_mates.specs.Register.{pairs_of};
ghost use Rattle.group_mates.specs.Table.{Mated};
ghost use Rattle.group_verdicts.specs.Indexed.{indexed_of, indexed_at};
ghost use Rattle.group_verdicts.specs.Judged.{judge_by};

use group_frames::Frames;
use refusal::Refusal;

// Two sound records judged as a pair, the first's span first; a refusal names the index of the record at fault.
fn judge_pair(first: &[u8], second: &[u8], i: u16, j: u16) -> Result<(), Refusal>
    requires { Sound first.now (layout_of first.now) × Sound second.now (layout_of second.now) }
    ensures { result ≡ indexed_of first.now second.now i j }
{
    let Ok((p, q)) = pair_judgement::locate(first, second) else {
        return Ok(());
    };
    let y = fields::layout_of(first);
    let z = fields::layout_of(second);
    pair_judgement::span_of(first, y, p, i)?;
    pair_judgement::span_of(second, z, q, j)?;
    Ok(())
}

// Records i and j of a group judged as a pair.
fn judge_at(frames: Frames, i: usize, j: usize) -> Result<(), Refusal>
    requires { Tabled frames × (i < frames.count) × (j < frames.count) }
    ensures { result ≡ indexed_at frames.entry.bytes.now i j }
{
    let first = frames.record(i);
    let second = frames.record(j);
    judge_pair(first, second, i as u16, j as u16)
}

// Every pair judged, in order of the first's index.
// Kept: `mate` is a table of fixed length, as `group_mates::find` fills it.
pub fn judge_all(frames: Frames, mate: &[usize]) -> Result<(), Refusal>
    requires { Tabled frames × Mated frames.bytes.now mate.now frames.count }
    ensures { result ≡ judge_by (indexed_at frames.entry.bytes.now) (pairs_of frames.entry.bytes.now frames.entry.count) }
{
    for (i, m) in mate[..frames.count].iter().enumerate() {
        if let Some(j) = m.checked_sub(1) {
            judge_at(frames, i, j)?;
        }
    }
    Ok(())
}
