// Two sound records judged by the order of judgement, steps 4 to 7, with the reason where they lie apart,
// and treated where they share positions.
#![tactic(auto)]

ghost use Rattle.std.specs.Prelude.{◌≡◌, ◌≤◌, ltb, length};
ghost use Rattle.fields.specs.Sound.{Sound};
ghost use Rattle.stats.specs.Room.{Room};
ghost use Rattle.positions.specs.Step.{state, job};
ghost use Rattle.pair_merge.specs.Shared.{shared};
ghost use Rattle.pair_judgement.specs.Reason.{reason_number, unshared_of};
ghost use Rattle.pair_judgement.specs.Judgement.{span_in, judged_of};
ghost use Rattle.pair_judgement.specs.Ready.{Ready, TreatedTo, Cleared, TreatedAt};
ghost use Rattle.pair_judgement.specs.Where.{where_of};
ghost use Rattle.pair_judgement.specs.declared.Untreated.TheVariants.{Refused, Apart};

use cigar::Extent;
use fields::{Layout, RefPos};
use pair_merge::Met;
use positions::Job;
use refusal::Refusal;
use stats::CorrectionStats;
use strategy::Strategies;

// Why two records do not overlap, in the order in which it is asked, by number: one is unmapped; their
// reference ids differ; a position is negative; an alignment uses nothing of the reference; no position is
// shared.
#[derive(Clone, Copy)]
pub enum Reason {
    Unmapped = 1,
    ReferencesDiffer = 2,
    NegativePosition = 3,
    NoReferenceLength = 4,
    NoSharedPosition = 5,
}

// Why two records are not treated: one is refused, or they are apart for a reason.
#[derive(Clone, Copy)]
pub enum Untreated {
    Refused(Refusal),
    Apart(Reason),
}

impl Reason {
    // Its number, from 1 to 5.
    pub fn number(self) -> u32
        ensures { result ≡ reason_number self }
    {
        self as u32
    }
}

impl From<Reason> for Untreated {
    ghost from_gives = { λ r u. u ≡ Apart r };

    fn from(reason: Reason) -> Untreated {
        Untreated::Apart(reason)
    }
}

impl From<Refusal> for Untreated {
    ghost from_gives = { λ r u. u ≡ Refused r };

    fn from(refusal: Refusal) -> Untreated {
        Untreated::Refused(refusal)
    }
}

// Steps 4 to 6 of the order of judgement, with the reason, from the headers alone.
pub fn locate(first: &[u8], second: &[u8]) -> Result<(u32, u32), Reason>
    requires { (32 ≤ length first.now) × (32 ≤ length second.now) }
    ensures { result ≡ where_of first.now second.now }
{
    if fields::flags_of(first).unmapped() || fields::flags_of(second).unmapped() {
        return Err(Reason::Unmapped);
    }
    if !fields::same_reference(first, second) {
        return Err(Reason::ReferencesDiffer);
    }
    let (Some(pos1), Some(pos2)) = (fields::start_of(first), fields::start_of(second)) else {
        return Err(Reason::NegativePosition);
    };
    Ok((pos1, pos2))
}

// What the alignment of a sound record covers: its operations judged, then its end. The pair call takes a
// tenth more instructions for records apart where it, or `judge`, isn't a part of the caller.
#[tactic(auto, unfolding(crate::specs::Judgement::span_in))]
#[inline(always)]
pub fn span_of(s: &[u8], y: Layout, pos: u32, place: u16) -> Result<Extent, Refusal>
    requires { Sound s.now y }
    ensures { result ≡ span_in y s.now pos place }
{
    let uses = cigar::check_operations(s, y, place)?;
    cigar::check_span(pos, uses, place)
}

// Why two records on one reference that cover these positions share none: an alignment that covers no
// position uses nothing of the reference.
pub fn unshared(p: Extent, q: Extent) -> Reason
    ensures { result ≡ unshared_of p q }
{
    if p.start.0 == p.end.0 || q.start.0 == q.end.0 {
        return Reason::NoReferenceLength;
    }
    Reason::NoSharedPosition
}

// Two sound records judged by steps 4 to 7, from their bytes alone; a refusal names the place given.
#[inline(always)]
pub fn judge(
    first: &[u8],
    second: &[u8],
    y: Layout,
    z: Layout,
    place1: u16,
    place2: u16,
) -> Result<(Extent, Extent), Untreated>
    requires { Sound first.now y × Sound second.now z }
    ensures { result ≡ judged_of y z first.now second.now place1 place2 }
{
    let (pos1, pos2) = locate(first, second)?;
    let extent1 = span_of(first, y, pos1, place1)?;
    let extent2 = span_of(second, z, pos2, place2)?;
    Ok((extent1, extent2))
}

// A sound record that was judged to be on a reference: where its parts lie, and the positions that it
// covers.
#[derive(Clone, Copy)]
pub struct Placed {
    pub layout: Layout,
    pub extent: Extent,
}

// The shared positions of two records that were judged to be on one reference, treated. There are
// none where a record has no base, or where one ends before the other begins. The job is made behind
// these tests: the merge has it in memory, and records apart need not store it.
pub fn treat(
    w: Strategies,
    first: &mut [u8],
    second: &mut [u8],
    a: Placed,
    b: Placed,
    g: CorrectionStats,
) -> Met
    requires { Ready a.layout b.layout a.extent b.extent first.old second.old × Room g 131072 }
    ensures { TreatedTo (job w a.layout b.layout) a.extent.start b.extent.start (state first.old second.old g) (state first.new second.new result.stats) result.shared }
{
    let (y, z) = (a.layout, b.layout);
    let (p, q) = (a.extent, b.extent);
    if y.count == 0 || z.count == 0 || p.end.0 <= q.start.0 || q.end.0 <= p.start.0 {
        return Met {
            shared: 0,
            stats: g,
        };
    }
    let job = Job {
        strategies: w,
        first: y,
        second: z,
    };
    pair_merge::merge(job, first, second, p.start, q.start, g)
}

// Whether two records that were judged to be on one reference share a position. It only reads them.
pub fn share(first: &[u8], second: &[u8], a: Placed, b: Placed) -> bool
    requires { Ready a.layout b.layout a.extent b.extent first.now second.now }
    ensures { result ≡ ltb 0 (length (shared a.layout b.layout a.extent.start b.extent.start first.now second.now)) }
{
    if a.layout.count == 0 || b.layout.count == 0 {
        return false;
    }
    pair_merge::meet(
        first,
        second,
        a.layout,
        b.layout,
        a.extent.start,
        b.extent.start,
    )
}

// Two records that were judged and not refused, treated where they stand and not judged again: from
// their headers and the operations that a shared position needs.
pub fn treat_judged(w: Strategies, first: &mut [u8], second: &mut [u8], g: CorrectionStats) -> Met
    requires { Cleared first.old second.old × Room g 131072 }
    ensures { TreatedAt (where_of first.old second.old) w (state first.old second.old g) (state first.new second.new result.stats) result.shared }
{
    let none = Met {
        shared: 0,
        stats: g,
    };
    let Ok((pos1, pos2)) = locate(first, second) else {
        return none;
    };
    let y = fields::layout_of(first);
    let z = fields::layout_of(second);
    if y.count == 0 || z.count == 0 {
        return none;
    }
    let job = Job {
        strategies: w,
        first: y,
        second: z,
    };
    let start1 = RefPos(pos1 as usize + 1);
    let start2 = RefPos(pos2 as usize + 1);
    pair_merge::merge(job, first, second, start1, start2, g)
}
