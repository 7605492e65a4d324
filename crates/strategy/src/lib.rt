// What a shared position becomes: two bases and their qualities, treated by the two strategies and the cap.
#![tactic(auto)]

ghost use Rattle.std.specs.Prelude.{◌≡◌, ◌+◌, ◌<◌, min, max};
ghost use Rattle.stats.specs.Counts.{zeroed};
ghost use Rattle.strategy.specs.Rule.{out, agreed_to, agreed, differed_to, differed, treated};
ghost use Rattle.strategy.specs.Cap.{cap_outside, most_of};
ghost use Rattle.strategy.specs.Number.{named, agreement_of, disagreement_of, numbered_of};

use bases::N;
use refusal::Refusal;
use stats::CorrectionStats;
use std::cmp::Ordering;

// What to do where both bases agree: add the qualities, take the larger, or leave both.
#[derive(Clone, Copy)]
pub enum AgreementStrategy {
    Consensus,
    MaxQual,
    PassThrough,
}

// What to do where they disagree: call the better base, mask both, or mask the lower.
#[derive(Clone, Copy)]
pub enum DisagreementStrategy {
    Consensus,
    MaskBoth,
    MaskLowerQual,
}

// The two strategies of a call, and the cap: the most that two qualities add up to where bases agree
// under Consensus.
#[derive(Clone, Copy)]
pub struct Strategies {
    pub agreement: AgreementStrategy,
    pub disagreement: DisagreementStrategy,
    pub cap: u8,
}

// Both bases with their qualities after the treatment, and by how much each count grows.
#[derive(Clone, Copy)]
pub struct Treated {
    pub base1: u8,
    pub qual1: u8,
    pub base2: u8,
    pub qual2: u8,
    pub growth: CorrectionStats,
}

// The least cap: the quality of a masked base.
pub const LEAST_CAP: u8 = 2;

// The largest cap: the end of the scale of printed qualities.
pub const FULL_CAP: u8 = 93;

impl Strategies {
    // Whether the cap is none: not 2 to 93.
    pub fn cap_outside(self) -> bool
        ensures { result ≡ cap_outside self.cap }
    {
        self.cap < LEAST_CAP || FULL_CAP < self.cap
    }

    // The most that agreement makes of a quality: the cap under Consensus, and any under the others.
    pub fn most(self) -> u8
        ensures { result ≡ most_of self.agreement self.cap }
    {
        match self.agreement {
            AgreementStrategy::Consensus => self.cap,
            AgreementStrategy::MaxQual | AgreementStrategy::PassThrough => u8::MAX,
        }
    }

    // The smaller of the sum and the cap, added where it cannot wrap.
    fn capped_sum(self, a: u8, b: u8) -> u8
        ensures { result ≡ min (a + b) self.cap }
    {
        a.saturating_add(b).min(self.cap)
    }
}

// Both qualities as p and q: one count is corrected if either is new.
fn requalified(x: u8, a: u8, b: u8, p: u8, q: u8) -> Treated
    ensures { result ≡ agreed_to x a b p q }
{
    let stays = a == p && b == q;
    Treated {
        base1: x,
        qual1: p,
        base2: x,
        qual2: q,
        growth: CorrectionStats {
            overlapping: 1,
            agreeing: 1,
            disagreeing: 0,
            corrected: u64::from(!stays),
        },
    }
}

// Two equal called bases x, of qualities a and b. The cap binds Consensus alone.
// Kept: the paper's rule as it is read; `lane::agreed` has it without a branch for the loops, and `agreed_rule` says that
// they are one.
fn process_agreement(w: Strategies, x: u8, a: u8, b: u8) -> Treated
    ensures { result ≡ agreed w x a b }
{
    match w.agreement {
        AgreementStrategy::Consensus => {
            let q = w.capped_sum(a, b);
            requalified(x, a, b, q, q)
        }
        AgreementStrategy::MaxQual => {
            let q = a.max(b);
            requalified(x, a, b, q, q)
        }
        AgreementStrategy::PassThrough => requalified(x, a, b, a, b),
    }
}

// Both bases and qualities as given, and how many bases were corrected.
fn disagreement(x: u8, a: u8, y: u8, b: u8, corrected: u64) -> Treated
    ensures { result ≡ differed_to x a y b corrected }
{
    Treated {
        base1: x,
        qual1: a,
        base2: y,
        qual2: b,
        growth: CorrectionStats {
            overlapping: 1,
            agreeing: 0,
            disagreeing: 1,
            corrected,
        },
    }
}

// Two called bases that differ: x of quality a, and y of quality b.
fn process_disagreement(k: DisagreementStrategy, x: u8, a: u8, y: u8, b: u8) -> Treated
    ensures { result ≡ differed k x a y b }
{
    match (k, a.cmp(&b)) {
        (DisagreementStrategy::MaskBoth, _) | (_, Ordering::Equal) => disagreement(N, 2, N, 2, 2),
        (DisagreementStrategy::Consensus, Ordering::Less) => {
            let q = (b - a).max(2);
            disagreement(y, q, y, q, 2)
        }
        (DisagreementStrategy::Consensus, Ordering::Greater) => {
            let q = (a - b).max(2);
            disagreement(x, q, x, q, 2)
        }
        (DisagreementStrategy::MaskLowerQual, Ordering::Less) => disagreement(N, 2, y, b, 1),
        (DisagreementStrategy::MaskLowerQual, Ordering::Greater) => disagreement(x, a, N, 2, 1),
    }
}

// What a shared position becomes: base code x with quality a in the first record, and y with b in
// the second. No strategy touches an N.
pub fn treat(w: Strategies, x: u8, a: u8, y: u8, b: u8) -> Treated
    ensures { result ≡ treated w x a y b }
{
    if x == N || y == N {
        return untouched(x, a, y, b);
    }
    if x == y {
        return process_agreement(w, x, a, b);
    }
    process_disagreement(w.disagreement, x, a, y, b)
}

// A pair with an N: it stays, and nothing is counted.
fn untouched(x: u8, a: u8, y: u8, b: u8) -> Treated
    ensures { result ≡ out x a y b zeroed }
{
    Treated {
        base1: x,
        qual1: a,
        base2: y,
        qual2: b,
        growth: CorrectionStats::new(),
    }
}

// 0 is Consensus, 1 MaxQual, 2 PassThrough; no other number stands for a strategy.
impl TryFrom<u32> for AgreementStrategy {
    type Error = Refusal;

    // What the number stands for, or refusal 10.
    ghost try_from_gives = { λ n r. r ≡ named (agreement_of n) };

    fn try_from(number: u32) -> Result<Self, Refusal> {
        match number {
            0 => Ok(AgreementStrategy::Consensus),
            1 => Ok(AgreementStrategy::MaxQual),
            2 => Ok(AgreementStrategy::PassThrough),
            _ => Err(Refusal::Strategy),
        }
    }
}

// 0 is Consensus, 1 MaskBoth, 2 MaskLowerQual; no other number stands for a strategy.
impl TryFrom<u32> for DisagreementStrategy {
    type Error = Refusal;

    // What the number stands for, or refusal 10.
    ghost try_from_gives = { λ n r. r ≡ named (disagreement_of n) };

    // Kept: beside the one of AgreementStrategy: each is the table of its own enum.
    fn try_from(number: u32) -> Result<Self, Refusal> {
        match number {
            0 => Ok(DisagreementStrategy::Consensus),
            1 => Ok(DisagreementStrategy::MaskBoth),
            2 => Ok(DisagreementStrategy::MaskLowerQual),
            _ => Err(Refusal::Strategy),
        }
    }
}

// The strategies that two numbers stand for, with the cap. Refused where either is not 0 to 2; then where
// the cap is not 2 to 93.
pub fn by_number(agreement: u32, disagreement: u32, cap: u32) -> Result<Strategies, Refusal>
    ensures { result ≡ numbered_of agreement disagreement cap }
{
    let agreement = AgreementStrategy::try_from(agreement)?;
    let disagreement = DisagreementStrategy::try_from(disagreement)?;
    if cap < u32::from(LEAST_CAP) {
        return Err(Refusal::Cap);
    }
    if u32::from(FULL_CAP) < cap {
        return Err(Refusal::Cap);
    }
    Ok(Strategies {
        agreement,
        disagreement,
        cap: cap as u8,
    })
}
