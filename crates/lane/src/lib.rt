// One lane of a block: what becomes of the two qualities of a position whose bases agree. Every answer is
// chosen by value, so that a loop over lanes has no branch and is done many lanes at a time.
#![tactic(auto)]

ghost use Rattle.std.specs.Prelude.{◌≡◌};
ghost use Rattle.stats.specs.Counts.{counts};
ghost use Rattle.lane.specs.LaneRule.{chosen, changed_of, agreed_of, chosen_of};

use stats::CorrectionStats;
use strategy::{AgreementStrategy, Strategies};

// The qualities of two bases that agree.
#[derive(Clone, Copy)]
pub struct Qualities {
    pub qual1: u8,
    pub qual2: u8,
}

// What the qualities a and b become where the bases agree.
pub fn agreed(w: Strategies, a: u8, b: u8) -> Qualities
    ensures { result ≡ agreed_of w a b }
{
    let most = w.most();
    match w.agreement {
        AgreementStrategy::Consensus => {
            let q = a.saturating_add(b).min(most);
            Qualities { qual1: q, qual2: q }
        }
        AgreementStrategy::MaxQual => {
            let q = a.max(b).min(most);
            Qualities { qual1: q, qual2: q }
        }
        AgreementStrategy::PassThrough => Qualities { qual1: a, qual2: b },
    }
}

// 1 if the quality a becomes another one, or b does.
pub fn changed(a: u8, b: u8, p: u8, q: u8) -> u8
    ensures { result ≡ changed_of a b p q }
{
    u8::from(a != p || b != q)
}

// The counts of so many agreements, of which so many changed a quality.
pub fn agreements(agreeing: u64, corrected: u64) -> CorrectionStats
    ensures { result ≡ counts agreeing agreeing 0 corrected }
{
    CorrectionStats {
        overlapping: agreeing,
        agreeing,
        disagreeing: 0,
        corrected,
    }
}

// q, or p where e is 0.
fn choose(e: u8, q: u8, p: u8) -> u8
    ensures { result ≡ chosen e q p }
{
    if e == 0 { p } else { q }
}

// The qualities r, or a and b where e is 0.
pub fn chosen(e: u8, r: Qualities, a: u8, b: u8) -> Qualities
    ensures { result ≡ chosen_of e r a b }
{
    Qualities {
        qual1: choose(e, r.qual1, a),
        qual2: choose(e, r.qual2, b),
    }
}
