// The qualities of a stretch: positions in a row whose bases agree, treated 32 at a time.
#![tactic(auto)]

ghost use Rattle.std.specs.Prelude.{◌≡◌, true, ◌+◌, ◌-◌, ◌≤◌, length};
ghost use Rattle.std.proofs.lemmas.List.Edits.{sets};
ghost use Rattle.stretch_qualities.specs.Blocks.{BlockOf};
ghost use Rattle.stretch_qualities.specs.Stretched.{stretched, agreed_row};

use strategy::{AgreementStrategy, Strategies};

// What 32 pairs of qualities become, and in how many of them a quality changes.
#[derive(Clone, Copy)]
struct Block {
    qual1: [u8; 32],
    qual2: [u8; 32],
    corrected: u8,
}

// 32 zeros and 32 ones: the 32 from n on have a one for each of the last n lanes.
const LIVE: [[u8; 32]; 2] = [[0; 32], [1; 32]];

// The 32 qualities from p of the first record and from q of the second on, of which the last n are treated and the
// others stay. Where the block is WHOLE, n is 32, and no lane asks whether it is treated.
// Kept: t names one lane of four slices, where a zip would have pairs of pairs; and the clauses stand in three functions,
// each of which is this one, at one more step.
fn fill<const WHOLE: bool>(
    w: Strategies,
    first: &[u8],
    p: usize,
    second: &[u8],
    q: usize,
    n: usize,
) -> Block
    requires { (p + 32 ≤ length first.now) × (q + 32 ≤ length second.now) × (n ≤ 32) × (WHOLE ≡ true → n ≡ 32) }
    ensures { BlockOf w first.now p second.now q (32 - n) result }
{
    let live = LIVE.as_flattened();
    let mut qual1 = [0u8; 32];
    let mut qual2 = [0u8; 32];
    let mut corrected = 0;
    for t in 0..32 {
        let a = first[p + t];
        let b = second[q + t];
        let all = lane::agreed(w, a, b);
        let r = if WHOLE {
            all
        } else {
            lane::chosen(live[n + t], all, a, b)
        };
        qual1[t] = r.qual1;
        qual2[t] = r.qual2;
        corrected += lane::changed(a, b, r.qual1, r.qual2);
    }
    Block {
        qual1,
        qual2,
        corrected,
    }
}

// The same strategies with this one where bases agree.
fn agreeing(w: Strategies, m: AgreementStrategy) -> Strategies
    ensures { (result.agreement ≡ m) × (result.disagreement ≡ w.disagreement) × (result.cap ≡ w.cap) }
{
    Strategies { agreement: m, ..w }
}

// `fill`, by a call for each strategy, so that the compiler makes a loop for each and no loop asks which it is.
// Kept: the same call in each arm: a type for each strategy, with a trait and its law, says no more than three arms.
fn filled<const WHOLE: bool>(
    w: Strategies,
    first: &[u8],
    p: usize,
    second: &[u8],
    q: usize,
    n: usize,
) -> Block
    requires { (p + 32 ≤ length first.now) × (q + 32 ≤ length second.now) × (n ≤ 32) × (WHOLE ≡ true → n ≡ 32) }
    ensures { BlockOf w first.now p second.now q (32 - n) result }
{
    match w.agreement {
        AgreementStrategy::Consensus => {
            let k = agreeing(w, AgreementStrategy::Consensus);
            fill::<WHOLE>(k, first, p, second, q, n)
        }
        AgreementStrategy::MaxQual => {
            let k = agreeing(w, AgreementStrategy::MaxQual);
            fill::<WHOLE>(k, first, p, second, q, n)
        }
        AgreementStrategy::PassThrough => {
            let k = agreeing(w, AgreementStrategy::PassThrough);
            fill::<WHOLE>(k, first, p, second, q, n)
        }
    }
}

// 32 qualities, stored from `at` on.
// Kept: by a loop: `copy_from_slice` puts the array into memory first, 15 instructions more a block (with it, and a stepped
// loop in `stretch`, a row of 75 positions took 382 instructions and not 310).
fn store(s: &mut [u8], at: usize, v: [u8; 32])
    requires { at + 32 ≤ length s.old }
    ensures { s.new ≡ sets s.old at v }
{
    for t in 0..32 {
        s[at + t] = v[t];
    }
}

// The last n of the 32 positions whose qualities stand from p and q on, which agree; in how many a quality changed.
// What stands before them is read and stored as it was: a record ends where its qualities may, but has 32 bytes
// before them.
fn treat_block<const WHOLE: bool>(
    w: Strategies,
    first: &mut [u8],
    p: usize,
    second: &mut [u8],
    q: usize,
    n: usize,
) -> u64
    requires { (p + 32 ≤ length first.old) × (q + 32 ≤ length second.old) × (n ≤ 32) × (WHOLE ≡ true → n ≡ 32) }
    ensures { stretched first.new second.new result ≡ agreed_row w (p + (32 - n)) (q + (32 - n)) n (stretched first.old second.old 0) }
{
    let block = filled::<WHOLE>(w, first, p, second, q, n);
    store(first, p, block.qual1);
    store(second, q, block.qual2);
    u64::from(block.corrected)
}

// n positions that agree, their qualities from p of the first record and from q of the second on; in how many
// a quality changed.
pub fn treat(
    w: Strategies,
    first: &mut [u8],
    p: usize,
    second: &mut [u8],
    q: usize,
    n: usize,
) -> u64
    requires { (32 ≤ p) × (p + n ≤ length first.old) × (32 ≤ q) × (q + n ≤ length second.old) }
    ensures { (stretched first.new second.new result ≡ agreed_row w p q n (stretched first.old second.old 0)) × (result ≤ n) }
{
    let mut t = 0;
    let mut corrected: u64 = 0;
    // Kept: t is where the next block begins and, taken from n, what is left: a `for` has two names for that one place.
    while 32 <= n - t {
        corrected += treat_block::<true>(w, first, p + t, second, q + t, 32);
        t += 32;
    }
    if t < n {
        corrected += treat_block::<false>(w, first, p + n - 32, second, q + n - 32, n - t);
    }
    corrected
}
