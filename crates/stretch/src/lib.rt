// Stretches: at how many positions in a row two records agree, 16 packed bases compared as one word.
#![tactic(auto)]

ghost use Rattle.std.specs.Prelude.{◌+◌, ◌*◌, ◌<◌, ◌≤◌, min, length};
ghost use Rattle.fields.specs.Sound.{Lies};
ghost use Rattle.stretch.specs.Halves.{Holds, Marks, FirstByte, First, Stretch};
ghost use Rattle.stretch.specs.Alike.{Agreeing};

use fields::{Layout, ReadOffset};

// The 16 bases of s from a half of byte `at` on: the high half for 0, the low half for 1.
fn word(s: &[u8], at: usize, odd: usize) -> u64
    requires { (odd < 2) × (at + odd + 8 ≤ length s.now) }
    ensures { Holds s.now (2 * at + odd) result }
{
    if odd == 0 {
        fields::u64_at(s, at)
    } else {
        ((fields::u64_at(s, at) & 0x0f0f_0f0f_0f0f_0f0f) << 4)
            | ((fields::u64_at(s, at + 1) >> 4) & 0x0f0f_0f0f_0f0f_0f0f)
    }
}

// Not 0 in each half in which a and b differ or a is N.
fn unwell(a: u64, b: u64) -> u64
    ensures { Marks a b result }
{
    let t = a & (a >> 1);
    (a ^ b) | (t & (t >> 2) & 0x1111_1111_1111_1111)
}

// The first byte of x that is not 0.
fn first_byte(x: u64) -> usize
    requires { 0 < x }
    ensures { FirstByte x result }
{
    (u64::trailing_zeros(x) / 8) as usize
}

// The first half of x that is not 0.
fn first_marked(x: u64) -> usize
    ensures { First x result }
{
    if x == 0 {
        return 16;
    }
    let j = first_byte(x);
    if (x >> (8 * j + 4)) % 16 != 0 {
        2 * j
    } else {
        2 * j + 1
    }
}

// How many halves of a and b, from the first on, are the same base and not N.
fn first_unwell(a: u64, b: u64) -> usize
    ensures { Stretch a b result }
{
    first_marked(unwell(a, b))
}

// How many of n positions agree before the first that doesn't: from base i of the first record and base j of the
// second on, both bases are the same and not N.
// Kept: i, j and n by themselves, as docs/PROVED.md names this function with what it asks of each.
pub fn agreeing(
    first: &[u8],
    second: &[u8],
    y: Layout,
    z: Layout,
    i: ReadOffset,
    j: ReadOffset,
    n: usize,
) -> usize
    requires { Lies y (length first.now) × Lies z (length second.now) × (i.0 + n ≤ y.count) × (j.0 + n ≤ z.count) × (8 ≤ y.count) × (8 ≤ z.count) }
    ensures { Agreeing first.now second.now y z i.0 j.0 n result }
{
    let at1 = y.bases + i.0 / 2;
    let at2 = z.bases + j.0 / 2;
    let odd1 = i.0 % 2;
    let odd2 = j.0 % 2;
    for k in 0..n.div_ceil(16) {
        let t = 16 * k;
        let a = word(first, at1 + t / 2, odd1);
        let b = word(second, at2 + t / 2, odd2);
        let same = first_unwell(a, b);
        if same < 16 {
            return (t + same).min(n);
        }
    }
    n
}
