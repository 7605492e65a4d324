// Bases and qualities of a record, read and written where they stand.
#![tactic(auto)]

ghost use Rattle.std.specs.Prelude.{◌≡◌, ◌<◌, length};
ghost use Rattle.fields.specs.Sound.{Lies};
ghost use Rattle.bases.specs.Written.{with_base, with_seen, SeenAt};

use fields::{Layout, ReadOffset};

// The code of N, a base that was not called: the last of =ACMGRSVTWYHKDBN, whose codes are 0 to 15.
pub const N: u8 = 15;

// A base's code and its quality.
#[derive(Clone, Copy)]
pub struct Seen {
    pub base: u8,
    pub quality: u8,
}

// Base i and its quality.
// Kept: that the layout lies in the record, and the base in its read, is asked in clauses here and below: docs/PROVED.md
// names these functions with what they ask.
pub fn get(s: &[u8], y: Layout, i: ReadOffset) -> Seen
    requires { Lies y (length s.now) × (i.0 < y.count) }
    ensures { SeenAt s.now y i.0 result }
{
    let pair = s[y.bases + i.0 / 2];
    Seen {
        base: if i.0 % 2 == 0 { pair / 16 } else { pair % 16 },
        quality: s[y.qualities + i.0],
    }
}

// Base i becomes the code v. The other base of its byte stays.
pub fn set_base(s: &mut [u8], y: Layout, i: ReadOffset, v: u8)
    requires { Lies y (length s.old) × (i.0 < y.count) × (v < 16) }
    ensures { s.new ≡ with_base s.old y i.0 v }
{
    let at = y.bases + i.0 / 2;
    let pair = s[at];
    s[at] = if i.0 % 2 == 0 {
        v * 16 + pair % 16
    } else {
        pair / 16 * 16 + v
    };
}

// Base i becomes the code v with the quality q. Every other bit stays.
pub fn set(s: &mut [u8], y: Layout, i: ReadOffset, v: u8, q: u8)
    requires { Lies y (length s.old) × (i.0 < y.count) × (v < 16) }
    ensures { s.new ≡ with_seen s.old y i.0 v q }
{
    set_base(s, y, i, v);
    s[y.qualities + i.0] = q;
}
