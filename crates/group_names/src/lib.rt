// Names of records: digests to look them up by, and the comparison of their bytes.
#![tactic(auto)]

ghost use Rattle.std.specs.Prelude.{◌≡◌, ◌<◌};
ghost use Rattle.std.specs.List.{fold};
ghost use Rattle.group_names.specs.Same.{same_bytes};
ghost use Rattle.group_names.specs.Digest.{mix_of, spread, digest_of};

// The mix with one more number: turned by 37 bits, so that what was mixed before stands elsewhere.
fn mix(h: u64, n: u64) -> u64
    ensures { result ≡ mix_of h n }
{
    h.rotate_left(37) ^ n
}

// The digest of a mix: its halves, each times a number, so that all 64 bits move the middle ones.
fn spread_out(h: u64) -> u64
    ensures { (result ≡ spread h) × (result < 4611686018427387904) }
{
    h % 4294967296 * 365550057 + h / 4294967296 * 398046987
}

// The bytes of a name, mixed one at a time.
fn mix_bytes(x: &[u8]) -> u64
    ensures { result ≡ fold mix_of 0 x.now }
{
    x.iter().fold(0, |h, byte| mix(h, u64::from(*byte)))
}

// The digest of a name: of all its bytes, eight at a time, the last eight wherever they begin.
pub fn digest(x: &[u8]) -> u64
    ensures { (result ≡ digest_of x.now) × (result < 4611686018427387904) }
{
    let size = x.len();
    if size < 8 {
        return spread_out(mix_bytes(x));
    }
    let last = size - 8;
    let mut h: u64 = 0;
    for i in (0..last).step_by(8) {
        h = mix(h, fields::u64_at(x, i));
    }
    spread_out(mix(h, fields::u64_at(x, last)))
}

// Whether two names have the same bytes.
// Kept: public by this name, which docs/PROVED.md has; what it does is the library's `==`.
pub fn same(x: &[u8], y: &[u8]) -> bool
    ensures { result ≡ same_bytes x.now y.now }
{
    x == y
}
