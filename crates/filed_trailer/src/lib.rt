// The 50 bytes that end a filed group: four zero bytes where a size would stand, the state, the
// strategies, the record count, the growth of the four counts, and the distance back to the frames.
#![tactic(auto)]

ghost use Rattle.std.specs.Prelude.{◌≡◌, ◌+◌, ◌*◌, ◌/◌, ◌%◌, ◌≤◌, length};
ghost use Rattle.stats.specs.Counts.{above};
ghost use Rattle.filed_trailer.specs.Trailer.{Names, state_byte, trailer_at, wrong, stamped, raw_in};

use stats::CorrectionStats;

// How many bytes a trailer has.
pub const SIZE: usize = 50;

// What a trailer says of its group.
#[derive(Clone, Copy, PartialEq, Eq)]
pub enum State {
    Raw,
    Corrected,
}

// A byte that names no state.
#[derive(Clone, Copy, PartialEq, Eq)]
pub struct UnknownState(pub u8);

impl TryFrom<u8> for State {
    type Error = UnknownState;

    ghost try_from_gives = { Names };

    fn try_from(byte: u8) -> Result<Self, UnknownState> {
        match byte {
            0 => Ok(State::Raw),
            1 => Ok(State::Corrected),
            _ => Err(UnknownState(byte)),
        }
    }
}

impl From<State> for u8 {
    ghost from_gives = { λ state byte. byte ≡ state_byte state };

    fn from(state: State) -> u8 {
        match state {
            State::Raw => 0,
            State::Corrected => 1,
        }
    }
}

// The fields as they stand; the strategies are one number of two. The distance is from the trailer's
// start back to the first frame.
// Kept: `state` is the byte, which `State::try_from` reads: `read` can't fail on a byte that names no state, and
// `wrong_parts`, `stamped_reads`, `made_fits`, `MarkedDone` and `MarkedRaw` say what the byte is. `strategies` is one
// byte of the format too, which `joined` makes and `numbers` parts.
#[derive(Clone, Copy)]
pub struct Trailer {
    pub state: u8,
    pub strategies: u8,
    pub records: u32,
    pub growth: CorrectionStats,
    pub distance: u64,
}

// What the trailer that begins at `at` says.
pub fn read(s: &[u8], at: usize) -> Trailer
    requires { at + 50 ≤ length s.now }
    ensures { result ≡ trailer_at s.now at }
{
    Trailer {
        state: s[at + 4],
        strategies: s[at + 5],
        records: fields::u32_at(s, at + 6),
        growth: stats::counts_at(s, at + 10),
        distance: fields::u64_at(s, at + 42),
    }
}

// Whether some count is not 0.
// Kept: count by count, as the definition `above` has it.
fn grown(g: CorrectionStats) -> bool
    ensures { result ≡ above 0 g }
{
    0 < g.overlapping || 0 < g.agreeing || 0 < g.disagreeing || 0 < g.corrected
}

// The numbers of two strategies as the one that stands in a trailer.
pub fn joined(agreement: u32, disagreement: u32) -> u8
    requires { (agreement ≤ 2) × (disagreement ≤ 2) }
    ensures { result ≡ 3 * agreement + disagreement }
{
    (3 * agreement + disagreement) as u8
}

impl Trailer {
    // The numbers of the two strategies.
    pub fn numbers(self) -> (u32, u32)
        ensures { (result.0 ≡ self.strategies / 3) × (result.1 ≡ self.strategies % 3) }
    {
        (
            u32::from(self.strategies / 3),
            u32::from(self.strategies % 3),
        )
    }

    // Whether a field does not fit a group of n records that take p bytes.
    pub fn wrong(self, n: usize, p: usize) -> bool
        ensures { result ≡ wrong self n p }
    {
        let Ok(state) = State::try_from(self.state) else {
            return true;
        };
        8 < self.strategies
            || self.records as usize != n
            || self.distance as usize != p
            || (state == State::Raw && grown(self.growth))
    }
}

// Makes the trailer of a raw group that of the corrected one, whose counts grew by g.
pub fn stamp(t: &mut [u8], g: CorrectionStats)
    requires { 50 ≤ length t.old }
    ensures { t.new ≡ stamped t.old g }
{
    t[4] = u8::from(State::Corrected);
    stats::put_counts(t, 10, g);
}

// Writes the trailer of a raw group, front to back, over the first 50 bytes of t.
pub fn raw(t: &mut [u8], strategies: u8, records: u32, distance: u64)
    requires { 50 ≤ length t.old }
    ensures { t.new ≡ raw_in t.old strategies records distance }
{
    let mut made = [0u8; SIZE];
    made[5] = strategies;
    fields::put_u32(&mut made, 6, records);
    fields::put_u64(&mut made, 42, distance);
    t[..SIZE].copy_from_slice(&made);
}
