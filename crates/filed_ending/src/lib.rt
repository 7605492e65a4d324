// Where the frames of a filed group end: behind them stands a trailer that begins with four zero bytes, where a size
// would stand.
#![tactic(auto)]

ghost use Rattle.std.specs.Prelude.{◌≡◌, ◌≤◌, length};
ghost use Rattle.filed_ending.specs.Ending.{ends_at, ending_of};
ghost use Rattle.filed_ending.specs.Found.{Found};

use refusal::Refusal;

// Whether the frames end at this byte: four zero bytes stand there. Refused where no byte is left.
fn ends_at(s: &[u8], at: usize) -> Result<bool, Refusal>
    ensures { result ≡ ends_at s.now at }
{
    if s.len() <= at {
        return Err(Refusal::TrailerMissing);
    }
    Ok(s[at..].starts_with(&[0; 4]))
}

// Finds where the frames end, each record checked. Where they do, `begins` holds afterwards where
// each frame begins, and behind these where the zero size stands.
// Kept: no one function with `group_frames::cut`: they test for an end otherwise, and answer by two definitions
// (`frames_of`, `ending_of`), so a shared loop would take its test as a closure and say all of this twice.
pub fn cut(s: &[u8], begins: &mut [usize]) -> Result<usize, Refusal>
    requires { 257 ≤ length begins.old }
    ensures { (result ≡ ending_of s.now) × Found s.now begins.new result }
{
    let mut begin = 0;
    begins[0] = 0;
    for k in 0..group_frames::MOST {
        if ends_at(s, begin)? {
            return Ok(k);
        }
        begin = group_frames::frame_at(s, begin, k)?;
        begins[k + 1] = begin;
    }
    if ends_at(s, begin)? {
        return Ok(group_frames::MOST);
    }
    Err(Refusal::TooManyRecords)
}
