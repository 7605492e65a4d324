// Why two records do not overlap: the pair call's answer from the records alone, which are only read, and
// its number for a host.
#![tactic(auto)]

ghost use Rattle.std.specs.Prelude.{◌≡◌};
ghost use Rattle.pair_reason.specs.Reason.{answer_on, reason_call_of};

use pair::Answer;

// What the pair call answers of two records, from step 3 on, whatever its strategies and counts.
pub fn answer(first: &[u8], second: &[u8]) -> Answer
    ensures { result ≡ answer_on first.now second.now }
{
    let (a, b) = match pair::judged(first, second) {
        Ok(placed) => placed,
        Err(untreated) => return Answer::from(untreated),
    };
    if pair_judgement::share(first, second, a, b) {
        return Answer::Overlap;
    }
    Answer::NoOverlap(pair_judgement::unshared(a.extent, b.extent))
}

// The call that gives the reason. It answers 0 where the two records overlap, 1 to 5 for the reason why
// they do not, else 1000 + 100 * place + number + 10000 * the operation's index.
pub fn call(first: &[u8], second: &[u8]) -> u32
    ensures { result ≡ reason_call_of first.now second.now }
{
    match answer(first, second) {
        Answer::NoOverlap(reason) => reason.number(),
        Answer::Overlap => 0,
        Answer::Refused(refusal) => refusal.operation_code(),
    }
}
