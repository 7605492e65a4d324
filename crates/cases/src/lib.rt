// What the programs of cases write: a refusal, an answer and the four counts, each as a text.
#![tactic(auto)]

ghost use Rattle.std.specs.Prelude.{Some};
ghost use Rattle.cases.specs.Text.{refusal_text, answer_text, counts_text};

use pair::Answer;
use refusal::Refusal;
use stats::CorrectionStats;
use std::fmt;

// A refusal, as `refusal 7 at place 2`.
#[derive(Clone, Copy)]
pub struct Told(pub Refusal);

impl fmt::Display for Told {
    ghost output = { λ told. Some (refusal_text told.0) };

    fn fmt<W: fmt::Write>(&self, f: &mut fmt::Formatter<W>) -> fmt::Result {
        let number = self.0.number();
        let place = self.0.place();
        write!(f, "refusal {number} at place {place}")
    }
}

// A pair call's answer, as `overlap`, as `no overlap, reason 5`, or as the refusal.
#[derive(Clone, Copy)]
pub struct Answered(pub Answer);

impl fmt::Display for Answered {
    ghost output = { λ answered. Some (answer_text answered.0) };

    fn fmt<W: fmt::Write>(&self, f: &mut fmt::Formatter<W>) -> fmt::Result {
        match self.0 {
            Answer::NoOverlap(reason) => {
                let number = reason.number();
                write!(f, "no overlap, reason {number}")
            }
            Answer::Overlap => f.write_str("overlap"),
            Answer::Refused(r) => Told(r).fmt(f),
        }
    }
}

// The four counts in their order, as `3 2 1 4`.
#[derive(Clone, Copy)]
pub struct Counts(pub CorrectionStats);

impl fmt::Display for Counts {
    ghost output = { λ counts. Some (counts_text counts.0) };

    fn fmt<W: fmt::Write>(&self, f: &mut fmt::Formatter<W>) -> fmt::Result {
        let CorrectionStats {
            overlapping,
            agreeing,
            disagreeing,
            corrected,
        } = self.0;
        write!(f, "{overlapping} {agreeing} {disagreeing} {corrected}")
    }
}
