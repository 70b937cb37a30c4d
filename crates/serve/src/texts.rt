// Calls and answers in text.
ghost use Rattle.std.specs.Prelude.{Some};
ghost use Rattle.serve.specs.Texts.{sort_text};

use crate::turns::{Answer, Call, Sort, Turn};
use std::fmt;

// `open`, or `full`.
impl fmt::Display for Sort {
    ghost output = { λ sort. Some (sort_text sort) };

    fn fmt<W: fmt::Write>(&self, f: &mut fmt::Formatter<W>) -> fmt::Result {
        match self {
            Sort::Open => write!(f, "open"),
            Sort::Full => write!(f, "full"),
        }
    }
}

// The call's name and its arguments.
impl<B: fmt::Display> fmt::Display for Call<B> {
    fn fmt<W: fmt::Write>(&self, f: &mut fmt::Formatter<W>) -> fmt::Result {
        match self {
            Call::Write { a, b, block, area } => write!(f, "write {a} {b} {block} area {area}"),
            Call::Read { a, b, area } => write!(f, "read {a} {b} area {area}"),
            Call::Lose { station } => write!(f, "lose {station}"),
            Call::Fit { station } => write!(f, "fit {station}"),
            Call::Fill { station, area } => write!(f, "fill {station} area {area}"),
            Call::Finish { station } => write!(f, "finish {station}"),
            Call::Abandon { station, sort } => write!(f, "abandon {station} {sort}"),
        }
    }
}

// The block that a read gave, `no` and the fault of a refusal, or a word.
impl<B: fmt::Display> fmt::Display for Answer<B> {
    fn fmt<W: fmt::Write>(&self, f: &mut fmt::Formatter<W>) -> fmt::Result {
        match self {
            Answer::NotMade => write!(f, "not made"),
            Answer::Refused(fault) => write!(f, "no {fault}"),
            Answer::Given(block) => write!(f, "{block}"),
            Answer::Accepted => write!(f, "ok"),
            Answer::Untouched => write!(f, "untouched"),
        }
    }
}

// The call, and its answer after a colon.
impl<B: fmt::Display> fmt::Display for Turn<B> {
    fn fmt<W: fmt::Write>(&self, f: &mut fmt::Formatter<W>) -> fmt::Result {
        let call = &self.call;
        let answer = &self.answer;
        write!(f, "{call}: {answer}")
    }
}
