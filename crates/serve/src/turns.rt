// Calls as values, with a place for the answer to each.
ghost use Rattle.std.specs.Prelude.{◌≡◌};

use faults::Fault;

// The two sorts of tickets.
#[derive(Clone, Copy, Debug, PartialEq, Eq)]
pub enum Sort {
    Open,
    Full,
}

// A call of a book. A ticket goes by its station, and a work area by its length, up to the area that is there.
#[derive(Clone, Copy, Debug, PartialEq, Eq)]
pub enum Call<B> {
    Write { a: u8, b: u8, block: B, area: usize },
    Read { a: u8, b: u8, area: usize },
    Lose { station: u8 },
    Fit { station: u8 },
    Fill { station: u8, area: usize },
    Finish { station: u8 },
    Abandon { station: u8, sort: Sort },
}

// What a call answered: five outcomes side by side. A refusal is one of them, since a list goes on after it.
#[derive(Clone, Copy, Debug, PartialEq, Eq)]
pub enum Answer<B> {
    // There was no such ticket to spend, or no room to keep one: the call was not made.
    NotMade,
    Refused(Fault),
    Given(B),
    Accepted,
    // An abandoned ticket whose station was not being filled: nothing changed.
    Untouched,
}

// A call and its answer. An answer stands there only when the call was made: what stands there before is not looked at, and an
// `Option` of it would be unwrapped by every reader of a list that was served.
#[derive(Clone, Copy, Debug, PartialEq, Eq)]
pub struct Turn<B> {
    pub call: Call<B>,
    pub answer: Answer<B>,
}

// A call with no answer yet.
impl<B> From<Call<B>> for Turn<B> {
    ghost use Rattle.serve.specs.declared.turns.Answer.TheVariants.{NotMade};

    ghost from_gives = { λ call turn. (turn.call ≡ call) × (turn.answer ≡ NotMade) };

    fn from(call: Call<B>) -> Self {
        let answer = Answer::NotMade;
        Turn { call, answer }
    }
}
