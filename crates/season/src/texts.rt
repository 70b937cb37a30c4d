// Blocks of text.
use kinds::Block;
use serve::{Answer, Call, Turn};
use std::fmt;

// A block that is shown as text.
#[derive(Clone, Copy)]
pub struct Text {
    block: Block,
}

// The bytes up to the first zero, in quotes.
impl fmt::Display for Text {
    fn fmt<W: fmt::Write>(&self, f: &mut fmt::Formatter<W>) -> fmt::Result {
        write!(f, "\"")?;
        for byte in self.block.as_bytes() {
            match *byte {
                0 => break,
                b' '..=b'~' => {
                    let letter = char::from(*byte);
                    write!(f, "{letter}")?;
                }
                other => write!(f, "<{other:02x}>")?,
            }
        }
        write!(f, "\"")
    }
}

// The same call, with another block where it writes one. As a method `map` of `Call` in `serve` it would be no plainer: there it
// would owe a contract over seven sorts of calls, and one over five of answers, for this program alone.
fn with_block<B, C, F: FnOnce(B) -> C>(call: Call<B>, to: F) -> Call<C>
    requires { F.IsAlwaysCallable to }
{
    match call {
        Call::Write { a, b, block, area } => Call::Write {
            a,
            b,
            block: to(block),
            area,
        },
        Call::Read { a, b, area } => Call::Read { a, b, area },
        Call::Lose { station } => Call::Lose { station },
        Call::Fit { station } => Call::Fit { station },
        Call::Fill { station, area } => Call::Fill { station, area },
        Call::Finish { station } => Call::Finish { station },
        Call::Abandon { station, sort } => Call::Abandon { station, sort },
    }
}

// A call that writes the block of a text, its first 64 bytes, and no answer yet.
pub fn turn(call: Call<&'static str>) -> Turn<Block> {
    Turn::from(with_block(call, |text| Block::padded(text.as_bytes())))
}

// Likewise of an answer.
fn answer_in_text(answer: Answer<Block>) -> Answer<Text> {
    match answer {
        Answer::NotMade => Answer::NotMade,
        Answer::Refused(fault) => Answer::Refused(fault),
        Answer::Given(block) => Answer::Given(Text { block }),
        Answer::Accepted => Answer::Accepted,
        Answer::Untouched => Answer::Untouched,
    }
}

// The same call and answer, with blocks that are shown as text.
pub fn in_text(turn: Turn<Block>) -> Turn<Text> {
    Turn {
        call: with_block(turn.call, |block| Text { block }),
        answer: answer_in_text(turn.answer),
    }
}
