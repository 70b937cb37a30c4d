// The lines that answer the orders of an input, by the model.
ghost use Rattle.std.specs.Prelude.{◌-◌, length};
ghost use Rattle.std.specs.Iterator.{at_most};

use crate::model::Model;
use faults::Fault;
use kinds::Block;
use std::alloc::{AllocError, Global};
use std::{array, fmt};

// What an order is answered that is not refused.
#[derive(Clone, Copy)]
enum Answer {
    Block(Block),
    Done,
    Sound,
}

// The texts of answers and of faults are written out here: the library's own are compared with them.
impl fmt::Display for Answer {
    fn fmt<W: fmt::Write>(&self, f: &mut fmt::Formatter<W>) -> fmt::Result {
        match self {
            Answer::Block(block) => {
                write!(f, "block ")?;
                for byte in block.as_bytes() {
                    write!(f, "{byte:02x}")?;
                }
                Ok(())
            }
            Answer::Done => write!(f, "done"),
            Answer::Sound => write!(f, "sound"),
        }
    }
}

// Adds the line of an answer.
fn push_line(lines: &mut String, answer: Result<Answer, Fault>) -> Result<(), AllocError> {
    match answer {
        Ok(answer) => writeln!(lines, "{answer}"),
        Err(fault) => {
            let number = fault.number();
            let letter = fault.layer().letter();
            let place = fault.place();
            writeln!(lines, "no {number} {letter} {place}")
        }
    }
}

// An odd prime from 3 to 31.
fn is_size(n: u8) -> bool {
    n >= 3 && n <= 31 && (2..n).all(|d| n % d != 0)
}

// How long what follows the length of a record must be, by its letter.
fn length_for(letter: u8) -> Option<u16> {
    match letter {
        b'R' => Some(3),
        b'W' => Some(67),
        b'L' | b'P' => Some(2),
        b'C' => Some(1),
        _ => None,
    }
}

// The bytes of a record, and the offset of the first.
#[derive(Clone, Copy)]
struct Record<'a> {
    bytes: &'a [u8],
    at: usize,
}

impl Record<'_> {
    // A byte, or zero past the end.
    fn byte(&self, k: usize) -> u8 {
        self.bytes.get(k).copied().unwrap_or(0)
    }

    // The length of the rest.
    fn length(&self) -> u16 {
        u16::from_be_bytes([self.byte(1), self.byte(2)])
    }

    fn block(&self) -> Block {
        Block::from(array::from_fn(|k| self.byte(k.saturating_add(6))))
    }

    // Whether its length is what its letter asks for.
    fn check(&self) -> Result<(), Fault> {
        let wrong = Fault::WrongRecordLength(self.at.saturating_add(1));
        if self.length() == 0 {
            return Err(wrong);
        }
        match length_for(self.byte(3)) {
            None => Err(Fault::UnknownLetter(self.at.saturating_add(3))),
            Some(wanted) if wanted != self.length() => Err(wrong),
            Some(_) => Ok(()),
        }
    }

    fn answer(&self, model: &mut Model) -> Result<Answer, Fault> {
        self.check()?;
        let area = model.full_area();
        let a = self.byte(4);
        let b = self.byte(5);
        match self.byte(3) {
            b'R' => return Ok(Answer::Block(model.read(a, b, area)?)),
            b'W' => model.write(a, b, self.block(), area)?,
            b'L' => model.lose(a)?,
            b'P' => model.replace(a)?,
            _ => {
                model.audit()?;
                return Ok(Answer::Sound);
            }
        }
        Ok(Answer::Done)
    }
}

// The record that begins at an offset; a fault ends the session.
fn record_at(input: &[u8], at: usize) -> Result<Record<'_>, Fault> {
    let bytes = input.get(at..).ok_or(Fault::CutShort(at))?;
    let rest = Record { bytes, at };
    if bytes.len() < 3 {
        return Err(Fault::CutShort(at));
    }
    if rest.byte(0) != 1 {
        return Err(Fault::WrongVersion(at));
    }
    let whole = 3 + usize::from(rest.length());
    let bytes = bytes.get(..whole).ok_or(Fault::CutShort(at))?;
    Ok(Record { bytes, at })
}

// The records of an input from an offset on, up to the first fault. An empty record would end them too: so the check sees
// that they end, and there is none.
#[derive(Drop)]
struct Records<'a> {
    input: &'a [u8],
    at: usize,
}

impl<'a> Iterator for Records<'a> {
    type Item = Result<Record<'a>, Fault>;

    ghost remaining = { λ s. at_most (length s.input.now - s.at) };

    fn next(&mut self) -> Option<Result<Record<'a>, Fault>> {
        let at = self.at;
        if at >= self.input.len() {
            return None;
        }
        let record = record_at(self.input, at);
        let len = record.map_or(0, |record| record.bytes.len());
        let after = at.saturating_add(len);
        self.at = if after > at { after } else { self.input.len() };
        Some(record)
    }
}

fn answer_records(model: &mut Model, input: &[u8], lines: &mut String) -> Result<(), AllocError> {
    for record in (Records { input, at: 1 }) {
        push_line(lines, record.and_then(|record| record.answer(model)))?;
    }
    Ok(())
}

// The number of stations of a whole input.
fn size_of(input: &[u8]) -> Result<u8, Fault> {
    if input.len() > 16_384 {
        return Err(Fault::SessionTooLong);
    }
    match input.first() {
        None => Err(Fault::CutShort(0)),
        Some(n) if is_size(*n) => Ok(*n),
        Some(n) => Err(Fault::NotASize(*n)),
    }
}

// The lines of a whole session.
pub fn model_lines(heap: Global, input: &[u8]) -> Result<String, AllocError> {
    let mut lines = String::new(heap);
    match size_of(input) {
        Ok(n) => answer_records(&mut Model::new(heap, n)?, input, &mut lines)?,
        Err(fault) => push_line(&mut lines, Err(fault))?,
    }
    Ok(lines)
}
