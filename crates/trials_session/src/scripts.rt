// Scripts: the records of a session, each with the line that is to answer it.
use std::alloc::AllocError;
use std::fmt;
use std::process::Abort;
use std::test::Fail;
use transcript::transcribe;

// The sizes.
pub const SIZES: [u8; 10] = [3, 5, 7, 11, 13, 17, 19, 23, 29, 31];

// A record, in tuples, so that a long table reads at a glance; the library's orders have a name for each field. The 64 bytes of a
// write are all the same.
#[derive(Clone, Copy)]
pub enum Record {
    Read(u8, u8),
    Write(u8, u8, u8),
    Lose(u8),
    Replace(u8),
    Audit,
}

// A line. The 64 bytes of a block are all the same; a refusal has its number, layer and place, and no fault of the library,
// so that the text is the trial's own.
#[derive(Clone, Copy)]
pub enum Line {
    Shows(u8),
    Done,
    Sound,
    No(u8, char, u8),
}

pub fn add_record(input: &mut Vec<u8>, record: Record) -> Result<(), AllocError> {
    match record {
        Record::Read(a, b) => input.extend_from_slice(&[1, 0, 3, b'R', a, b]),
        Record::Write(a, b, byte) => {
            input.extend_from_slice(&[1, 0, 67, b'W', a, b])?;
            input.extend_from_slice(&[byte; 64])
        }
        Record::Lose(s) => input.extend_from_slice(&[1, 0, 2, b'L', s]),
        Record::Replace(s) => input.extend_from_slice(&[1, 0, 2, b'P', s]),
        Record::Audit => input.extend_from_slice(&[1, 0, 1, b'C']),
    }
}

impl fmt::Display for Line {
    fn fmt<W: fmt::Write>(&self, f: &mut fmt::Formatter<W>) -> fmt::Result {
        match self {
            Line::Shows(byte) => {
                write!(f, "block ")?;
                for _ in 0..64 {
                    write!(f, "{byte:02x}")?;
                }
                Ok(())
            }
            Line::Done => write!(f, "done"),
            Line::Sound => write!(f, "sound"),
            Line::No(number, layer, place) => write!(f, "no {number} {layer} {place}"),
        }
    }
}

// The input is answered by the text.
pub fn answers(rt: &(impl Abort + AllocGlobal), input: &[u8], text: &str) -> Result<(), Fail> {
    let told = transcribe(rt.alloc(), input)?;
    assert_eq!(rt; told.as_slice(), text.as_bytes(), "{:?}", input);
    Ok(())
}

// A session of n stations that is answered as its script says.
pub fn plays(
    rt: &(impl Abort + AllocGlobal),
    n: u8,
    script: &[(Record, Line)],
) -> Result<(), Fail> {
    let mut input = vec![in rt.alloc(); n]?;
    let mut text = String::new(rt.alloc());
    for (record, line) in script {
        add_record(&mut input, *record)?;
        writeln!(text, "{line}")?;
    }
    answers(rt, input.as_slice(), text.as_str())
}
