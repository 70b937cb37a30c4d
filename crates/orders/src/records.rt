// Order records: version 1, the length of the rest in two bytes, a letter and its fields.
ghost use Rattle.std.specs.Prelude.{◌≡◌, ◌+◌, ◌^◌, ◌<◌, length};
ghost use Rattle.orders.specs.Records.{order_answer, front_answer, record_answer, ordered, read_as};

use faults::Fault;

// What a record asks for. The block of a write is a part of the input first, and then one of the kind of a store.
#[derive(Clone, Copy, Debug, PartialEq, Eq)]
pub enum Order<B> {
    Read { a: u8, b: u8 },
    Write { a: u8, b: u8, block: B },
    Lose { station: u8 },
    Replace { station: u8 },
    Audit,
}

// A record that was read: what it asks for, or why it asks for nothing, and its length in bytes.
#[derive(Clone, Copy, Debug, PartialEq, Eq)]
pub struct Record<'a> {
    pub order: Result<Order<&'a [u8]>, Fault>,
    pub len: usize,
}

// The order of a record's letter and fields, where the record begins at an offset. Refused by 17 r, then by 18 r.
fn read_order(body: &[u8], at: usize) -> Result<Order<&[u8]>, Fault>
    requires { at + 3 < 2 ^ 64 }
    ensures { ordered result ≡ order_answer body.now at }
{
    match body {
        [b'R', a, b] => Ok(Order::Read { a: *a, b: *b }),
        [b'W', a, b, bytes @ ..] if bytes.len() == 64 => Ok(Order::Write {
            a: *a,
            b: *b,
            block: bytes,
        }),
        [b'L', station] => Ok(Order::Lose { station: *station }),
        [b'P', station] => Ok(Order::Replace { station: *station }),
        [b'C'] => Ok(Order::Audit),
        [b'R' | b'W' | b'L' | b'P' | b'C', ..] => Err(Fault::WrongRecordLength(at + 1)),
        _ => Err(Fault::UnknownLetter(at + 3)),
    }
}

// Reads the record that the bytes begin with, where the first of them has an offset. It is a number beside the bytes, as only
// faults tell it; a struct of both would be taken apart at once.
fn read_front(left: &[u8], at: usize) -> Result<Record<'_>, Fault>
    requires { at + length left.now < 2 ^ 64 }
    ensures { read_as result ≡ front_answer left.now at }
{
    let [version, high, low, rest @ ..] = left else {
        return Err(Fault::CutShort(at));
    };
    if *version != 1 {
        return Err(Fault::WrongVersion(at));
    }
    let len = usize::from(u16::from_be_bytes([*high, *low]));
    if len == 0 {
        return Ok(Record {
            order: Err(Fault::WrongRecordLength(at + 1)),
            len: 3,
        });
    }
    if rest.len() < len {
        return Err(Fault::CutShort(at));
    }
    Ok(Record {
        order: read_order(&rest[..len], at),
        len: 3 + len,
    })
}

// Reads the record at an offset of the input. A fault in place of a record means that nothing is read after it. Refused,
// in this order: by 16 r where three bytes are not there, by 14 r, by 18 r where the length is 0, by 16 r where the rest is
// not there, by 17 r, and by 18 r.
pub fn read_record(input: &[u8], at: usize) -> Result<Record<'_>, Fault>
    ensures { read_as result ≡ record_answer input.now at }
{
    let left = input.get(at..).ok_or(Fault::CutShort(at))?;
    read_front(left, at)
}
