// Single records, at the edge of each check.
use faults::Fault;
use orders::{Order, Record, read_record};
use std::array;
use std::process::Abort;
use std::test::Fail;

// A record of so many bytes, with this order.
fn asks(len: usize, order: Order<&[u8]>) -> Result<Record<'_>, Fault> {
    let order = Ok(order);
    Ok(Record { order, len })
}

// A record of so many bytes that is refused, after which the next is read.
fn refused<'a>(len: usize, fault: Fault) -> Result<Record<'a>, Fault> {
    let order = Err(fault);
    Ok(Record { order, len })
}

// Where several checks fail, the first is the answer.
#[test]
fn readings(rt: HostRuntime) {
    let cases = [
        (
            "\x01\x00\x03R\x04\x7f",
            0,
            asks(6, Order::Read { a: 4, b: 127 }),
        ),
        ("\x01\x00\x02L\x00", 0, asks(5, Order::Lose { station: 0 })),
        (
            "\x01\x00\x02P\x7f\x01",
            0,
            asks(5, Order::Replace { station: 127 }),
        ),
        ("\x01\x00\x01C", 0, asks(4, Order::Audit)),
        ("\x05\x01\x00\x01C", 1, asks(4, Order::Audit)),
        ("\x05\x01\x00\x01C", 2, Err(Fault::WrongVersion(2))),
        ("\x05\x01\x00\x01C", 3, Err(Fault::CutShort(3))),
        ("\x05\x01\x00\x01C", 5, Err(Fault::CutShort(5))),
        ("\x05\x01\x00\x01C", 6, Err(Fault::CutShort(6))),
        ("", usize::MAX, Err(Fault::CutShort(usize::MAX))),
        ("", 0, Err(Fault::CutShort(0))),
        ("\x02\x00", 0, Err(Fault::CutShort(0))),
        ("\x01\x00", 0, Err(Fault::CutShort(0))),
        ("\x02\x00\x00", 0, Err(Fault::WrongVersion(0))),
        ("\x00\x00\x01", 0, Err(Fault::WrongVersion(0))),
        ("\x01\x00\x00", 0, refused(3, Fault::WrongRecordLength(1))),
        ("\x01\x00\x00Z", 0, refused(3, Fault::WrongRecordLength(1))),
        ("\x01\x00\x01", 0, Err(Fault::CutShort(0))),
        ("\x01\x00\x02Z", 0, Err(Fault::CutShort(0))),
        ("\x01\x00\x02C", 0, Err(Fault::CutShort(0))),
        ("\x01\x01\x00C", 0, Err(Fault::CutShort(0))),
        ("\x01\x00\x02Z\x00", 0, refused(5, Fault::UnknownLetter(3))),
        ("\x01\x00\x01R", 0, refused(4, Fault::WrongRecordLength(1))),
        (
            "\x09\x01\x00\x02C\x00\x00",
            1,
            refused(5, Fault::WrongRecordLength(2)),
        ),
    ];
    for (input, at, reading) in cases {
        assert_eq!(rt; read_record(input.as_bytes(), at), reading);
    }
}

// The five letters, with every length up to 79: only one is right.
#[test]
fn lengths(rt: HostRuntime) -> Result<(), Fail> {
    for (letter, right) in [(b'R', 3), (b'W', 67), (b'L', 2), (b'P', 2), (b'C', 1)] {
        for len in 1..80u8 {
            let mut input = vec![in rt.alloc(); 1, 0, len, letter]?;
            input.extend_from_slice(&[7; 80])?;
            let record = read_record(input.as_slice(), 0)?;
            let refusal = if len == right {
                None
            } else {
                Some(Fault::WrongRecordLength(1))
            };
            assert_eq!(rt; record.len, 3 + usize::from(len), "{}", len);
            assert_eq!(rt; record.order.err(), refusal, "{}", len);
        }
    }
    Ok(())
}

// Every other letter is refused.
#[test]
fn letters(rt: HostRuntime) {
    for letter in 0..=255u8 {
        let fault = match letter {
            b'R' | b'W' | b'L' | b'P' | b'C' => Fault::WrongRecordLength(1),
            _ => Fault::UnknownLetter(3),
        };
        let input = [1, 0, 4, letter, 0, 0, 0];
        assert_eq!(rt; read_record(&input, 0), refused(7, fault), "{}", letter);
    }
}

// The bytes of a write are the 64 after its stations.
#[test]
fn bytes_of_a_write(rt: HostRuntime) -> Result<(), Fail> {
    let mut input = vec![in rt.alloc(); 9, 1, 0, 67, b'W']?;
    input.extend(5..80)?;
    let bytes: [u8; 64] = array::from_fn(|i| ((i & 0xff) as u8).wrapping_add(7));
    let order = Order::Write {
        a: 5,
        b: 6,
        block: &bytes[..],
    };
    assert_eq!(rt; read_record(input.as_slice(), 1), asks(70, order));
    Ok(())
}
