// Records that are refused, what follows them, and records that are cut short.
use crate::scripts::{Record, add_record, answers};
use std::process::Abort;
use std::test::Fail;

// Records that stand at offset 1, and are followed by an audit.
fn tells(rt: &(impl Abort + AllocGlobal), records: &[u8], text: &str) -> Result<(), Fail> {
    let mut input = vec![in rt.alloc(); 5]?;
    input.extend_from_slice(records)?;
    input.extend_from_slice(&[1, 0, 1, b'C'])?;
    answers(rt, input.as_slice(), text)
}

// After another version, or a record cut short, nothing more is read.
#[test]
fn session_ended(rt: HostRuntime) -> Result<(), Fail> {
    for records in ["\x00\x00\x01C", "\x02\x00\x01C", "\x7f\x00\x00", "C"] {
        tells(&rt, records.as_bytes(), "no 14 r 1\n")?;
    }
    for records in ["\x01\x00\x06Z", "\x01\x00\x43W\x00\x00", "\x01\x01\x01C"] {
        tells(&rt, records.as_bytes(), "no 16 r 1\n")?;
    }
    Ok(())
}

// After a wrong letter or a wrong length the next record is read.
#[test]
fn session_goes_on(rt: HostRuntime) -> Result<(), Fail> {
    let lengths = [
        "\x01\x00\x00",
        "\x01\x00\x02C\x00",
        "\x01\x00\x02R\x00",
        "\x01\x00\x04R\x00\x00\x00",
        "\x01\x00\x01L",
        "\x01\x00\x03L\x00\x00",
        "\x01\x00\x01P",
        "\x01\x00\x03P\x00\x00",
        "\x01\x00\x03W\x00\x00",
    ];
    for records in lengths {
        tells(&rt, records.as_bytes(), "no 18 r 2\nsound\n")?;
    }
    for records in ["\x01\x00\x01Z", "\x01\x00\x01c", "\x01\x00\x03\x00\x00\x00"] {
        tells(&rt, records.as_bytes(), "no 17 r 4\nsound\n")?;
    }
    tells(&rt, b"\x01\x00\x05Z", "no 17 r 4\n")
}

// Offsets count from the first byte of the input: an audit at 1, a loss at 5, an unknown letter at 10, a length of 0 at
// 14, a wrong length at 17, a read at 22, and another version at 28.
#[test]
fn offsets(rt: HostRuntime) -> Result<(), Fail> {
    let records = [
        1, 0, 1, b'C', 1, 0, 2, b'L', 4, 1, 0, 1, b'!', 1, 0, 0, 1, 0, 2, b'R', 0, 1, 0, 3, b'R',
        0, 3, 4, 0, 1,
    ];
    tells(
        &rt,
        &records,
        "sound\ndone\nno 17 r 13\nno 18 r 15\nno 18 r 18\nno 5 b 3\nno 14 r 28\n",
    )
}

// Every record, cut at every byte: it stands at offset 5, after an audit.
#[test]
fn cut_at_every_byte(rt: HostRuntime) -> Result<(), Fail> {
    let records = [
        Record::Read(0, 0),
        Record::Write(2, 1, 1),
        Record::Lose(1),
        Record::Replace(1),
        Record::Audit,
    ];
    for record in records {
        let mut whole = vec![in rt.alloc(); 5]?;
        add_record(&mut whole, Record::Audit)?;
        add_record(&mut whole, record)?;
        let input = whole.as_slice();
        assert!(rt; input.len() > 8);
        answers(&rt, &input[0..5], "sound\n")?;
        for end in 6..input.len() {
            answers(&rt, &input[0..end], "sound\nno 16 r 5\n")?;
        }
    }
    Ok(())
}
