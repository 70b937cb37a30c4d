// Lines laid in areas.
use audit::Verdict;
use faults::Fault;
use kinds::Block;
use orders::{Reply, lay_line};
use std::array;
use std::process::Abort;

// The bytes 192, 193 and so on.
fn sample() -> Block {
    Block::from(array::from_fn(|i| (i & 0xff) as u8 | 192))
}

// The line stands at the front of the area, and the bytes after it, all 238, stay.
fn lays(rt: &impl Abort, reply: &Reply<Block>, area: &mut [u8], text: &str) {
    assert_eq!(rt; lay_line(reply, area), Ok(text.len()));
    assert!(rt; area.starts_with(text.as_bytes()), "{}", text);
    assert!(rt;
        area.iter().skip(text.len()).all(|byte| *byte == 238),
        "{}",
        text
    );
}

// The area, all 238, is refused, and stays.
fn refuses(rt: &impl Abort, reply: &Reply<Block>, area: &mut [u8]) {
    let len = area.len();
    assert_eq!(rt; lay_line(reply, area), Err(Fault::AreaTooShort(len)));
    assert!(rt; area.iter().all(|byte| *byte == 238));
}

// The line of a reply in areas of 135 and 200 bytes; whatever the line, one of 134 bytes is refused.
fn tells(rt: &impl Abort, reply: Reply<Block>, text: &str) {
    let mut tight = [238; 135];
    let mut wide = [238; 200];
    let mut short = [238; 134];
    lays(rt, &reply, &mut tight, text);
    lays(rt, &reply, &mut wide, text);
    refuses(rt, &reply, &mut short);
}

#[test]
fn lines(rt: HostRuntime) {
    tells(
        &rt,
        Reply::Block(sample()),
        "block c0c1c2c3c4c5c6c7c8c9cacbcccdcecfd0d1d2d3d4d5d6d7d8d9dadbdcdddedfe0e1e2e3e4e5e6e7e8e9eaebecedeeeff0f1f2f3f4f5f6f7f8f9fafbfcfdfeff\n",
    );
    tells(&rt, Reply::Done, "done\n");
    tells(&rt, Reply::Found(Verdict::Sound), "sound\n");
    tells(
        &rt,
        Reply::Found(Verdict::BrokenNeighbourhood(30)),
        "broken S 30\n",
    );
    tells(
        &rt,
        Reply::Found(Verdict::BrokenDiagonal(0)),
        "broken D 0\n",
    );
    tells(&rt, Reply::Refused(Fault::NoSuchStation(7)), "no 4 s 7\n");
    tells(&rt, Reply::Refused(Fault::NotASize(255)), "no 1 b 255\n");
    tells(
        &rt,
        Reply::Refused(Fault::SessionTooLong),
        "no 19 r 16384\n",
    );
    tells(
        &rt,
        Reply::Refused(Fault::CutShort(usize::MAX)),
        "no 16 r 18446744073709551615\n",
    );
}
