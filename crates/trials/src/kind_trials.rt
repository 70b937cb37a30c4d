// The laws of block kinds on some blocks.
use kinds::{Block, BlockKind, byte_digits};
use std::array;
use std::process::Abort;

fn keep_laws<B: BlockKind>(rt: &impl Abort, x: B, y: B, z: B) {
    assert!(rt; x.add(x).same(B::zero()), "x + x");
    assert!(rt; x.add(B::zero()).same(x), "x + 0");
    assert!(rt; x.add(y).same(y.add(x)), "x + y");
    assert!(rt; x.add(y).add(z).same(x.add(y.add(z))), "x + y + z");
    assert_eq!(rt; x.same(y), x.add(y).same(B::zero()), "sameness");
}

#[test]
fn bits(rt: HostRuntime) {
    for x in [false, true] {
        for y in [false, true] {
            keep_laws(&rt, x, y, true);
            keep_laws(&rt, x, y, false);
            assert_eq!(rt; x.same(y), x == y);
        }
    }
    assert!(rt; !bool::zero());
    assert!(rt; true.add(false));
}

// Zero, all ones, a bit in the first byte, a bit in the last, and bytes that differ.
fn some_blocks() -> [Block; 5] {
    let mut first = [0; 64];
    first[0] = 1;
    let mut last = [0; 64];
    last[63] = 128;
    [
        Block::from([0; 64]),
        Block::from([255; 64]),
        Block::from(first),
        Block::from(last),
        Block::from(array::from_fn(|i| (i & 0xff) as u8)),
    ]
}

#[test]
fn blocks(rt: HostRuntime) {
    for (i, x) in some_blocks().iter().enumerate() {
        for (j, y) in some_blocks().iter().enumerate() {
            keep_laws(&rt, *x, *y, Block::from([7; 64]));
            assert_eq!(rt; x.same(*y), i == j, "{}", i);
            assert_eq!(rt; x.as_bytes() == y.as_bytes(), i == j, "{}", j);
        }
    }
    assert_eq!(rt; <[u8; 64]>::from(Block::zero()), [0; 64]);
    assert_eq!(rt;
        *Block::from([12; 64]).add(Block::from([10; 64])).as_bytes(),
        [6; 64]
    );
}

// Blocks of a few bytes: zeros follow, and what is past the 64th is left out.
#[test]
fn padded(rt: HostRuntime) {
    let bytes: [u8; 70] = array::from_fn(|i| i as u8 + 1);
    for len in [0, 1, 63, 64, 65, 70] {
        let block = Block::padded(&bytes[..len]);
        let wanted = array::from_fn(|i| if i < len { bytes[i] } else { 0 });
        assert_eq!(rt; block, Block::from(wanted), "{}", len);
    }
}

// The two digits of some bytes.
const DIGITS: [(u8, [u8; 2]); 7] = [
    (0, *b"00"),
    (9, *b"09"),
    (10, *b"0a"),
    (0x9f, *b"9f"),
    (0xa0, *b"a0"),
    (0xc3, *b"c3"),
    (255, *b"ff"),
];

#[test]
fn digits(rt: HostRuntime) {
    for (byte, digits) in DIGITS {
        assert_eq!(rt; byte_digits(byte), digits, "{}", byte);
    }
}
