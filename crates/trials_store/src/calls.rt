// Calls of any store of five stations for writing.
use crate::samples::sample;
use faults::Fault;
use kinds::{Block, BlockKind};
use std::process::Abort;
use store::{ReadStore, WriteStore};

#[derive(Clone, Copy, Debug)]
pub enum Call {
    IsIn(u8),
    Get(u8, u8),
    Put(u8, u8),
    TakeOut(u8),
    BringIn(u8),
}

// A call that is refused by a fault while the stations of these marks are out.
#[derive(Clone, Copy)]
pub struct Refusal {
    pub out: u8,
    pub call: Call,
    pub fault: Fault,
}

fn refused(out: u8, call: Call, fault: Fault) -> Refusal {
    Refusal { out, call, fault }
}

pub fn refusals() -> [Refusal; 30] {
    [
        refused(0b00000, Call::IsIn(5), Fault::NoSuchStation(5)),
        refused(0b00000, Call::IsIn(255), Fault::NoSuchStation(255)),
        refused(0b00000, Call::TakeOut(5), Fault::NoSuchStation(5)),
        refused(0b00000, Call::BringIn(5), Fault::NoSuchStation(5)),
        refused(0b00000, Call::Get(7, 5), Fault::NoSuchStation(7)),
        refused(0b00000, Call::Get(5, 7), Fault::NoSuchStation(5)),
        refused(0b00000, Call::Get(0, 5), Fault::NoSuchStation(5)),
        refused(0b00000, Call::Get(5, 0), Fault::NoSuchStation(5)),
        refused(0b00000, Call::Put(7, 5), Fault::NoSuchStation(7)),
        refused(0b00000, Call::Put(5, 7), Fault::NoSuchStation(5)),
        refused(0b00000, Call::Put(0, 5), Fault::NoSuchStation(5)),
        refused(0b00000, Call::Put(5, 0), Fault::NoSuchStation(5)),
        refused(0b00001, Call::Get(0, 5), Fault::NoSuchStation(5)),
        refused(0b00001, Call::Put(0, 5), Fault::NoSuchStation(5)),
        refused(0b00001, Call::TakeOut(0), Fault::AlreadyOut(0)),
        refused(0b11000, Call::TakeOut(3), Fault::AlreadyOut(3)),
        refused(0b11000, Call::TakeOut(4), Fault::AlreadyOut(4)),
        refused(0b00000, Call::BringIn(0), Fault::AlreadyIn(0)),
        refused(0b01000, Call::BringIn(4), Fault::AlreadyIn(4)),
        refused(0b11110, Call::BringIn(0), Fault::AlreadyIn(0)),
        refused(0b01000, Call::Get(3, 3), Fault::StationOut(3)),
        refused(0b01000, Call::Get(3, 0), Fault::StationOut(3)),
        refused(0b01000, Call::Get(4, 3), Fault::StationOut(3)),
        refused(0b01010, Call::Get(3, 1), Fault::StationOut(1)),
        refused(0b01010, Call::Get(1, 3), Fault::StationOut(1)),
        refused(0b01000, Call::Put(3, 3), Fault::StationOut(3)),
        refused(0b01000, Call::Put(3, 0), Fault::StationOut(3)),
        refused(0b01000, Call::Put(4, 3), Fault::StationOut(3)),
        refused(0b01010, Call::Put(3, 1), Fault::StationOut(1)),
        refused(0b01010, Call::Put(1, 3), Fault::StationOut(1)),
    ]
}

fn answer<S: WriteStore<Block = Block>>(
    store: &mut S,
    call: Call,
    block: &mut Block,
) -> Result<(), Fault> {
    match call {
        Call::IsIn(s) => store.is_in(s).map(|_| ()),
        Call::Get(a, b) => store.get(a, b, block),
        Call::Put(a, b) => store.put(a, b, *block),
        Call::TakeOut(s) => store.take_out(s),
        Call::BringIn(s) => store.bring_in(s),
    }
}

// The stations of these marks are out, the others in.
pub fn marked<S: ReadStore<Block = Block>>(rt: &impl Abort, store: &S, marks: u8) {
    for s in 0..5u8 {
        assert_eq!(rt; store.is_in(s), Ok((marks >> s) & 1 == 0), "{}", s);
    }
}

impl Refusal {
    // The call is refused so, and leaves the caller's place and the marks as they were.
    pub fn holds_on<S: WriteStore<Block = Block>>(&self, rt: &impl Abort, store: &mut S) {
        let call = self.call;
        let mut block = sample(77);
        marked(rt, store, self.out);
        assert_eq!(rt;
            answer(store, call, &mut block),
            Err(self.fault),
            "{:?}",
            call
        );
        assert_eq!(rt; block, sample(77), "{:?}", call);
        marked(rt, store, self.out);
    }
}

// What is put at a pair, a block of its own for either order.
pub fn news(a: u8, b: u8) -> Block {
    sample(
        usize::from(a)
            .wrapping_mul(5)
            .wrapping_add(usize::from(b))
            .wrapping_add(100),
    )
}

// Puts at every pair in both orders; the order with the larger station first is the later one. Each is got in the other
// order.
pub fn put_all<S: WriteStore<Block = Block>>(rt: &impl Abort, store: &mut S) {
    for a in 0..5 {
        for b in 0..5 {
            let mut got = Block::zero();
            assert_eq!(rt; store.put(a, b, news(a, b)), Ok(()));
            assert_eq!(rt; store.get(b, a, &mut got), Ok(()));
            assert_eq!(rt; got, news(a, b));
        }
    }
}
