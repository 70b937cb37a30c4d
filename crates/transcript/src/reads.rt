// The requests that the bytes of an input hold.
ghost use Rattle.std.specs.Prelude.{◌≡◌, IfOk, Ok};
ghost use Rattle.orders.specs.Records.{asked, read_as};
ghost use Rattle.std.specs.Iterator.{YieldsFirst, item_count};
ghost use Rattle.transcript.specs.Reads.{requests_left};
ghost use Rattle.transcript.specs.Replies.{requests_of};
ghost use Rattle.transcript.specs.Sessions.{request_as, request_of, session_requests};

use crate::requests::Step;
use faults::Fault;
use kinds::Block;
use orders::{Order, Record, Reply, read_record};
use std::alloc::{AllocError, Global};

// The same order, with a block of its own in place of the bytes.
fn owned(order: Order<&[u8]>) -> Order<Block>
    ensures { result ≡ request_of (asked order.entry) }
{
    match order {
        Order::Read { a, b } => Order::Read { a, b },
        Order::Write { a, b, block } => Order::Write {
            a,
            b,
            block: Block::padded(block),
        },
        Order::Lose { station } => Order::Lose { station },
        Order::Replace { station } => Order::Replace { station },
        Order::Audit => Order::Audit,
    }
}

fn request_in(read: Record<'_>) -> Result<Order<Block>, Fault>
    ensures { result ≡ request_as (read_as (Ok read.entry)) }
{
    read.order.map(owned)
}

// The requests of the records of an input from an offset on, with a fault for each record that is no order. After one that
// is cut short or of another version nothing more is read.
#[derive(Drop)]
struct Requests<'a> {
    input: &'a [u8],
    at: usize,
}

impl Iterator for Requests<'_> {
    type Item = Result<Order<Block>, Fault>;

    ghost next_gives = { YieldsFirst requests_left };

    ghost remaining = { item_count requests_left };

    fn next(&mut self) -> Option<Result<Order<Block>, Fault>> {
        if self.at >= self.input.len() {
            return None;
        }
        match read_record(self.input, self.at) {
            Ok(record) => {
                self.at += record.len;
                Some(request_in(record))
            }
            Err(fault) => {
                self.at = self.input.len();
                Some(Err(fault))
            }
        }
    }
}

// All requests of an input, none answered yet.
pub(crate) fn read_requests(heap: Global, input: &[u8]) -> Result<Vec<Step<Block>>, AllocError>
    ensures { IfOk result (λ steps. requests_of steps.items ≡ session_requests input.now) }
{
    let mut steps = Vec::new(heap);
    for request in (Requests { input, at: 1 }) {
        steps.push(Step {
            request,
            reply: Reply::Done,
        })?;
    }
    Ok(steps)
}
