// Orders as values, with a place for the reply to each.
use faults::Fault;
use orders::{Order, Reply};

// An order, or the fault of a record that is none; and the reply to it. A reply stands there only when the order was made:
// what stands there before is not looked at, and an `Option` of it would be unwrapped by every reader.
#[derive(Clone, Copy, Debug, PartialEq, Eq)]
pub struct Step<B> {
    pub request: Result<Order<B>, Fault>,
    pub reply: Reply<B>,
}
