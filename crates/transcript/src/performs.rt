// Requests made on a book.
ghost use Rattle.std.specs.Prelude.{◌≡◌, ℕ, length, Ok};
ghost use Rattle.book.specs.Books.{state_of};
ghost use Rattle.transcript.specs.Performs.{replied, done_reply, Performs, PerformsAll};
ghost use Rattle.orders.specs.declared.records.Order.TheVariants.{Read, Audit};

use crate::replaces::replace;
use crate::requests::Step;
use book::Book;
use faults::Fault;
use kinds::BlockKind;
use orders::{Order, Reply};
use store::{ReadStore, WriteStore};

// The reply to a write, a loss or a replacement that is not refused.
fn done<B>(answer: Result<(), Fault>) -> Result<Reply<B>, Fault>
    ensures { replied result ≡ done_reply answer }
{
    answer.map(|()| Reply::Done)
}

// The book and the work area travel side by side. A struct that lends them would owe, in each method, a clause for each of
// the two that it still lends the same one.
fn read_pair<S: WriteStore>(
    book: &Book<S>,
    a: u8,
    b: u8,
    work: &mut [S::Block],
) -> Result<Reply<S::Block>, Fault>
    ensures { Performs S.Block.group (state_of S.means book.now) (length work.old) (Ok (Read a b)) (replied result) (state_of S.means book.now) }
{
    let mut block = S::Block::zero();
    book.read(a, b, work, &mut block)?;
    Ok(Reply::Block(block))
}

fn audit_all<S: WriteStore>(book: &Book<S>) -> Result<Reply<S::Block>, Fault>
    ensures { (len : ℕ) → Performs S.Block.group (state_of S.means book.now) len (Ok Audit) (replied result) (state_of S.means book.now) }
{
    let verdict = book.audit()?;
    Ok(Reply::Found(verdict))
}

// Makes one request, where the record held one.
fn perform<S: WriteStore>(
    book: &mut Book<S>,
    request: Result<Order<S::Block>, Fault>,
    work: &mut [S::Block],
) -> Result<Reply<S::Block>, Fault>
    ensures { Performs S.Block.group (state_of S.means book.old) (length work.old) request (replied result) (state_of S.means book.new) }
{
    match request? {
        Order::Read { a, b } => read_pair(book, a, b, work),
        Order::Write { a, b, block } => done(book.write(a, b, block, work)),
        Order::Lose { station } => done(book.lose(station)),
        Order::Replace { station } => done(replace(book, station, work)),
        Order::Audit => audit_all(book),
    }
}

// The reply to a request, whether it is refused or not. `unwrap_or_else` was tried: the check does not cover a call that is
// passed a case of an enum over a type parameter.
fn reply_to<S: WriteStore>(
    book: &mut Book<S>,
    request: Result<Order<S::Block>, Fault>,
    work: &mut [S::Block],
) -> Reply<S::Block>
    ensures { Performs S.Block.group (state_of S.means book.old) (length work.old) request result (state_of S.means book.new) }
{
    match perform(book, request, work) {
        Ok(reply) => reply,
        Err(fault) => Reply::Refused(fault),
    }
}

// Makes every request in turn, and lays each reply beside its request.
pub(crate) fn perform_all<S: WriteStore>(
    book: &mut Book<S>,
    steps: &mut [Step<S::Block>],
    work: &mut [S::Block],
)
    ensures { PerformsAll S.Block.group (state_of S.means book.old) (length work.old) steps.old steps.new }
{
    for step in steps.iter_mut() {
        step.reply = reply_to(book, step.request, work);
    }
}
