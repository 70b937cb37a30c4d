// Whole sessions: from the bytes of an input to the lines that answer them.
ghost use Rattle.std.specs.Prelude.{◌≡◌, ◌*◌, ◌≤◌, true, length, is_ok, IfOk, MatchResult};
ghost use Rattle.store.specs.Meaning.{AllIn};
ghost use Rattle.kinds.specs.Bytes.{byte_group};
ghost use Rattle.orders.specs.Lines.{line};
ghost use Rattle.orders.specs.declared.lines.Reply.TheVariants.{Refused};
ghost use Rattle.serve.specs.Tally.{at_start};
ghost use Rattle.store.specs.Tables.{table_check};
ghost use Rattle.transcript.specs.Performs.{Answered};
ghost use Rattle.transcript.specs.Replies.{replies, requests_of};
ghost use Rattle.transcript.specs.Sessions.{answers, lines, session_text};

use crate::performs::perform_all;
use crate::reads::read_requests;
use crate::requests::Step;
use crate::texts::{refusal_text, text_of};
use book::Book;
use code::Size;
use faults::Fault;
use kinds::{Block, BlockKind};
use recovery::work_length;
use std::alloc::{AllocError, Global};
use store::{ReadStore, Table, WriteStore, check_table};

// The length of the longest input that is answered, in bytes.
pub const LIMIT: usize = 16_384;

// Opens a book over a store, and makes every request.
fn run_on<S: WriteStore + Drop>(store: S, steps: &mut [Step<S::Block>], work: &mut [S::Block])
    ensures { AllIn (S.means store) → 8 * (S.means store).size ≤ length work.old → Answered S.Block.group (S.means store).size steps.old steps.new }
{
    let mut book = Book::make(store);
    if book.open().is_ok() {
        perform_all(&mut book, steps, work);
    }
}

// The same over a row of blocks, as a table of n stations. The number, the row, the steps and the work area travel side by
// side: each is lent for one call, and a struct of them would be made and taken apart once.
fn run_on_row(n: u8, row: &mut [Block], steps: &mut [Step<Block>], work: &mut [Block])
    ensures { is_ok (table_check n (length row.old)) ≡ true → 8 * n ≤ length work.old → Answered byte_group n steps.old steps.new }
{
    if check_table(n, row).is_ok() {
        run_on(Table::make(n, row), steps, work);
    }
}

// The same, and then the lines of the replies.
fn tell_on_row(
    heap: Global,
    n: u8,
    row: &mut [Block],
    steps: &mut [Step<Block>],
    work: &mut [Block],
) -> Result<Vec<u8>, AllocError>
    ensures { is_ok (table_check n (length row.old)) ≡ true → 8 * n ≤ length work.old → IfOk result (λ text. text.items ≡ lines (replies n (at_start byte_group) (requests_of steps.old))) }
{
    run_on_row(n, row, steps, work);
    text_of(heap, steps)
}

// The lines that answer the records of an input whose first byte is a size.
fn answer_records(heap: Global, size: Size, input: &[u8]) -> Result<Vec<u8>, AllocError>
    ensures { IfOk result (λ text. text.items ≡ answers size.number input.now) }
{
    let n = size.number();
    let mut steps = read_requests(heap, input)?;
    let mut row = vec![in heap; Block::zero(); size.pairs()]?;
    let mut work = vec![in heap; Block::zero(); work_length(size)]?;
    tell_on_row(
        heap,
        n,
        row.as_mut_slice(),
        steps.as_mut_slice(),
        work.as_mut_slice(),
    )
}

// The size that an input begins with. Refused by 19 r if the input is too long, by 16 r if it has no byte, and by 1 b.
fn size_of(input: &[u8]) -> Result<Size, Fault>
    ensures { MatchResult result (λ size. session_text input.now ≡ answers size.number input.now) (λ fault. session_text input.now ≡ line (Refused fault)) }
{
    if input.len() > LIMIT {
        return Err(Fault::SessionTooLong);
    }
    let [number, ..] = input else {
        return Err(Fault::CutShort(0));
    };
    Size::try_from(*number)
}

// The text that answers a whole input: one byte, the number of stations, and then records, each made in turn on a newly
// opened book over a table and answered by a line. An input of more than 16,384 bytes is answered by 19 r alone, one of no
// byte by 16 r, and one whose first byte is no size by 1 b.
pub fn transcribe(heap: Global, input: &[u8]) -> Result<Vec<u8>, AllocError>
    ensures { IfOk result (λ text. text.items ≡ session_text input.now) }
{
    match size_of(input) {
        Ok(size) => answer_records(heap, size, input),
        Err(fault) => refusal_text(heap, fault),
    }
}
