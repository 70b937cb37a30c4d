// Lists of calls, made one after the other.
ghost use Rattle.std.specs.Prelude.{◌≡◌, ℕ, true, length, is_ok};
ghost use Rattle.book.specs.Books.{state_of};
ghost use Rattle.state.specs.Calls.{open_answer};
ghost use Rattle.serve.specs.Answers.{answered_by};
ghost use Rattle.serve.specs.Matches.{CarriesOn, Tells, Served, ServedTells, calls_of};
ghost use Rattle.serve.specs.Turns.{Made};
ghost use Rattle.serve.specs.declared.turns.Call.TheVariants.{Write, Read, Lose, Fit, Fill, Finish, Abandon};
ghost use Rattle.store.specs.Meaning.{After};

use crate::racks::Rack;
use crate::turns::{Answer, Call, Sort, Turn};
use book::{Book, Ticket};
use faults::Fault;
use kinds::BlockKind;
use store::{ReadStore, WriteStore};

// The book, the work area and the rack travel side by side. A struct that lends them would owe, in each method, a clause for
// each of the three that it still lends the same one.
fn make_write<S: WriteStore>(
    book: &mut Book<S>,
    a: u8,
    b: u8,
    x: S::Block,
    area: usize,
    work: &mut [S::Block],
) -> Result<Answer<S::Block>, Fault>
    ensures { Made S.Block.group (length work.old) (state_of S.means book.old) (Write a b x area) (answered_by result) (state_of S.means book.new) }
{
    let len = area.min(work.len());
    book.write(a, b, x, &mut work[..len])?;
    Ok(Answer::Accepted)
}

fn make_read<S: WriteStore>(
    book: &Book<S>,
    a: u8,
    b: u8,
    area: usize,
    work: &mut [S::Block],
) -> Result<Answer<S::Block>, Fault>
    ensures { Made S.Block.group (length work.old) (state_of S.means book.now) (Read a b area) (answered_by result) (state_of S.means book.now) }
{
    let len = area.min(work.len());
    let mut block = S::Block::zero();
    book.read(a, b, &mut work[..len], &mut block)?;
    Ok(Answer::Given(block))
}

fn make_lose<S: WriteStore>(book: &mut Book<S>, s: u8) -> Result<Answer<S::Block>, Fault>
    ensures { (most : ℕ) → Made S.Block.group most (state_of S.means book.old) (Lose s) (answered_by result) (state_of S.means book.new) }
{
    book.lose(s)?;
    Ok(Answer::Accepted)
}

// Where there is no room or no such ticket the call is not made. Three calls say so, each for its own sort of ticket.
fn make_fit<S: WriteStore>(
    book: &mut Book<S>,
    s: u8,
    rack: &mut Rack,
) -> Result<Answer<S::Block>, Fault>
    ensures { (most : ℕ) → Made S.Block.group most (state_of S.means book.old) (Fit s) (answered_by result) (state_of S.means book.new) }
{
    if rack.make_room().is_err() {
        return Ok(Answer::NotMade);
    }
    let ticket = book.fit(s)?;
    rack.hold(Ticket::Open(ticket));
    Ok(Answer::Accepted)
}

fn make_fill<S: WriteStore>(
    book: &mut Book<S>,
    s: u8,
    area: usize,
    work: &mut [S::Block],
    rack: &mut Rack,
) -> Result<Answer<S::Block>, Fault>
    ensures { Made S.Block.group (length work.old) (state_of S.means book.old) (Fill s area) (answered_by result) (state_of S.means book.new) }
{
    if rack.make_room().is_err() {
        return Ok(Answer::NotMade);
    }
    let Some(ticket) = rack.take_open(s) else {
        return Ok(Answer::NotMade);
    };
    let len = area.min(work.len());
    match book.fill(ticket, &mut work[..len]) {
        Ok(next) => {
            rack.hold(next);
            Ok(Answer::Accepted)
        }
        Err((back, fault)) => {
            rack.hold(Ticket::Open(back));
            Err(fault)
        }
    }
}

fn make_finish<S: WriteStore>(
    book: &mut Book<S>,
    s: u8,
    rack: &mut Rack,
) -> Result<Answer<S::Block>, Fault>
    ensures { (most : ℕ) → Made S.Block.group most (state_of S.means book.old) (Finish s) (answered_by result) (state_of S.means book.new) }
{
    if rack.make_room().is_err() {
        return Ok(Answer::NotMade);
    }
    let Some(ticket) = rack.take_full(s) else {
        return Ok(Answer::NotMade);
    };
    match book.finish(ticket) {
        Ok(()) => Ok(Answer::Accepted),
        Err((back, fault)) => {
            rack.hold(Ticket::Full(back));
            Err(fault)
        }
    }
}

// An abandon is never refused.
fn make_abandon<S: WriteStore>(
    book: &mut Book<S>,
    s: u8,
    sort: Sort,
    rack: &mut Rack,
) -> Answer<S::Block>
    ensures { (most : ℕ) → Made S.Block.group most (state_of S.means book.old) (Abandon s sort) result (state_of S.means book.new) }
{
    let Some(ticket) = rack.take(s, sort) else {
        return Answer::NotMade;
    };
    if book.abandon(ticket) {
        Answer::Accepted
    } else {
        Answer::Untouched
    }
}

// Makes one call, and passes a refusal on.
fn try_call<S: WriteStore>(
    book: &mut Book<S>,
    call: Call<S::Block>,
    work: &mut [S::Block],
    rack: &mut Rack,
) -> Result<Answer<S::Block>, Fault>
    ensures { Made S.Block.group (length work.old) (state_of S.means book.old) call (answered_by result) (state_of S.means book.new) }
{
    match call {
        Call::Write { a, b, block, area } => make_write(book, a, b, block, area, work),
        Call::Read { a, b, area } => make_read(book, a, b, area, work),
        Call::Lose { station } => make_lose(book, station),
        Call::Fit { station } => make_fit(book, station, rack),
        Call::Fill { station, area } => make_fill(book, station, area, work, rack),
        Call::Finish { station } => make_finish(book, station, rack),
        Call::Abandon { station, sort } => Ok(make_abandon(book, station, sort, rack)),
    }
}

// What a call is answered, whether it is refused or not. `unwrap_or_else` was tried: the check does not cover a call that is
// passed a case of an enum over a type parameter.
fn make_call<S: WriteStore>(
    book: &mut Book<S>,
    call: Call<S::Block>,
    work: &mut [S::Block],
    rack: &mut Rack,
) -> Answer<S::Block>
    ensures { Made S.Block.group (length work.old) (state_of S.means book.old) call result (state_of S.means book.new) }
{
    match try_call(book, call, work, rack) {
        Ok(answer) => answer,
        Err(fault) => Answer::Refused(fault),
    }
}

// Makes every call of a list in turn, each answer laid beside its call. Whatever tally the book matched before, the
// promise holds from there, at every turn and at the end.
pub fn carry_on<S: WriteStore>(
    book: &mut Book<S>,
    turns: &mut [Turn<S::Block>],
    work: &mut [S::Block],
    rack: &mut Rack,
)
    ensures calls { calls_of turns.new ≡ calls_of turns.old }
    ensures promise { CarriesOn S.Block.group (length work.old) (state_of S.means book.old) turns.new (state_of S.means book.new) }
    ensures told { Tells S.Block.group (length work.old) (state_of S.means book.old) turns.new }
{
    // By place: so an edit that misses the first call is refused for what it leaves out, and not for its form.
    for i in 0..turns.len() {
        let answer = make_call(book, turns[i].call, work, rack);
        turns[i].answer = answer;
    }
}

// Opens a book and makes every call of a list: any calls with any arguments, any work area, and tickets from a rack that
// may also hold tickets from elsewhere. If the open is accepted, the client's promise holds at every turn and at the end:
// an answered read is the last accepted write to its pair, writes and reads are refused exactly as the rules say, and at
// each pair of standing stations the store holds the block of the one codeword of the last accepted writes. And every call
// is answered exactly as the tally of the accepted calls before it says, or, for want of a ticket or of room, not made.
// Refused by 2 b as open is, and then no call is made and nothing changes.
pub fn serve<S: WriteStore>(
    book: &mut Book<S>,
    turns: &mut [Turn<S::Block>],
    work: &mut [S::Block],
    rack: &mut Rack,
) -> Result<(), Fault>
    ensures answer { result ≡ open_answer (state_of S.means book.old) }
    ensures calls { calls_of turns.new ≡ calls_of turns.old }
    ensures promise { After result (Served S.Block.group (length work.old) (state_of S.means book.old) turns.new (state_of S.means book.new)) ((state_of S.means book.new ≡ state_of S.means book.old) × (turns.new ≡ turns.old) × (work.new ≡ work.old) × (rack.new ≡ rack.old)) }
    ensures told { is_ok result ≡ true → ServedTells S.Block.group (length work.old) (state_of S.means book.old) turns.new }
{
    book.open()?;
    carry_on(book, turns, work, rack);
    Ok(())
}
