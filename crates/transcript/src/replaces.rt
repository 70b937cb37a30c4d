// Replacing a station: fit it, fill its pairs, finish it.
ghost use Rattle.std.specs.Prelude.{◌≡◌, ◌*◌, ◌≤◌, true, false, cond, length, is_ok};
ghost use Rattle.book.specs.Books.{state_of};
ghost use Rattle.store.specs.Meaning.{After};
ghost use Rattle.transcript.specs.Replaces.{CanFillUp, FilledUp, replace_answer, Replaced};

use book::{Book, FullTicket, OpenTicket, Ticket};
use faults::Fault;
use kinds::BlockKind;
use recovery::admit_area;
use store::{ReadStore, WriteStore};

// Fills with one partner after another, until the ticket is full. The book and the work area are two parameters, as where
// requests are made.
fn fill_up<S: WriteStore>(
    book: &mut Book<S>,
    mut ticket: OpenTicket,
    work: &mut [S::Block],
) -> Result<FullTicket, (OpenTicket, Fault)>
    ensures { CanFillUp (state_of S.means book.old) ticket.station (length work.old) → FilledUp S.Block.group (state_of S.means book.old) ticket.station result (state_of S.means book.new) }
{
    for _ in 0..book.size().number() {
        match book.fill(ticket, work)? {
            Ticket::Open(same) => ticket = same,
            Ticket::Full(full) => return Ok(full),
        }
    }
    let fault = Fault::TicketRefused(ticket.station());
    Err((ticket, fault))
}

// Abandons a ticket, and passes a refusal on. Where a station was fitted, neither a fill nor the finish is refused: the contracts
// of the book show it, and a ticket has to be spent there all the same.
fn give_up<S: WriteStore>(book: &mut Book<S>, ticket: Ticket, fault: Fault) -> Result<(), Fault> {
    let _ = book.abandon(ticket);
    Err(fault)
}

// Fits a station that is out, fills it with one partner after another, and finishes it. Refused by 3 b if the work area is
// under 8 n blocks, and then as fit is, by 4 s, 7 b, 8 b and 9 b; a refusal changes nothing.
pub fn replace<S: WriteStore>(book: &mut Book<S>, s: u8, work: &mut [S::Block]) -> Result<(), Fault>
    ensures answer { result ≡ replace_answer (state_of S.means book.old) (length work.old) s }
    ensures after { After result (Replaced S.Block.group (state_of S.means book.old) s (state_of S.means book.new)) (state_of S.means book.new ≡ state_of S.means book.old) }
    ensures work { is_ok result ≡ false → work.new ≡ work.old }
{
    admit_area(book.size(), work.len())?;
    let ticket = book.fit(s)?;
    match fill_up(book, ticket, work) {
        Ok(full) => match book.finish(full) {
            Ok(()) => Ok(()),
            Err((back, fault)) => give_up(book, Ticket::Full(back), fault),
        },
        Err((back, fault)) => give_up(book, Ticket::Open(back), fault),
    }
}
