// Tickets that come back from a book that was opened anew, and what open and audit refuse.
use crate::tickets::{fill_by, fill_up, finish_by, station};
use audit::Verdict;
use book::{Book, OpenTicket, Ticket};
use faults::Fault;
use kinds::BlockKind;
use std::process::Abort;
use std::test::Fail;
use store::{ReadStore, Table, WriteStore, check_table};

// A book that was made and not opened, with s and the stations after it out.
fn not_opened<S: WriteStore + Drop>(rt: &impl Abort, store: S, s: u8) {
    let mut book = Book::make(store);
    for t in s..5 {
        assert_eq!(rt; book.lose(t), Ok(()), "{}", s);
    }
    assert_eq!(rt; book.open(), Err(Fault::OutAtOpen(s)));
    assert_eq!(rt; book.audit(), Err(Fault::AbsentAtAudit(s)));
}

#[test]
fn refused_open_and_audit(rt: HostRuntime) -> Result<(), Fail> {
    for s in 0..5 {
        let mut row = [true; 15];
        check_table(5, &row)?;
        not_opened(&rt, Table::make(5, &mut row), s);
        assert!(rt; row == [true; 15]);
    }
    Ok(())
}

// The station of a ticket that came back, and the fault.
#[derive(Clone, Copy, Debug, PartialEq)]
struct Told {
    station: u8,
    fault: Option<Fault>,
}

// What a ticket that came back is told. The ticket is then spent.
fn spend<S: WriteStore>(book: &mut Book<S>, ticket: Ticket, fault: Option<Fault>) -> Told {
    let station = station(&ticket);
    let _ = book.abandon(ticket);
    Told { station, fault }
}

// An open ticket of s, which is lost before if it stands.
fn fit<S: WriteStore>(book: &mut Book<S>, s: u8) -> Result<OpenTicket, Fault> {
    let _ = book.lose(s);
    book.fit(s)
}

// What an open ticket is told at a fill when its book was opened anew.
fn tell_open<S: WriteStore>(book: &mut Book<S>, open: OpenTicket, work: &mut [S::Block]) -> Told {
    let _ = book.open();
    let (ticket, fault) = fill_by(book, Ticket::Open(open), work);
    spend(book, ticket, fault)
}

// The same of a full ticket at a finish, which is another call.
fn tell_full<S: WriteStore>(book: &mut Book<S>, full: Ticket) -> Result<Told, Fail> {
    let _ = book.open();
    match finish_by(book, full) {
        Ok(()) => Err(Fail::new("not refused")),
        Err((ticket, fault)) => Ok(spend(book, ticket, fault)),
    }
}

// What audit answers while s is being filled; s is out then.
fn audit_filling<S: WriteStore>(book: &mut Book<S>, s: u8) -> Result<Verdict, Fault> {
    let open = fit(book, s)?;
    let answer = book.audit();
    let _ = book.abandon(Ticket::Open(open));
    answer
}

fn come_back<S: WriteStore + Drop>(
    rt: &impl Abort,
    store: S,
    s: u8,
    work: &mut [S::Block],
) -> Result<(), Fail> {
    let mut book = Book::make(store);
    let refused = Told {
        station: s,
        fault: Some(Fault::TicketRefused(s)),
    };
    let open = fit(&mut book, s)?;
    assert_eq!(rt; tell_open(&mut book, open, work), refused);
    let audited = audit_filling(&mut book, s);
    assert_eq!(rt; audited, Err(Fault::AbsentAtAudit(s)), "{}", s);
    let open = fit(&mut book, s)?;
    let full = fill_up(&mut book, open, work);
    assert_eq!(rt; tell_full(&mut book, full)?, refused);
    Ok(())
}

#[test]
fn stale_tickets_come_back(rt: HostRuntime) -> Result<(), Fail> {
    for s in 0..5 {
        let mut row = [false; 15];
        check_table(5, &row)?;
        come_back(&rt, Table::make(5, &mut row), s, &mut [true; 40])?;
    }
    Ok(())
}
