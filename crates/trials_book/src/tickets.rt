// Calls made one by one: tickets are handed back, and the caller's place and work area stay.
use audit::Verdict;
use book::{Book, OpenTicket, Ticket};
use faults::Fault;
use kinds::BlockKind;
use std::process::Abort;
use std::test::Fail;
use store::{ReadStore, Table, WriteStore, check_table};

// Open and audit name the smallest station that is absent, here s.
fn opened<S: WriteStore + Drop>(rt: &impl Abort, store: S, s: u8) -> Result<(), Fail> {
    let mut book = Book::make(store);
    assert_eq!(rt; book.open(), Ok(()), "{}", s);
    assert_eq!(rt; book.audit(), Ok(Verdict::Sound), "{}", s);
    assert_eq!(rt; book.lose(4), Ok(()), "{}", s);
    if s < 4 {
        assert_eq!(rt; book.lose(s), Ok(()), "{}", s);
    }
    assert_eq!(rt; book.open(), Err(Fault::OutAtOpen(s)), "{}", s);
    assert_eq!(rt; book.audit(), Err(Fault::AbsentAtAudit(s)), "{}", s);
    Ok(())
}

#[test]
fn open_and_audit(rt: HostRuntime) -> Result<(), Fail> {
    for s in 0..5 {
        let mut row = [true; 15];
        check_table(5, &row)?;
        opened(&rt, Table::make(5, &mut row), s)?;
    }
    Ok(())
}

fn all_same<B: BlockKind>(blocks: &[B], x: B) -> bool {
    blocks.iter().all(|block| x.same(*block))
}

// A refused read or write leaves the caller's place and the work area, all of them x, as they were.
fn refused<S: WriteStore>(
    rt: &impl Abort,
    book: &mut Book<S>,
    a: u8,
    b: u8,
    work: &mut [S::Block],
    x: S::Block,
    fault: Fault,
) {
    let mut into = x;
    assert_eq!(rt; book.read(a, b, work, &mut into), Err(fault), "{}", a);
    assert!(rt; into.same(x));
    assert!(rt; all_same(work, x));
    assert_eq!(rt; book.write(a, b, x, work), Err(fault), "{}", a);
    assert!(rt; all_same(work, x));
}

fn three_lost<S: WriteStore + Drop>(
    rt: &impl Abort,
    store: S,
    work: &mut [S::Block],
    x: S::Block,
) -> Result<(), Fail> {
    let mut book = Book::make(store);
    for s in [1, 3, 4] {
        book.lose(s)?;
    }
    assert!(rt; work.len() == 40);
    let cases = [
        (7, 9, 39, Fault::AreaTooShort(39)),
        (7, 9, 40, Fault::NoSuchStation(7)),
        (4, 5, 40, Fault::NoSuchStation(5)),
        (2, 4, 40, Fault::CheckPair(4)),
        (1, 0, 40, Fault::TooManyAbsent(3)),
        (1, 1, 40, Fault::TooManyAbsent(3)),
    ];
    for (a, b, len, fault) in cases {
        refused(rt, &mut book, a, b, &mut work[0..len], x, fault);
    }
    Ok(())
}

#[test]
fn refused_reads_and_writes(rt: HostRuntime) -> Result<(), Fail> {
    let mut row = [false; 15];
    check_table(5, &row)?;
    let mut work = [true; 40];
    three_lost(&rt, Table::make(5, &mut row), &mut work, true)
}

// The ticket that comes out of a call or back from it, and the fault that refused the call. A struct would be no plainer:
// a ticket cannot be let go, so each use takes the two apart at once.
type Handed = (Ticket, Option<Fault>);

// Fills by an open ticket. The book and the work area make no struct: a ticket is tried at other books and in shorter areas.
pub fn fill_by<S: WriteStore>(book: &mut Book<S>, ticket: Ticket, work: &mut [S::Block]) -> Handed {
    match ticket {
        Ticket::Open(open) => match book.fill(open, work) {
            Ok(next) => (next, None),
            Err((back, fault)) => (Ticket::Open(back), Some(fault)),
        },
        Ticket::Full(full) => (Ticket::Full(full), None),
    }
}

// Fills by an open ticket, and by each that comes out, five times.
pub fn fill_up<S: WriteStore>(
    book: &mut Book<S>,
    open: OpenTicket,
    work: &mut [S::Block],
) -> Ticket {
    let mut ticket = Ticket::Open(open);
    for _ in 0..5 {
        let (next, _) = fill_by(book, ticket, work);
        ticket = next;
    }
    ticket
}

// Finishes by a full ticket, or hands the ticket back.
pub fn finish_by<S: WriteStore>(book: &mut Book<S>, ticket: Ticket) -> Result<(), Handed> {
    match ticket {
        Ticket::Full(full) => {
            let answer = book.finish(full);
            answer.map_err(|(back, fault)| (Ticket::Full(back), Some(fault)))
        }
        Ticket::Open(open) => Err((Ticket::Open(open), None)),
    }
}

pub fn station(ticket: &Ticket) -> u8 {
    match ticket {
        Ticket::Open(open) => open.station(),
        Ticket::Full(full) => full.station(),
    }
}

// An open ticket at other books: 3 comes before 10, and 10 before 9. It comes back each time, and its own book takes it.
fn stale_open<S: WriteStore + Drop>(
    rt: &impl Abort,
    own_store: S,
    lost_store: S,
    s: u8,
    short: &mut [S::Block],
    work: &mut [S::Block],
) -> Result<(), Fail> {
    let mut own = Book::make(own_store);
    let mut lost = Book::make(lost_store);
    for t in [0, 2, 3] {
        lost.lose(t)?;
    }
    own.lose(s)?;
    let fitted = Ticket::Open(own.fit(s)?);
    let (one, first) = fill_by(&mut lost, fitted, short);
    let (two, second) = fill_by(&mut lost, one, work);
    let (three, third) = fill_by(&mut own, two, work);
    let same = station(&three);
    let touched = lost.abandon(three);
    assert_eq!(rt; first, Some(Fault::AreaTooShort(39)), "{}", s);
    assert_eq!(rt; second, Some(Fault::TicketRefused(s)), "{}", s);
    assert_eq!(rt; third, None, "{}", s);
    assert_eq!(rt; same, s);
    assert!(rt; !touched, "{}", s);
    assert_eq!(rt; lost.audit(), Err(Fault::AbsentAtAudit(0)), "{}", s);
    assert_eq!(rt; own.lose(s), Err(Fault::AlreadyAbsent(s)), "{}", s);
    assert_eq!(rt; own.audit(), Err(Fault::AbsentAtAudit(s)), "{}", s);
    Ok(())
}

#[test]
fn stale_open_tickets(rt: HostRuntime) -> Result<(), Fail> {
    for s in 0..5 {
        let mut row = [false; 15];
        let mut other = [false; 15];
        check_table(5, &row)?;
        check_table(5, &other)?;
        let own = Table::make(5, &mut row);
        let lost = Table::make(5, &mut other);
        stale_open(&rt, own, lost, s, &mut [true; 39], &mut [true; 40])?;
    }
    Ok(())
}

// The fault by which a book refuses a full ticket that its own book then takes.
fn told<S: WriteStore>(
    ticket: Ticket,
    other: &mut Book<S>,
    own: &mut Book<S>,
) -> Result<Option<Fault>, Fail> {
    match finish_by(other, ticket) {
        Ok(()) => Err(Fail::new("not refused")),
        Err((back, fault)) => match finish_by(own, back) {
            Ok(()) => Ok(fault),
            Err((rest, _)) => {
                let _ = own.abandon(rest);
                Err(Fail::new("not taken"))
            }
        },
    }
}

// A full ticket at another book, where the filling of its station has just begun.
fn stale_full<S: WriteStore + Drop>(
    rt: &impl Abort,
    own_store: S,
    begun_store: S,
    s: u8,
    work: &mut [S::Block],
) -> Result<(), Fail> {
    let mut own = Book::make(own_store);
    let mut begun = Book::make(begun_store);
    own.lose(s)?;
    begun.lose(s)?;
    let begins = Ticket::Open(begun.fit(s)?);
    let (half, _) = fill_by(&mut begun, begins, work);
    // Ended at a book that is not filling, so that its own goes on.
    let touched = own.abandon(half);
    assert!(rt; !touched, "{}", s);
    let open = own.fit(s)?;
    let full = fill_up(&mut own, open, work);
    let fault = told(full, &mut begun, &mut own)?;
    assert_eq!(rt; fault, Some(Fault::TicketRefused(s)), "{}", s);
    assert_eq!(rt; own.audit(), Ok(Verdict::Sound), "{}", s);
    assert_eq!(rt; begun.audit(), Err(Fault::AbsentAtAudit(s)), "{}", s);
    Ok(())
}

#[test]
fn stale_full_tickets(rt: HostRuntime) -> Result<(), Fail> {
    for s in 0..5 {
        let mut row = [false; 15];
        let mut other = [false; 15];
        check_table(5, &row)?;
        check_table(5, &other)?;
        let own = Table::make(5, &mut row);
        let begun = Table::make(5, &mut other);
        stale_full(&rt, own, begun, s, &mut [true; 40])?;
    }
    Ok(())
}
