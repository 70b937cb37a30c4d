// A rack of tickets: those that fit handed out, and any from elsewhere.
ghost use Rattle.std.specs.Prelude.{◌≡◌, ◌==◌, ◌+◌, ◌<◌, ◌≤◌, [], IfSome, OnOk, vec_len, vec_capacity, MatchOption};
ghost use Rattle.serve.specs.Racks.{Roomy, held};
ghost use Rattle.book.specs.Tickets.{station_of};

use crate::turns::Sort;
use book::{FullTicket, OpenTicket, Ticket, TicketOf};
use std::alloc::{AllocError, Global};

// Tickets are spent, so a rack is emptied by `take_any` before it is ended.
pub struct Rack {
    open: Vec<OpenTicket>,
    full: Vec<FullTicket>,
}

// The first ticket of station s, out of a list.
fn take_from<const FULL: bool>(tickets: &mut Vec<TicketOf<FULL>>, s: u8) -> Option<TicketOf<FULL>>
    ensures station { IfSome result (λ t. t.station ≡ s) }
    ensures fewer { vec_len tickets.new ≤ vec_len tickets.old }
    ensures capacity { vec_capacity tickets.new ≡ vec_capacity tickets.old }
{
    let i = tickets.iter().position(
        |ticket| -> bool
            ensures { result ≡ (ticket.now.station == s) }
        { ticket.station() == s },
    )?;
    Some(tickets.remove(i))
}

impl Rack {
    pub fn new(heap: Global) -> Self
        ensures open { result.open.items ≡ [] }
        ensures full { result.full.items ≡ [] }
    {
        Rack {
            open: Vec::new(heap),
            full: Vec::new(heap),
        }
    }

    // Room for one more ticket of each sort.
    pub(crate) fn make_room(&mut self) -> Result<(), AllocError>
        ensures { OnOk result (Roomy self.new) }
    {
        self.open.reserve(1)?;
        self.full.reserve(1)
    }

    // An open ticket of station s.
    pub(crate) fn take_open(&mut self, s: u8) -> Option<OpenTicket>
        ensures station { IfSome result (λ t. t.station ≡ s) }
        ensures room { Roomy self.old → Roomy self.new }
    {
        take_from(&mut self.open, s)
    }

    // A full ticket of station s.
    pub(crate) fn take_full(&mut self, s: u8) -> Option<FullTicket>
        ensures station { IfSome result (λ t. t.station ≡ s) }
        ensures room { Roomy self.old → Roomy self.new }
    {
        take_from(&mut self.full, s)
    }

    // A ticket of station s of the sort that is wanted.
    pub(crate) fn take(&mut self, s: u8, sort: Sort) -> Option<Ticket>
        ensures { IfSome result (λ t. station_of t ≡ s) }
    {
        match sort {
            Sort::Open => self.take_open(s).map(Ticket::Open),
            Sort::Full => self.take_full(s).map(Ticket::Full),
        }
    }

    // Keeps a ticket.
    pub(crate) fn hold(&mut self, ticket: Ticket)
        requires { Roomy self.old }
    {
        match ticket {
            Ticket::Open(open) => self.open.push_reserved(open),
            Ticket::Full(full) => self.full.push_reserved(full),
        }
    }

    // Any ticket, while there is one.
    pub fn take_any(&mut self) -> Option<Ticket>
        ensures { MatchOption result ((held self.old ≡ 0) × (held self.new ≡ 0)) (λ _. held self.new + 1 ≡ held self.old) }
    {
        match self.open.pop() {
            Some(ticket) => Some(Ticket::Open(ticket)),
            None => self.full.pop().map(Ticket::Full),
        }
    }

    // Ends a rack that holds no ticket.
    pub fn end(self)
        requires { held self ≡ 0 }
    {
        let Rack { open, full } = self;
        open.destroy_empty();
        full.destroy_empty();
    }
}
