// The tickets.
ghost use Rattle.std.specs.Prelude.{◌≡◌, true};
ghost use Rattle.book.specs.Tickets.{station_of, ticket_after};
ghost use Rattle.state.specs.Fillings.{stepped, next_of};
ghost use Rattle.state.specs.States.{being_filled};

use state::Filling;

// A ticket bears only its station, and is spent by finish or abandon. It is full when there is no partner left.
pub struct TicketOf<const FULL: bool> {
    pub(crate) station: u8,
}

// What fit hands out.
pub type OpenTicket = TicketOf<false>;

// What fill hands out when there is no partner left. Finish takes only this one.
pub type FullTicket = TicketOf<true>;

// Either ticket.
pub enum Ticket {
    Open(OpenTicket),
    Full(FullTicket),
}

impl<const FULL: bool> TicketOf<FULL> {
    pub(crate) fn issue(station: u8) -> Self
        ensures { result.station ≡ station }
    {
        TicketOf { station }
    }

    pub fn station(&self) -> u8
        ensures { result ≡ self.now.station }
    {
        self.station
    }

    // Ends the ticket, and gives its station.
    pub(crate) fn spend(self) -> u8
        ensures { result ≡ self.entry.station }
    {
        let TicketOf { station } = self;
        station
    }
}

impl Ticket {
    // Ends the ticket, and gives its station.
    pub(crate) fn spend(self) -> u8
        ensures { result ≡ station_of self }
    {
        match self {
            Ticket::Open(ticket) => ticket.spend(),
            Ticket::Full(ticket) => ticket.spend(),
        }
    }
}

// Steps the next partner on by one, up to n, and gives the ticket for what is then left to fill.
pub(crate) fn advance(filling: &mut Option<Filling>, n: u8, ticket: OpenTicket) -> Ticket
    requires { being_filled filling.old ticket.station ≡ true }
    ensures filling { filling.new ≡ stepped n filling.old }
    ensures ticket { result ≡ ticket_after n (next_of filling.new) ticket.station }
{
    match (filling, ticket) {
        (Some(f), open) if f.next < n => {
            f.next += 1;
            if f.next < n {
                Ticket::Open(open)
            } else {
                Ticket::Full(FullTicket::issue(open.spend()))
            }
        }
        (_, open) => Ticket::Full(FullTicket::issue(open.spend())),
    }
}
