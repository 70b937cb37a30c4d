// Abandoning a ticket.
ghost use Rattle.std.specs.Prelude.{◌≡◌, true, false, None, if◌then◌else◌};
ghost use Rattle.book.specs.Books.{state_of};
ghost use Rattle.book.specs.Tickets.{station_of};
ghost use Rattle.state.specs.States.{being_filled, Sound};
ghost use Rattle.store.specs.Meaning.{Remarked};

use crate::books::Book;
use crate::tickets::Ticket;
use store::{ReadStore, WriteStore};

impl<S: WriteStore> Book<S> {
    // Ends either ticket; always accepted. If its station is being filled, that station is taken out and there is no
    // filling, and the answer is true; otherwise nothing changes, and the answer is false.
    pub fn abandon(&mut self, ticket: Ticket) -> bool
        ensures answer { result ≡ being_filled self.old.filling (station_of ticket) }
        ensures filling { self.new.filling ≡ (if result then None else self.old.filling) }
        ensures store { Sound (state_of S.means self.old) → result ≡ true → Remarked (S.means self.old.store) (station_of ticket) true (S.means self.new.store) }
        ensures same { result ≡ false → self.new ≡ self.old }
    {
        match (&mut self.filling, ticket.spend()) {
            (Some(filling), s) if filling.station == s => {
                self.filling = None;
                // Accepted, as a station being filled is in.
                let _ = self.store.take_out(s);
                true
            }
            _ => false,
        }
    }
}
