// The book, and the calls that recover nothing.
ghost use Rattle.std.specs.Prelude.{◌≡◌, None, true, false, is_ok, IfOk, IfErr, if◌then◌else◌};
ghost use Rattle.book.specs.Books.{state_of};
ghost use Rattle.state.specs.Calls.{answered, told, lose_answer, fit_answer, finish_answer};
ghost use Rattle.state.specs.States.{filling_at, AbsentOut};
ghost use Rattle.store.specs.Meaning.{After, Remarked};
ghost use Rattle.store.specs.Standing.{beside};

use crate::tickets::{FullTicket, OpenTicket};
use code::Size;
use faults::Fault;
use state::{Filling, fills, marks};
use store::{Beside, ReadStore, WriteStore};

// A book over a store, with the record of the filling.
#[derive(Drop)]
pub struct Book<S> {
    pub(crate) store: S,
    pub(crate) filling: Option<Filling>,
}

impl<S: WriteStore> Book<S> {
    // A book with no filling.
    pub fn make(store: S) -> Self
        ensures store { result.store ≡ store }
        ensures filling { result.filling ≡ None }
    {
        Book {
            store,
            filling: None,
        }
    }

    // How many stations there are.
    pub fn size(&self) -> Size
        ensures { result.number ≡ (S.means self.now.store).size }
    {
        self.store.size()
    }

    // The store with the absent stations out.
    pub(crate) fn standing(&self) -> Beside<'_, S>
        ensures { AbsentOut (state_of S.means self.now) (beside (S.means result.store.now) result.also.bits) }
    {
        Beside {
            store: &self.store,
            also: marks(self.filling, self.store.size()),
        }
    }

    // Takes a standing station out. Refused by 4 s and 6 b.
    pub fn lose(&mut self, s: u8) -> Result<(), Fault>
        ensures answer { result ≡ lose_answer (state_of S.means self.old) s }
        ensures after { After result (Remarked (S.means self.old.store) s true (S.means self.new.store)) (S.means self.new.store ≡ S.means self.old.store) }
        ensures filling { self.new.filling ≡ self.old.filling }
    {
        if !self.store.is_in(s)? || fills(self.filling, s) {
            return Err(Fault::AlreadyAbsent(s));
        }
        self.store.take_out(s)
    }

    // Brings a station in that is out, and starts its filling at partner 0. Refused by 4 s, 7 b, 8 b and 9 b.
    pub fn fit(&mut self, s: u8) -> Result<OpenTicket, Fault>
        ensures answer { answered result ≡ fit_answer (state_of S.means self.old) s }
        ensures ticket { IfOk result (λ t. t.station ≡ s) }
        ensures after { After result (Remarked (S.means self.old.store) s false (S.means self.new.store)) (S.means self.new.store ≡ S.means self.old.store) }
        ensures filling { self.new.filling ≡ (if is_ok result then filling_at s 0 else self.old.filling) }
    {
        self.may_fit(s)?;
        self.store.bring_in(s)?;
        self.filling = Some(Filling {
            station: s,
            next: 0,
        });
        Ok(OpenTicket::issue(s))
    }

    // Ends the filling of the ticket's station, which then stands. Refused by 10 b, and then the ticket is handed back.
    pub fn finish(&mut self, ticket: FullTicket) -> Result<(), (FullTicket, Fault)>
        ensures answer { told result ≡ finish_answer (state_of S.means self.old) ticket.station }
        ensures ticket { IfErr result (λ e. e.0 ≡ ticket) }
        ensures store { self.new.store ≡ self.old.store }
        ensures filling { self.new.filling ≡ (if is_ok result then None else self.old.filling) }
    {
        let n = self.store.size().number();
        match (&mut self.filling, ticket) {
            (Some(filling), full) if filling.station == full.station && filling.next == n => {
                full.spend();
                self.filling = None;
                Ok(())
            }
            (_, back) => {
                let fault = Fault::TicketRefused(back.station());
                Err((back, fault))
            }
        }
    }
}
