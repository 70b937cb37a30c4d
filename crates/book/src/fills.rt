// Filling: the lost pairs of a new station, one partner at a time.
ghost use Rattle.std.specs.Prelude.{◌≡◌, ◌*◌, ◌≤◌, false, length, is_ok, IfOk, IfErr, if◌then◌else◌, OnErr, OnOk};
ghost use Rattle.book.specs.Books.{state_of};
ghost use Rattle.book.specs.Tickets.{ticket_after};
ghost use Rattle.state.specs.Calls.{told, too_many, fill_answer, CanFill, Filled, FilledNext};
ghost use Rattle.state.specs.Fillings.{next_of, stepped};
ghost use Rattle.state.specs.States.{Sound};

use crate::books::Book;
use crate::tickets::{OpenTicket, Ticket, advance};
use faults::Fault;
use kinds::BlockKind;
use state::Filling;
use store::{ReadStore, WriteStore};

impl<S: WriteStore> Book<S> {
    // Recovers the pair of t, being filled, with a partner, and puts it if that partner is in.
    fn fill_pair(&mut self, t: u8, next: u8, work: &mut [S::Block])
        ensures store { CanFill (state_of S.means self.old) t next (length work.old) → Filled S.Block.group (state_of S.means self.old) t next (S.means self.new.store) }
        ensures filling { self.new.filling ≡ self.old.filling }
    {
        let mut block = S::Block::zero();
        if self.recover(t, next, work, &mut block).is_ok() {
            // Refused, and so left out, where the partner is out.
            let _ = self.store.put(t, next, block);
        }
    }

    // Recovers the pair with the next partner, and puts it if that partner is in.
    fn fill_next(&mut self, work: &mut [S::Block])
        ensures store { Sound (state_of S.means self.old) → 8 * (S.means self.old.store).size ≤ length work.old → too_many (state_of S.means self.old) ≡ false → FilledNext S.Block.group (state_of S.means self.old) self.old.filling (S.means self.new.store) }
        ensures filling { self.new.filling ≡ self.old.filling }
    {
        match self.filling {
            Some(Filling { station, next }) if next < self.store.size().number() => {
                self.fill_pair(station, next, work)
            }
            _ => {}
        }
    }

    // One step of the filling of the ticket's station. Hands out the open ticket, or a full one when the next partner is n;
    // if it was n before, only the ticket is exchanged. Refused by 3 b, 10 b and 9 b, and then the ticket is handed back
    // and nothing changed.
    pub fn fill(
        &mut self,
        ticket: OpenTicket,
        work: &mut [S::Block],
    ) -> Result<Ticket, (OpenTicket, Fault)>
        ensures answer { told result ≡ fill_answer (state_of S.means self.old) (length work.old) ticket.station }
        ensures back { IfErr result (λ e. e.0 ≡ ticket) }
        ensures ticket { IfOk result (λ t. t ≡ ticket_after (S.means self.old.store).size (next_of self.new.filling) ticket.station) }
        ensures filling { self.new.filling ≡ (if is_ok result then stepped (S.means self.old.store).size self.old.filling else self.old.filling) }
        ensures store { Sound (state_of S.means self.old) → OnOk result (FilledNext S.Block.group (state_of S.means self.old) self.old.filling (S.means self.new.store)) }
        ensures same { OnErr result ((self.new.store ≡ self.old.store) × (work.new ≡ work.old)) }
    {
        if let Err(fault) = self.may_fill(work.len(), ticket.station()) {
            return Err((ticket, fault));
        }
        let n = self.store.size().number();
        self.fill_next(work);
        Ok(advance(&mut self.filling, n, ticket))
    }
}
