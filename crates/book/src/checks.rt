// What the calls look at before they change anything.
ghost use Rattle.std.specs.Prelude.{◌≡◌, Ok};
ghost use Rattle.book.specs.Books.{state_of};
ghost use Rattle.state.specs.Calls.{few_answer, data_answer, write_answer, fit_answer, fill_answer};

use crate::books::Book;
use faults::Fault;
use recovery::{admit_area, admit_data, few_absent};
use state::{Filling, fills};
use store::{ReadStore, WriteStore};

impl<S: WriteStore> Book<S> {
    // Refused by 9 b if three or more stations are absent.
    pub(crate) fn few_absent(&self) -> Result<(), Fault>
        ensures { result ≡ few_answer (state_of S.means self.now) }
    {
        few_absent(&self.standing())
    }

    // What read and write look at first: 3 b, 4 s and 5 b, in this order.
    pub(crate) fn may_touch(&self, len: usize, a: u8, b: u8) -> Result<(), Fault>
        ensures { result ≡ data_answer (state_of S.means self.now) len a b (Ok tt) }
    {
        let size = self.store.size();
        admit_area(size, len)?;
        admit_data(size, a, b)
    }

    // The checks of write: 3 b, 4 s, 5 b and 9 b, in this order.
    pub(crate) fn may_write(&self, len: usize, a: u8, b: u8) -> Result<(), Fault>
        ensures { result ≡ write_answer (state_of S.means self.now) len a b }
    {
        self.may_touch(len, a, b)?;
        self.few_absent()
    }

    // The checks of fit: 4 s, 7 b, 8 b and 9 b, in this order.
    pub(crate) fn may_fit(&self, s: u8) -> Result<(), Fault>
        ensures { result ≡ fit_answer (state_of S.means self.now) s }
    {
        if self.store.is_in(s)? {
            return Err(Fault::NotOut(s));
        }
        if let Some(Filling { station, .. }) = self.filling {
            return Err(Fault::FillingUnderWay(station));
        }
        self.few_absent()
    }

    // The checks of fill: 3 b, 10 b and 9 b, in this order.
    pub(crate) fn may_fill(&self, len: usize, t: u8) -> Result<(), Fault>
        ensures { result ≡ fill_answer (state_of S.means self.now) len t }
    {
        admit_area(self.store.size(), len)?;
        if !fills(self.filling, t) {
            return Err(Fault::TicketRefused(t));
        }
        self.few_absent()
    }
}
