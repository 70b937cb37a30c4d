// Reads, and the audit.
ghost use Rattle.std.specs.Prelude.{◌≡◌, true, false, length, is_ok};
ghost use Rattle.audit.specs.Audits.{Audited};
ghost use Rattle.book.specs.Books.{state_of};
ghost use Rattle.recovery.specs.Recovery.{recover_answer, RecoveredFrom};
ghost use Rattle.state.specs.Calls.{read_answer};
ghost use Rattle.state.specs.States.{seen};

use crate::books::Book;
use audit::{Verdict, audit_beside};
use faults::Fault;
use recovery::recover_beside;
use store::{ReadStore, WriteStore};

impl<S: WriteStore> Book<S> {
    // Recovers any pair into the caller's place, as `read` does, with the station being filled absent. Refused by 3 b, 4 s and
    // 9 b; a refusal changes nothing.
    pub(crate) fn recover(
        &self,
        a: u8,
        b: u8,
        work: &mut [S::Block],
        into: &mut S::Block,
    ) -> Result<(), Fault>
        ensures answer { result ≡ recover_answer (seen (state_of S.means self.now)) (length work.old) a b }
        ensures block { is_ok result ≡ true → RecoveredFrom S.Block.group (seen (state_of S.means self.now)) a b into.new }
        ensures into { is_ok result ≡ false → into.new ≡ into.old }
        ensures work { is_ok result ≡ false → work.new ≡ work.old }
    {
        let standing = self.standing();
        recover_beside(standing.store, standing.also, a, b, work, into)
    }

    // Recovers a data pair into the caller's place. Refused by 3 b, 4 s, 5 b and 9 b; a refusal changes nothing.
    pub fn read(
        &self,
        a: u8,
        b: u8,
        work: &mut [S::Block],
        into: &mut S::Block,
    ) -> Result<(), Fault>
        ensures answer { result ≡ read_answer (state_of S.means self.now) (length work.old) a b }
        ensures block { is_ok result ≡ true → RecoveredFrom S.Block.group (seen (state_of S.means self.now)) a b into.new }
        ensures into { is_ok result ≡ false → into.new ≡ into.old }
        ensures work { is_ok result ≡ false → work.new ≡ work.old }
    {
        self.may_touch(work.len(), a, b)?;
        self.recover(a, b, work, into)
    }

    // The first broken rule, or sound. Refused by 12 b with the smallest absent station.
    pub fn audit(&self) -> Result<Verdict, Fault>
        ensures { Audited S.Block.group (seen (state_of S.means self.now)) result }
    {
        let standing = self.standing();
        audit_beside(standing.store, standing.also)
    }
}
