// The roll of a store: how many stations there are, and which of them are out; and what is refused on that.
ghost use Rattle.std.specs.Prelude.{◌≡◌, ◌<◌, true, false, IfOk};
ghost use Rattle.code.specs.Marks.{marked};
ghost use Rattle.code.specs.Places.{pair_place};
ghost use Rattle.code.specs.Sizes.{pairs as pair_count};
ghost use Rattle.store.specs.Meaning.{After, present_answer, mark_answer, pair_answer, out_answer, back_answer};
ghost use Rattle.store.specs.Rolls.{Turned};

use code::{Marks, Size};
use faults::Fault;

// The stations of a store, and the set of those that are out.
#[derive(Clone, Copy, Debug)]
pub struct Roll {
    pub size: Size,
    pub out: Marks,
}

impl Roll {
    // Refused by 11 s where the station is out.
    fn admit_present(self, s: u8) -> Result<(), Fault>
        ensures { result ≡ present_answer (marked self.out.bits) s }
    {
        if self.out.has(s) {
            return Err(Fault::StationOut(s));
        }
        Ok(())
    }

    // Refused by 4 s.
    pub fn is_in(self, s: u8) -> Result<bool, Fault>
        ensures { result ≡ mark_answer self.size.number (marked self.out.bits) s }
    {
        self.size.admit(s)?;
        Ok(!self.out.has(s))
    }

    // Get and put: refused by 4 s, with the first number that is too large, and by 11 s, with the smaller station that is out.
    // `ReadStore::admit_pair` of a store with a roll: an image so reads its header once, and not four times.
    pub fn admit_pair(self, a: u8, b: u8) -> Result<(), Fault>
        ensures answer { result ≡ pair_answer self.size.number (marked self.out.bits) a b }
        ensures place { IfOk result (λ _. pair_place a b < pair_count self.size.number) }
    {
        self.size.admit(a)?;
        self.size.admit(b)?;
        self.admit_present(a.min(b))?;
        self.admit_present(a.max(b))
    }

    // Take out: refused by 4 s, and by 6 s where the station is out.
    pub fn admit_out(self, s: u8) -> Result<(), Fault>
        ensures { result ≡ out_answer self.size.number (marked self.out.bits) s }
    {
        if !self.is_in(s)? {
            return Err(Fault::AlreadyOut(s));
        }
        Ok(())
    }

    // Bring in: refused by 4 s, and by 7 s where the station is not out.
    pub fn admit_in(self, s: u8) -> Result<(), Fault>
        ensures { result ≡ back_answer self.size.number (marked self.out.bits) s }
    {
        if self.is_in(s)? {
            return Err(Fault::AlreadyIn(s));
        }
        Ok(())
    }

    // Makes station s out, if that is admitted. With `bring_in` it is two calls, as in `WriteStore`: their refusals differ.
    pub fn take_out(&mut self, s: u8) -> Result<(), Fault>
        ensures answer { result ≡ out_answer self.old.size.number (marked self.old.out.bits) s }
        ensures after { After result (Turned self.old s true self.new) (self.new ≡ self.old) }
    {
        self.admit_out(s)?;
        self.out = self.out.with(s, true);
        Ok(())
    }

    // Makes station s in, if that is admitted.
    pub fn bring_in(&mut self, s: u8) -> Result<(), Fault>
        ensures answer { result ≡ back_answer self.old.size.number (marked self.old.out.bits) s }
        ensures after { After result (Turned self.old s false self.new) (self.new ≡ self.old) }
    {
        self.admit_in(s)?;
        self.out = self.out.with(s, false);
        Ok(())
    }
}
