// The interfaces of stores. A store means a size, a mark in or out for each station, and a block for each pair.
ghost use Rattle.std.specs.Prelude.{◌≡◌, true, false, is_ok, if◌then◌else◌};
ghost use Rattle.code.specs.Rules.{of};
ghost use Rattle.store.specs.Meaning.{Meaning, AfterPut, AfterMark, in_answer, is_out_of, get_answer, take_out_answer, bring_in_answer};

use code::Size;
use faults::Fault;
use kinds::BlockKind;

// A store for reading. Its questions change nothing. A pair goes by two numbers in the caller's order, and not as a `Pair`:
// a refusal names the first that is no station.
pub trait ReadStore {
    type Block: BlockKind;

    ghost means: { Self → Meaning Self.Block };

    fn size(&self) -> Size
        ensures { result.number ≡ (means self.now).size };

    // Refused by 4 s.
    fn is_in(&self, s: u8) -> Result<bool, Fault>
        ensures { result ≡ in_answer (means self.now) s };

    // Whether there is a station s that is out.
    fn is_out(&self, s: u8) -> bool
        ensures { result ≡ is_out_of (means self.now) s }
    {
        matches!(self.is_in(s), Ok(false))
    }

    // Get and put: refused by 4 s, with the first number that is too large, and by 11 s, with the smaller station that is out.
    fn admit_pair(&self, a: u8, b: u8) -> Result<(), Fault>
        ensures { result ≡ get_answer (means self.now) a b }
    {
        self.is_in(a)?;
        self.is_in(b)?;
        let (smaller, larger) = (a.min(b), a.max(b));
        if self.is_out(smaller) {
            return Err(Fault::StationOut(smaller));
        }
        if self.is_out(larger) {
            return Err(Fault::StationOut(larger));
        }
        Ok(())
    }

    // Lays the pair's block in the caller's place, by a rule of the project, and answers none. Refused by 4 s and 11 s, and then
    // the place is as it was.
    fn get(&self, a: u8, b: u8, into: &mut Self::Block) -> Result<(), Fault>
        ensures answer { result ≡ get_answer (means self.now) a b }
        ensures into { into.new ≡ (if is_ok result then of (means self.now).block a b else into.old) };
}

// A store for writing. A refusal changes nothing. Take out and bring in stay two calls: their refusals differ, and one call with a
// flag would be no plainer.
pub trait WriteStore: ReadStore {
    // Refused as `get` is; else the pair holds the block, and all else stays.
    fn put(&mut self, a: u8, b: u8, x: Self::Block) -> Result<(), Fault>
        ensures answer { result ≡ get_answer (Self.means self.old) a b }
        ensures after { AfterPut (Self.means self.old) a b x result (Self.means self.new) };

    // Makes station s out. Refused by 4 s and 6 s.
    fn take_out(&mut self, s: u8) -> Result<(), Fault>
        ensures answer { result ≡ take_out_answer (Self.means self.old) s }
        ensures after { AfterMark (Self.means self.old) s true result (Self.means self.new) };

    // Makes station s in. Refused by 4 s and 7 s.
    fn bring_in(&mut self, s: u8) -> Result<(), Fault>
        ensures answer { result ≡ bring_in_answer (Self.means self.old) s }
        ensures after { AfterMark (Self.means self.old) s false result (Self.means self.new) };
}
