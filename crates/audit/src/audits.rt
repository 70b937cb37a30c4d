// The audit of a store: the first broken rule, neighbourhoods before diagonals, each in rising order.
ghost use Rattle.std.specs.Prelude.{◌≡◌, Some};
ghost use Rattle.audit.specs.Audits.{Audited, Found, verdict_text};
ghost use Rattle.store.specs.Meaning.{AllIn, absent_of, first, is_out_of};
ghost use Rattle.store.specs.Standing.{beside};

use code::Marks;
use faults::Fault;
use kinds::BlockKind;
use std::fmt;
use store::{Beside, ReadStore, block_or_zero, next_out};

// What an audit finds: that all is sound, or a rule. It is a word of reports and lines, which an optional rule would not be.
#[derive(Clone, Copy, Debug, PartialEq, Eq)]
pub enum Verdict {
    Sound,
    BrokenNeighbourhood(u8),
    BrokenDiagonal(u8),
}

impl fmt::Display for Verdict {
    ghost output = { λ v. Some (verdict_text v) };

    fn fmt<W: fmt::Write>(&self, f: &mut fmt::Formatter<W>) -> fmt::Result {
        match *self {
            Verdict::Sound => write!(f, "sound"),
            Verdict::BrokenNeighbourhood(h) => write!(f, "broken S {h}"),
            Verdict::BrokenDiagonal(m) => write!(f, "broken D {m}"),
        }
    }
}

// The smallest station that is out.
pub fn first_absent<S: ReadStore>(store: &S) -> Option<u8>
    ensures { result ≡ first (S.means store.now).out (S.means store.now).size }
{
    next_out(store, 0)
}

// The same where the stations of `also` count as absent too: where a table's type is named, `Beside` of it cannot stand as a
// type.
pub fn first_absent_beside<S: ReadStore>(store: &S, also: Marks) -> Option<u8>
    ensures { result ≡ first (absent_of (S.means store.now) also.bits) (S.means store.now).size }
{
    first_absent(&Beside { store, also })
}

// Whether a station is out or one of `also`; a number that is no station's is not absent.
pub fn is_absent<S: ReadStore>(store: &S, also: Marks, s: u8) -> bool
    ensures { result ≡ is_out_of (beside (S.means store.now) also.bits) s }
{
    match store.is_in(s) {
        Ok(inside) => !inside || also.has(s),
        Err(_) => false,
    }
}

// The audit of a store with no station out.
fn first_broken<S: ReadStore>(store: &S) -> Verdict
    requires { AllIn (S.means store.now) }
    ensures { Found S.Block.group (S.means store.now).size (S.means store.now).block result }
{
    let n = store.size().number();
    let zero = S::Block::zero();
    // A rule of the project asks for loops over the rules and their pairs, left by a label.
    'audit: {
        for h in 0..n {
            let mut sum = zero;
            for k in 0..n {
                if k != h {
                    sum = sum.add(block_or_zero(store, h, k));
                }
            }
            if !sum.same(zero) {
                break 'audit Verdict::BrokenNeighbourhood(h);
            }
        }
        for m in 0..n {
            let mut sum = zero;
            for a in 0..n {
                let b = (m + (n - a)) % n;
                if b <= a {
                    sum = sum.add(block_or_zero(store, a, b));
                }
            }
            if !sum.same(zero) {
                break 'audit Verdict::BrokenDiagonal(m);
            }
        }
        Verdict::Sound
    }
}

// The audit where the stations in `also` count as absent too. Refused by 12 b, with the smallest absent station.
pub fn audit_beside<S: ReadStore>(store: &S, also: Marks) -> Result<Verdict, Fault>
    ensures { Audited S.Block.group (beside (S.means store.now) also.bits) result }
{
    match first_absent_beside(store, also) {
        Some(s) => Err(Fault::AbsentAtAudit(s)),
        None => Ok(first_broken(store)),
    }
}

// The audit of a store. Refused by 12 b, with the smallest station that is out.
pub fn audit<S: ReadStore>(store: &S) -> Result<Verdict, Fault>
    ensures { Audited S.Block.group (S.means store.now) result }
{
    match first_absent(store) {
        Some(s) => Err(Fault::AbsentAtAudit(s)),
        None => Ok(first_broken(store)),
    }
}
