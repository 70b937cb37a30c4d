// The absent stations of a store: those that are out.
ghost use Rattle.std.specs.Prelude.{◌≡◌, ◌≢◌, MatchOption};
ghost use Rattle.recovery.specs.Recovery.{AbsentMarks, absent_in, few_answer, Two};
ghost use Rattle.store.specs.Standing.{beside};

use code::{Marks, Pair};
use faults::Fault;
use store::{Beside, ReadStore, next_out};

// Their marks, and no other's.
pub fn absent_marks<S: ReadStore>(store: &S) -> Marks
    ensures { AbsentMarks (S.means store.now) result.bits }
{
    // A fold was tried, and its proof does not close: `with` says what a set marks, and not which value it is.
    let mut absent = Marks::none();
    for s in 0..store.size().number() {
        absent = absent.with(s, store.is_out(s));
    }
    absent
}

// The same where the stations of `also` are absent too: where a table's type is named, `Beside` of it cannot stand as a type.
pub fn absent_marks_beside<S: ReadStore>(store: &S, also: Marks) -> Marks
    ensures { AbsentMarks (beside (S.means store.now) also.bits) result.bits }
{
    absent_marks(&Beside { store, also })
}

// How many stations are absent.
pub fn count_absent<S: ReadStore>(store: &S) -> u8
    ensures { result ≡ absent_in (S.means store.now) }
{
    (0..store.size().number())
        .filter(|&s| store.is_out(s))
        .count() as u8
}

// The same where the stations of `also` are absent too.
pub fn count_absent_beside<S: ReadStore>(store: &S, also: Marks) -> u8
    ensures { result ≡ absent_in (beside (S.means store.now) also.bits) }
{
    count_absent(&Beside { store, also })
}

// Refused by 9 b if three or more stations are absent.
pub fn few_absent<S: ReadStore>(store: &S) -> Result<(), Fault>
    ensures { result ≡ few_answer (S.means store.now) }
{
    let count = count_absent(store);
    if count > 2 {
        return Err(Fault::TooManyAbsent(count));
    }
    Ok(())
}

// The two absent stations, if there are just two.
pub(crate) fn two_absent<S: ReadStore>(store: &S) -> Option<Pair>
    ensures { MatchOption result (absent_in (S.means store.now) ≢ 2) (λ x. Two (S.means store.now) x × (absent_in (S.means store.now) ≡ 2)) }
{
    if count_absent(store) != 2 {
        return None;
    }
    let smaller = next_out(store, 0)?;
    let larger = next_out(store, smaller + 1)?;
    Some(Pair { larger, smaller })
}
