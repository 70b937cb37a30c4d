// The stations of a store that are out, in rising order.
ghost use Rattle.std.specs.Prelude.{◌<◌, IfSome};
ghost use Rattle.store.specs.Meaning.{Next};

use crate::stores::ReadStore;

// The first station from `start` on that is out.
pub fn next_out<S: ReadStore>(store: &S, start: u8) -> Option<u8>
    ensures next { Next (S.means store.now).out (S.means store.now).size start result }
    ensures small { IfSome result (λ s. s < 31) }
{
    (start..store.size().number()).find(|&s| store.is_out(s))
}
