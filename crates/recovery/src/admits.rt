// Data pairs.
ghost use Rattle.std.specs.Prelude.{◌≡◌};
ghost use Rattle.recovery.specs.Patterns.{data_pair_answer};

use code::Size;
use faults::Fault;

// Refused by 4 s for a number that is no station's, the first before the second, and by 5 b if the pair is a check pair.
pub fn admit_data(size: Size, a: u8, b: u8) -> Result<(), Fault>
    ensures { result ≡ data_pair_answer size.number a b }
{
    size.admit(a)?;
    size.admit(b)?;
    let larger = a.max(b);
    if larger + 2 >= size.number() {
        return Err(Fault::CheckPair(larger));
    }
    Ok(())
}
