// Sizes: how many stations a book may have.
ghost use Rattle.std.specs.Prelude.{◌≡◌, true, MatchResult};
ghost use Rattle.code.specs.Sizes.{OddPrime, among, sizes as listed, pairs as pair_count, station_answer};
ghost use Rattle.faults.specs.declared.faults.Fault.TheVariants.{NotASize};

use faults::Fault;

// An odd prime from 3 to 31, and no other number.
#[derive(Clone, Copy, Debug)]
pub struct Size {
    number: u8,
    ghost allowed: { among number listed ≡ true },
}

impl TryFrom<u8> for Size {
    type Error = Fault;

    // Any other number is refused by 1 b.
    ghost try_from_gives = { λ number size. MatchResult size (λ s. (s.number ≡ number) × OddPrime number) (λ f. (f ≡ NotASize number) × (OddPrime number → ⊥)) };

    fn try_from(number: u8) -> Result<Self, Fault> {
        match number {
            3 | 5 | 7 | 11 | 13 | 17 | 19 | 23 | 29 | 31 => Ok(Size { number }),
            _ => Err(Fault::NotASize(number)),
        }
    }
}

impl Size {
    pub fn number(self) -> u8
        ensures same { result ≡ self.number }
        ensures prime { OddPrime result }
    {
        self.number
    }

    // How many pairs there are, a station with itself included.
    pub fn pairs(self) -> usize
        ensures { result ≡ pair_count self.number }
    {
        let n = usize::from(self.number);
        n * (n + 1) / 2
    }

    // A number that is no station's is refused by 4 s.
    pub fn admit(self, s: u8) -> Result<(), Fault>
        ensures { result ≡ station_answer self.number s }
    {
        if s < self.number {
            Ok(())
        } else {
            Err(Fault::NoSuchStation(s))
        }
    }
}
