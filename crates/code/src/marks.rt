// A set of stations as marks: station s is in the set where the bit of weight 2^s is set.
ghost use Rattle.std.specs.Prelude.{◌≡◌, ℕ, ◌/◌, ◌^◌, ◌<◌, ◌≤◌, false};
ghost use Rattle.code.specs.Marks.{marked, Marked};

#[derive(Clone, Copy, Debug)]
pub struct Marks {
    bits: u32,
    ghost narrow: { bits < 2 ^ 32 },
}

impl From<u32> for Marks {
    ghost from_gives = { λ bits marks. marks.bits ≡ bits };

    fn from(bits: u32) -> Marks {
        Marks { bits }
    }
}

impl From<Marks> for u32 {
    ghost from_gives = { λ marks bits. bits ≡ marks.bits };

    fn from(marks: Marks) -> u32 {
        marks.bits
    }
}

impl Marks {
    // The empty set.
    pub fn none() -> Self
        ensures bits { result.bits ≡ 0 }
        ensures unmarked { (s : ℕ) → marked result.bits s ≡ false }
    {
        Marks { bits: 0 }
    }

    pub fn has(self, s: u8) -> bool
        ensures { result ≡ marked self.bits s }
    {
        s < 32 && (self.bits >> s) & 1 == 1
    }

    // With station s marked or not, as `on` says; numbers from 32 on have no mark.
    pub fn with(self, s: u8, on: bool) -> Self
        ensures marks { s < 32 → Marked self.bits s on result.bits }
        ensures same { 32 ≤ s → result ≡ self }
        ensures low { (n : ℕ) → s < n → self.bits / 2 ^ n ≡ 0 → result.bits / 2 ^ n ≡ 0 }
    {
        if s >= 32 || self.has(s) == on {
            return self;
        }
        Marks::from(self.bits ^ (1 << s))
    }
}
