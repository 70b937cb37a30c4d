// The record of the filling.
ghost use Rattle.std.specs.Prelude.{◌≡◌, ℕ, ◌<◌};
ghost use Rattle.code.specs.Marks.{marked};
ghost use Rattle.state.specs.States.{being_filled};

use code::{Marks, Size};

// The station being filled and its next partner, 0 to n.
#[derive(Clone, Copy, Debug, PartialEq, Eq)]
pub struct Filling {
    pub station: u8,
    pub next: u8,
}

// Is s the station being filled?
pub fn fills(filling: Option<Filling>, s: u8) -> bool
    ensures { result ≡ being_filled filling s }
{
    filling.is_some_and(|f| s == f.station)
}

// The station being filled as a set of stations below a size.
pub fn marks(filling: Option<Filling>, size: Size) -> Marks
    ensures { (s : ℕ) → s < size.number → marked result.bits s ≡ being_filled filling s }
{
    match filling {
        Some(Filling { station, .. }) if station < size.number() => Marks::none().with(
            station, true,
        ),
        _ => Marks::none(),
    }
}
