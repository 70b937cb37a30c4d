// Work areas.
ghost use Rattle.std.specs.Prelude.{◌≡◌, ◌*◌, Ok};
ghost use Rattle.recovery.specs.Recovery.{area_first};

use code::Size;
use faults::Fault;

// How many blocks a work area has at least: eight rows of n.
pub fn work_length(size: Size) -> usize
    ensures { result ≡ 8 * size.number }
{
    8 * usize::from(size.number())
}

// Refused by 3 b under 8 n blocks.
pub fn admit_area(size: Size, len: usize) -> Result<(), Fault>
    ensures { result ≡ area_first size.number len (Ok tt) }
{
    if len < work_length(size) {
        return Err(Fault::AreaTooShort(len));
    }
    Ok(())
}
