// The single bit as a block kind.
ghost use Rattle.kinds.specs.Bits.{bit_group};

use crate::kinds::BlockKind;

impl BlockKind for bool {
    ghost group = { bit_group };

    fn zero() -> bool {
        false
    }

    fn add(self, other: bool) -> bool {
        self != other
    }

    fn same(self, other: bool) -> bool {
        self == other
    }
}
