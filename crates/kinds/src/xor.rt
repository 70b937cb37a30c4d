// The 64-byte block as a block kind, summed by exclusive or.
ghost use Rattle.kinds.specs.Bytes.{byte_group};

use crate::blocks::Block;
use crate::kinds::BlockKind;
use std::array;

impl BlockKind for Block {
    ghost group = { byte_group };

    fn zero() -> Block {
        Block::from([0; 64])
    }

    fn add(self, other: Block) -> Block {
        let (ours, theirs) = (self.as_bytes(), other.as_bytes());
        Block::from(array::from_fn(|i| ours[i] ^ theirs[i]))
    }

    fn same(self, other: Block) -> bool {
        self == other
    }
}
