// A block from bytes of any length.
ghost use Rattle.std.specs.Prelude.{◌≡◌};
ghost use Rattle.kinds.specs.Parts.{block_at};

use crate::blocks::Block;

impl Block {
    // The first 64 bytes, and zeros after a shorter slice.
    pub fn padded(bytes: &[u8]) -> Block
        ensures { result ≡ block_at bytes.now 0 }
    {
        let mut block = [0; 64];
        let len = bytes.len().min(64);
        block[..len].copy_from_slice(&bytes[..len]);
        Block::from(block)
    }
}
