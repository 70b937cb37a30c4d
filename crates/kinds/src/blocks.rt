// The 64-byte block.
ghost use Rattle.std.specs.Prelude.{◌≡◌, length};

#[derive(Clone, Copy, Debug, PartialEq, Eq)]
pub struct Block {
    bytes: [u8; 64],
    ghost long: { length bytes ≡ 64 },
}

impl Block {
    pub fn as_bytes(&self) -> &[u8; 64]
        ensures { result.now ≡ self.now.bytes }
    {
        &self.bytes
    }
}

impl From<[u8; 64]> for Block {
    ghost from_gives = { λ bytes block. block.bytes ≡ bytes };

    fn from(bytes: [u8; 64]) -> Block {
        Block { bytes }
    }
}

impl From<Block> for [u8; 64] {
    ghost from_gives = { λ block bytes. bytes ≡ block.bytes };

    fn from(block: Block) -> [u8; 64] {
        block.bytes
    }
}
