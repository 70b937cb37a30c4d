// What the trials look at: rows of blocks.
use kinds::Block;
use std::test::Fail;

// The block at a place of a row.
pub fn block_at(row: &[Block], p: usize) -> Result<Block, Fail> {
    Ok(row.get(p).copied().ok_or("no such place")?)
}
