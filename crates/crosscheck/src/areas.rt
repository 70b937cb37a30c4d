// What a store lies in: a row of blocks, or the bytes of an image.
use crate::elimination::count_pairs;
use crate::model::Model;
use crate::scripts::{Outcome, Script};
use crate::stops::{Stop, differs};
use image::{Image, check_image};
use kinds::Block;
use serve::Rack;
use std::alloc::{AllocError, Global};
use store::{Table, check_table};

pub trait Area {
    // A place for the store of a book that is yet to be opened.
    fn new(heap: Global, n: u8) -> Result<Self, AllocError>;

    // Serves a script on a book over the store of n stations that lies here.
    fn serve(&mut self, n: u8, script: &mut Script, rack: &mut Rack) -> Result<Outcome, Stop>;

    fn holds(&self, p: usize, block: &Block) -> bool;

    // Whether exactly the model's stations are marked out, where there are marks.
    fn has_marks(&self, model: &Model) -> bool;

    // What a pair with a station out holds, where that is settled.
    fn lost_block(&self) -> Option<Block>;
}

// A row has no marks of its own.
impl Area for Vec<Block> {
    fn new(heap: Global, n: u8) -> Result<Self, AllocError> {
        let block = Block::from([0x5A; 64]);
        vec![in heap; block; count_pairs(n)]
    }

    fn serve(&mut self, n: u8, script: &mut Script, rack: &mut Rack) -> Result<Outcome, Stop> {
        let row = self.as_mut_slice();
        check_table(n, row).map_err(|_| differs("table", n, 0, 0))?;
        Ok(script.serve(Table::make(n, row), rack))
    }

    fn holds(&self, p: usize, block: &Block) -> bool {
        self.get(p) == Some(block)
    }

    fn has_marks(&self, _: &Model) -> bool {
        true
    }

    fn lost_block(&self) -> Option<Block> {
        None
    }
}

// An image: version 1, the length of the rest, the size, the marks, and the blocks in place order.
impl Area for Vec<u8> {
    fn new(heap: Global, n: u8) -> Result<Self, AllocError> {
        let length = 64 * count_pairs(n);
        let [l0, l1, l2, l3] = (5 + length as u32).to_be_bytes();
        let mut bytes = Vec::from_slice(heap, &[1, l0, l1, l2, l3, n, 0, 0, 0, 0])?;
        bytes.resize(10 + length, 0x5A)?;
        Ok(bytes)
    }

    fn serve(&mut self, n: u8, script: &mut Script, rack: &mut Rack) -> Result<Outcome, Stop> {
        let bytes = self.as_mut_slice();
        check_image(bytes).map_err(|_| differs("image", n, 0, 0))?;
        Ok(script.serve(Image::make(bytes), rack))
    }

    fn holds(&self, p: usize, block: &Block) -> bool {
        let Some(blocks) = self.get(10..) else {
            return false;
        };
        blocks.as_chunks().0.get(p) == Some(block.as_bytes())
    }

    fn has_marks(&self, model: &Model) -> bool {
        let [_, _, _, _, _, _, m0, m1, m2, m3, ..] = self.as_slice() else {
            return false;
        };
        let marks = u32::from_be_bytes([*m0, *m1, *m2, *m3]);
        (0..32u8).all(|s| ((marks >> s) & 1 == 1) == model.is_out(s))
    }

    fn lost_block(&self) -> Option<Block> {
        Some(Block::from([0xEE; 64]))
    }
}
