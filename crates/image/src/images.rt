// The image: a store for writing over borrowed bytes.
ghost use Rattle.std.specs.Prelude.{◌≡◌, ◌+◌, ◌*◌, ◌<◌, ◌≤◌, true, false, length, is_ok};
ghost use Rattle.code.specs.Sizes.{pairs as pair_count};
ghost use Rattle.image.specs.Images.{image_check, image_size, image_marks, image_meaning, Overwritten, Filled, IsImage, PassesImages, PutImage, TakeImage, BringImage, be_bytes};
ghost use Rattle.store.specs.Meaning.{AfterPut, AfterMark};

use crate::layout::offset_of;
use crate::read_images::ReadImage;
use code::{Marks, Size};
use faults::Fault;
use kinds::Block;
use store::{ReadStore, Roll, WriteStore};

// Lays bytes from an offset on.
fn overwrite(bytes: &mut [u8], at: usize, with: &[u8])
    requires { at + length with.now ≤ length bytes.old }
    ensures { Overwritten bytes.old at with.now bytes.new }
{
    bytes[at..at + with.len()].copy_from_slice(with);
}

// Lays the marks in the header.
fn lay_marks(bytes: &mut [u8], out: Marks)
    requires { 10 ≤ length bytes.old }
    ensures { Overwritten bytes.old 6 (be_bytes out.bits) bytes.new }
{
    overwrite(bytes, 6, &u32::from(out).to_be_bytes());
}

// Fills the blocks of every pair with station s with bytes EE.
fn fill_lost(bytes: &mut [u8], n: u8, s: u8)
    requires long { length bytes.old ≡ 10 + 64 * pair_count n }
    requires below { s < n }
    ensures { Filled bytes.old s n bytes.new }
{
    for t in 0..n {
        overwrite(bytes, offset_of(s, t), &[0xEE; 64]);
    }
}

// An image that can be written.
#[derive(Drop)]
pub struct Image<'a> {
    bytes: &'a mut [u8],
    ghost sound: { IsImage bytes.now },
}

impl<'a> Image<'a> {
    // Of bytes that `check_image` passed: in two steps, by a rule of the project.
    pub fn make(bytes: &'a mut [u8]) -> Self
        requires { is_ok (image_check bytes.old) ≡ true }
        ensures bytes { result.bytes.now ≡ bytes.old }
        ensures images { PassesImages }
        ensures lent { result.bytes.ghost_name ≡ bytes.entry.ghost_name }
    {
        Image { bytes }
    }

    // The image as it is now, for reading.
    fn read(&self) -> ReadImage<'_>
        ensures { result.bytes.now ≡ self.now.bytes.now }
    {
        ReadImage { bytes: self.bytes }
    }

    // The stations.
    fn roll(&self) -> Roll
        ensures size { result.size.number ≡ image_size self.now.bytes.now }
        ensures out { result.out.bits ≡ image_marks self.now.bytes.now }
    {
        self.read().roll()
    }
}

impl ReadStore for Image<'_> {
    type Block = Block;

    ghost means = { λ v. image_meaning v.bytes.now };

    fn size(&self) -> Size {
        self.read().size()
    }

    fn is_in(&self, s: u8) -> Result<bool, Fault> {
        self.read().is_in(s)
    }

    fn get(&self, a: u8, b: u8, into: &mut Block) -> Result<(), Fault> {
        self.read().get(a, b, into)
    }
}

// What is answered stands in the clause on the bytes, from which the interface's clause on the answer follows. Take out and
// bring in are two, as in the interface: their refusals differ, and only one fills blocks.
impl WriteStore for Image<'_> {
    fn put(&mut self, a: u8, b: u8, x: Block) -> Result<(), Fault>
        ensures after { AfterPut (image_meaning self.old.bytes.now) a b x result (image_meaning self.new.bytes.now) }
        ensures bytes { PutImage self.old.bytes.now a b x result self.new.bytes.now }
        ensures lent { self.new.bytes.ghost_name ≡ self.old.bytes.ghost_name }
    {
        self.roll().admit_pair(a, b)?;
        overwrite(self.bytes, offset_of(a, b), x.as_bytes());
        Ok(())
    }

    fn take_out(&mut self, s: u8) -> Result<(), Fault>
        ensures after { AfterMark (image_meaning self.old.bytes.now) s true result (image_meaning self.new.bytes.now) }
        ensures bytes { TakeImage self.old.bytes.now s result self.new.bytes.now }
        ensures lent { self.new.bytes.ghost_name ≡ self.old.bytes.ghost_name }
    {
        let roll = self.roll();
        roll.admit_out(s)?;
        fill_lost(self.bytes, roll.size.number(), s);
        lay_marks(self.bytes, roll.out.with(s, true));
        Ok(())
    }

    fn bring_in(&mut self, s: u8) -> Result<(), Fault>
        ensures after { AfterMark (image_meaning self.old.bytes.now) s false result (image_meaning self.new.bytes.now) }
        ensures bytes { BringImage self.old.bytes.now s result self.new.bytes.now }
        ensures lent { self.new.bytes.ghost_name ≡ self.old.bytes.ghost_name }
    {
        let roll = self.roll();
        roll.admit_in(s)?;
        lay_marks(self.bytes, roll.out.with(s, false));
        Ok(())
    }
}
