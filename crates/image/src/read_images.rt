// The image for reading: a store over borrowed bytes.
ghost use Rattle.std.specs.Prelude.{◌≡◌, ◌<◌, true, is_ok};
ghost use Rattle.code.specs.Places.{pair_place};
ghost use Rattle.code.specs.Sizes.{pairs as pair_count};
ghost use Rattle.kinds.specs.Parts.{part};
ghost use Rattle.image.specs.Images.{image_check, image_size, image_marks, image_meaning, block_offset, IsImage, PassesImages, Shown};

use crate::layout::{Header, offset_of};
use code::{Marks, Size};
use faults::Fault;
use kinds::Block;
use store::{ReadStore, Roll};

// An image held for reading only.
#[derive(Clone, Copy)]
pub struct ReadImage<'a> {
    pub(crate) bytes: &'a [u8],
    ghost sound: { IsImage bytes.now },
}

impl<'a> ReadImage<'a> {
    // Of bytes that `check_image` passed: in two steps, by a rule of the project.
    pub fn make(bytes: &'a [u8]) -> Self
        requires { is_ok (image_check bytes.now) ≡ true }
        ensures bytes { result.bytes.now ≡ bytes.now }
        ensures images { PassesImages }
    {
        ReadImage { bytes }
    }

    // The stations.
    pub(crate) fn roll(&self) -> Roll
        ensures size { result.size.number ≡ image_size self.now.bytes.now }
        ensures out { result.out.bits ≡ image_marks self.now.bytes.now }
    {
        let Some(header) = Header::read(self.bytes) else {
            unreachable!();
        };
        let Ok(size) = Size::try_from(header.number) else {
            unreachable!();
        };
        Roll {
            size,
            out: Marks::from(header.marks),
        }
    }

    // The 64 bytes of a pair.
    fn pair(&self, a: u8, b: u8) -> &'a [u8; 64]
        requires { pair_place a b < pair_count (image_size self.now.bytes.now) }
        ensures { result.now ≡ part self.now.bytes.now (block_offset a b) 64 }
    {
        self.bytes[offset_of(a, b)..].first_chunk().unwrap()
    }

    // The pair's 64 bytes: the image's own part if both stations are in, else the first 64 of the second area, where the
    // caller puts a recovered block. Refused by 3 b with that area's length, then by 4 s.
    pub fn show(&self, a: u8, b: u8, second: &'a [u8]) -> Result<&'a [u8], Fault>
        ensures { Shown self.now.bytes.now second.now a b result }
    {
        if second.len() < 64 {
            return Err(Fault::AreaTooShort(second.len()));
        }
        let roll = self.roll();
        roll.size.admit(a)?;
        roll.size.admit(b)?;
        if roll.out.has(a) || roll.out.has(b) {
            return Ok(&second[..64]);
        }
        Ok(self.pair(a, b))
    }
}

impl ReadStore for ReadImage<'_> {
    type Block = Block;

    ghost means = { λ v. image_meaning v.bytes.now };

    fn size(&self) -> Size {
        self.roll().size
    }

    fn is_in(&self, s: u8) -> Result<bool, Fault> {
        self.roll().is_in(s)
    }

    fn get(&self, a: u8, b: u8, into: &mut Block) -> Result<(), Fault> {
        self.roll().admit_pair(a, b)?;
        *into = Block::from(*self.pair(a, b));
        Ok(())
    }
}
