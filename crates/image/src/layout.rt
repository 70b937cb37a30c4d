// The bytes of an image: their header, and the check.
ghost use Rattle.std.specs.Prelude.{◌≡◌, ◌<◌, length, MatchOption};
ghost use Rattle.image.specs.Headers.{HeaderOf};
ghost use Rattle.image.specs.Images.{image_check, block_offset};

use code::{Size, place};
use faults::Fault;

// The length of the longest image, of 31 stations: ten bytes of header and 496 blocks.
pub const LONGEST: usize = 10 + 64 * 496;

// Where the block of a pair begins.
pub(crate) fn offset_of(a: u8, b: u8) -> usize
    ensures { result ≡ block_offset a b }
{
    10 + 64 * place(a, b)
}

// The fields of an image's first ten bytes.
#[derive(Clone, Copy)]
pub(crate) struct Header {
    pub version: u8,
    pub length: u32,
    pub number: u8,
    pub marks: u32,
}

impl Header {
    // Of ten bytes or more.
    pub(crate) fn read(bytes: &[u8]) -> Option<Header>
        ensures { MatchOption result (length bytes.now < 10) (λ h. HeaderOf bytes.now h) }
    {
        let [
            version,
            l0,
            l1,
            l2,
            l3,
            number,
            m0,
            m1,
            m2,
            m3,
            _blocks @ ..,
        ] = bytes
        else {
            return None;
        };
        Some(Header {
            version: *version,
            length: u32::from_be_bytes([*l0, *l1, *l2, *l3]),
            number: *number,
            marks: u32::from_be_bytes([*m0, *m1, *m2, *m3]),
        })
    }
}

// Whether bytes are an image. Refused by 13, 14, 1, 13 and 15, in this order.
pub fn check_image(bytes: &[u8]) -> Result<(), Fault>
    ensures { result ≡ image_check bytes.now }
{
    let Some(header) = Header::read(bytes) else {
        return Err(Fault::WrongLength(bytes.len()));
    };
    if header.version != 1 {
        return Err(Fault::WrongVersion(0));
    }
    let size = Size::try_from(header.number)?;
    let blocks = 64 * size.pairs();
    if header.length as usize != 5 + blocks || bytes.len() != 10 + blocks {
        return Err(Fault::WrongLength(bytes.len()));
    }
    if header.marks >> size.number() != 0 {
        return Err(Fault::StrayMarks);
    }
    Ok(())
}
