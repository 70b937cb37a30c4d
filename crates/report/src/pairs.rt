// The lines of a report on the pairs of an image.
ghost use Rattle.std.specs.Prelude.{◌≡◌, ◌*◌, ◌<◌, ◌++◌, length, IfOk, OnOk, Some, string_bytes};
ghost use Rattle.image.specs.Images.{image_meaning};
ghost use Rattle.report.specs.Pairs.{content_text, BlockSaid, StationLines, PairLines};

use faults::Fault;
use image::ReadImage;
use kinds::{Block, BlockKind};
use recovery::{recover, work_length};
use std::alloc::{AllocError, Global};
use std::fmt;
use std::fmt::Write;
use store::ReadStore;

// What a report says that a pair holds: its third column, of three forms.
#[derive(Clone, Copy)]
enum Content {
    // the block that is stored, where both stations are in
    Stored(Block),
    // the block that recovery gives, where one is out
    Rebuilt(Block),
    // why recovery gives none
    Lost(Fault),
}

// The block in digits, after a word that says whether it is stored or rebuilt; or the refusal.
impl fmt::Display for Content {
    ghost output = { λ h. Some (content_text h) };

    fn fmt<W: fmt::Write>(&self, f: &mut fmt::Formatter<W>) -> fmt::Result {
        match self {
            Content::Stored(block) => write!(f, "stored {block}"),
            Content::Rebuilt(block) => write!(f, "rebuilt {block}"),
            Content::Lost(fault) => write!(f, "no {fault}"),
        }
    }
}

// What the pair of two stations holds. The work area stands beside the image: a struct of both, written to pair after pair,
// would have to say after each that the image is the same.
fn content_of(image: &ReadImage, a: u8, b: u8, work: &mut [Block]) -> Content
    requires first { a < (image_meaning image.now.bytes.now).size }
    requires second { b < (image_meaning image.now.bytes.now).size }
    requires long { length work.old ≡ 8 * (image_meaning image.now.bytes.now).size }
    ensures { BlockSaid (image_meaning image.now.bytes.now) a b (content_text result) }
{
    let mut block = Block::zero();
    if let Err(fault) = recover(image, a, b, work, &mut block) {
        Content::Lost(fault)
    } else if image.is_out(a) || image.is_out(b) {
        Content::Rebuilt(block)
    } else {
        Content::Stored(block)
    }
}

// The lines of the pairs of a station with the stations up to it.
fn station_lines(
    heap: Global,
    image: &ReadImage,
    a: u8,
    work: &mut [Block],
) -> Result<String, AllocError>
    requires below { a < (image_meaning image.now.bytes.now).size }
    requires long { length work.old ≡ 8 * (image_meaning image.now.bytes.now).size }
    ensures { IfOk result (λ t. StationLines (image_meaning image.now.bytes.now) a (string_bytes t)) }
{
    let mut text = String::new(heap);
    for b in 0..=a {
        let content = content_of(image, a, b, work);
        write!(text, "pair {a} {b} {content}\n")?;
    }
    Ok(text)
}

// The lines of all pairs, with a work area.
fn all_lines(heap: Global, image: &ReadImage, work: &mut [Block]) -> Result<String, AllocError>
    requires { length work.old ≡ 8 * (image_meaning image.now.bytes.now).size }
    ensures { IfOk result (λ t. PairLines (image_meaning image.now.bytes.now) (string_bytes t)) }
{
    let mut text = String::new(heap);
    for a in 0..image.size().number() {
        let lines = station_lines(heap, image, a, work)?;
        text.push_str(lines.as_str())?;
    }
    Ok(text)
}

// The lines of all pairs, in place order.
pub fn pair_lines(heap: Global, image: &ReadImage) -> Result<String, AllocError>
    ensures { IfOk result (λ t. PairLines (image_meaning image.now.bytes.now) (string_bytes t)) }
{
    let mut work = vec![in heap; Block::zero(); work_length(image.size())]?;
    all_lines(heap, image, work.as_mut_slice())
}
