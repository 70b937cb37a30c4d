// Reports in text: what a store holds, line by line.
ghost use Rattle.std.specs.Prelude.{◌≡◌, ◌&&◌, IfOk, string_bytes, nat_lt};
ghost use Rattle.report.specs.Reports.{audit_text, listed, out_text, Inspected, ImageReported, Reported};
ghost use Rattle.image.specs.Images.{image_meaning};

use crate::pairs::pair_lines;
use audit::{Verdict, audit};
use faults::Fault;
use image::{ReadImage, check_image};
use std::alloc::{AllocError, Global};
use std::fmt::Write;
use store::ReadStore;

// The line of an audit's answer, without its end.
fn audit_line(heap: Global, answer: Result<Verdict, Fault>) -> Result<String, AllocError>
    ensures { IfOk result (λ t. string_bytes t ≡ audit_text answer) }
{
    match answer {
        Ok(verdict) => format!(in heap; "{verdict}"),
        Err(fault) => format!(in heap; "no {fault}"),
    }
}

// The numbers of the stations that are out, each after a space.
fn out_stations<S: ReadStore>(heap: Global, store: &S) -> Result<String, AllocError>
    ensures { IfOk result (λ t. string_bytes t ≡ listed (S.means store.now).out (S.means store.now).size) }
{
    let mut text = String::new(heap);
    for s in 0..store.size().number() {
        if store.is_out(s) {
            write!(text, " {s}")?;
        }
    }
    Ok(text)
}

// The line of the stations that are out, without its end.
fn out_line<S: ReadStore>(heap: Global, store: &S) -> Result<String, AllocError>
    ensures { IfOk result (λ t. string_bytes t ≡ out_text (S.means store.now).out (S.means store.now).size) }
{
    let stations = out_stations(heap, store)?;
    if stations.is_empty() {
        String::from_str(heap, "out none")
    } else {
        format!(in heap; "out{stations}")
    }
}

// The report on a store: its size, the stations that are out, and what the audit answers, a line each.
pub fn report<S: ReadStore>(heap: Global, store: &S) -> Result<String, AllocError>
    ensures { IfOk result (λ t. Reported S.Block.group (S.means store.now) (string_bytes t)) }
{
    let n = store.size().number();
    let out = out_line(heap, store)?;
    let verdict = audit_line(heap, audit(store))?;
    format!(in heap; "size {n}\n{out}\n{verdict}\n")
}

// The report on an image: as on any store, and then a line for each pair.
fn inspect_image(heap: Global, image: &ReadImage) -> Result<String, AllocError>
    ensures { IfOk result (λ t. ImageReported (image_meaning image.now.bytes.now) (string_bytes t)) }
{
    let mut text = report(heap, image)?;
    let pairs = pair_lines(heap, image)?;
    text.push_str(pairs.as_str())?;
    Ok(text)
}

// The report on the bytes of an image, or the line of the fault where they are none.
pub fn inspect(heap: Global, bytes: &[u8]) -> Result<String, AllocError>
    ensures { IfOk result (λ t. Inspected bytes.now (string_bytes t)) }
{
    match check_image(bytes) {
        Ok(()) => inspect_image(heap, &ReadImage::make(bytes)),
        Err(fault) => format!(in heap; "no {fault}\n"),
    }
}
