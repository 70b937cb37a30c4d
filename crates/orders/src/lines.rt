// Lines of output: what is answered to an order, as text.
ghost use Rattle.std.specs.Prelude.{◌≡◌, ◌<◌, ◌≤◌, [], ◌∷◌, ◌++◌, length, decimal, is_ok, if◌then◌else◌};
ghost use Rattle.orders.specs.Lines.{laid, block_text, reply_text, line, line_answer};
ghost use Rattle.audit.specs.Audits.{verdict_text};
ghost use Rattle.faults.specs.Refusals.{refusal_text};

use arrayvec::ArrayString;
use audit::Verdict;
use faults::Fault;
use itoa::Buffer;
use kinds::Block;
use std::str;

// What is answered to an order: a line has one of four forms. A refusal is one of them, and no error of whoever lays lines.
#[derive(Clone, Copy, Debug, PartialEq, Eq)]
pub enum Reply<B> {
    // the block that was read
    Block(B),
    // a write, a loss or a replacement is done
    Done,
    // what an audit found
    Found(Verdict),
    Refused(Fault),
}

// The length of the longest line: that of a block, with its line end.
pub const LONGEST: usize = 135;

// The length of the longest line without its end.
const TEXT: usize = LONGEST - 1;

// A line without its end, as it grows in fixed memory. It is written by no `write!`: no contract says that a `Display` comes
// to its end, and a line in an area that is long enough is not refused.
type Line = ArrayString<TEXT>;

// Lays a text with a line end at the front of an area, and answers how many bytes these are.
fn lay_text(text: &[u8], into: &mut [u8]) -> usize
    requires { length text.now < length into.old }
    ensures answer { result ≡ length (text.now ++ (10 ∷ [])) }
    ensures into { into.new ≡ laid (text.now ++ (10 ∷ [])) into.old }
{
    let len = text.len();
    into[..len].copy_from_slice(text);
    into[len] = b'\n';
    len + 1
}

fn lay_block(block: &Block, into: &mut [u8]) -> usize
    requires { 135 ≤ length into.old }
    ensures answer { result ≡ length (block_text block.now ++ (10 ∷ [])) }
    ensures into { into.new ≡ laid (block_text block.now ++ (10 ∷ [])) into.old }
{
    let mut line = Line::new();
    line.push_str("block ");
    line.push_str(str::from_utf8(&block.hex_digits()).unwrap());
    lay_text(line.as_bytes(), into)
}

// The words of a broken rule, with its number.
fn lay_numbered(words: &str, number: u8, into: &mut [u8]) -> usize
    requires words { length words.now ≤ 9 }
    requires long { 135 ≤ length into.old }
    ensures answer { result ≡ length ((words.now ++ decimal number) ++ (10 ∷ [])) }
    ensures into { into.new ≡ laid ((words.now ++ decimal number) ++ (10 ∷ [])) into.old }
{
    let mut line = Line::new();
    line.push_str(words);
    line.push_str(Buffer::new().format(number));
    lay_text(line.as_bytes(), into)
}

// A text that is fixed goes into the area as it is, and grows in no line.
fn lay_verdict(verdict: Verdict, into: &mut [u8]) -> usize
    requires { 135 ≤ length into.old }
    ensures answer { result ≡ length (verdict_text verdict ++ (10 ∷ [])) }
    ensures into { into.new ≡ laid (verdict_text verdict ++ (10 ∷ [])) into.old }
{
    match verdict {
        Verdict::Sound => lay_text(b"sound", into),
        Verdict::BrokenNeighbourhood(h) => lay_numbered("broken S ", h, into),
        Verdict::BrokenDiagonal(m) => lay_numbered("broken D ", m, into),
    }
}

fn lay_refusal(fault: Fault, into: &mut [u8]) -> usize
    requires { 135 ≤ length into.old }
    ensures answer { result ≡ length (refusal_text fault ++ (10 ∷ [])) }
    ensures into { into.new ≡ laid (refusal_text fault ++ (10 ∷ [])) into.old }
{
    let mut line = Line::new();
    line.push_str("no ");
    line.push_str(Buffer::new().format(fault.number()));
    line.push(' ');
    line.push(fault.layer().letter());
    line.push(' ');
    line.push_str(Buffer::new().format(fault.place()));
    lay_text(line.as_bytes(), into)
}

fn lay_reply(reply: &Reply<Block>, into: &mut [u8]) -> usize
    requires { 135 ≤ length into.old }
    ensures answer { result ≡ length (line reply.now) }
    ensures into { into.new ≡ laid (line reply.now) into.old }
{
    match reply {
        Reply::Block(block) => lay_block(block, into),
        Reply::Done => lay_text(b"done", into),
        Reply::Found(verdict) => lay_verdict(*verdict, into),
        Reply::Refused(fault) => lay_refusal(*fault, into),
    }
}

// Lays the line of a reply, with its line end, at the front of an area, and answers its length. What stands in the area
// after it stays. Refused by 3 b where the area has fewer than 135 bytes, the length of the longest line.
pub fn lay_line(reply: &Reply<Block>, into: &mut [u8]) -> Result<usize, Fault>
    ensures answer { result ≡ line_answer (length into.old) reply.now }
    ensures into { into.new ≡ (if is_ok result then laid (line reply.now) into.old else into.old) }
{
    if into.len() < LONGEST {
        return Err(Fault::AreaTooShort(into.len()));
    }
    Ok(lay_reply(reply, into))
}
