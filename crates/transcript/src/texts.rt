// Replies as lines of text.
ghost use Rattle.std.specs.Prelude.{◌≡◌, ◌++◌, IfOk, OnOk};
ghost use Rattle.orders.specs.Lines.{line};
ghost use Rattle.orders.specs.declared.lines.Reply.TheVariants.{Refused};
ghost use Rattle.transcript.specs.Replies.{replies_of};
ghost use Rattle.transcript.specs.Sessions.{lines};

use crate::requests::Step;
use faults::Fault;
use kinds::Block;
use orders::{LONGEST, Reply, lay_line};
use std::alloc::{AllocError, Global};

// Adds the line of a reply to a text.
fn append_line(text: &mut Vec<u8>, reply: &Reply<Block>) -> Result<(), AllocError>
    ensures { OnOk result (text.new.items ≡ text.old.items ++ line reply.now) }
{
    let mut area = [0; LONGEST];
    let len = lay_line(reply, &mut area).unwrap();
    text.extend_from_slice(&area[..len])
}

// The text of one refusal.
pub(crate) fn refusal_text(heap: Global, fault: Fault) -> Result<Vec<u8>, AllocError>
    ensures { IfOk result (λ text. text.items ≡ line (Refused fault)) }
{
    let mut text = Vec::new(heap);
    append_line(&mut text, &Reply::Refused(fault))?;
    Ok(text)
}

// A line for each reply.
pub(crate) fn text_of(heap: Global, steps: &[Step<Block>]) -> Result<Vec<u8>, AllocError>
    ensures { IfOk result (λ text. text.items ≡ lines (replies_of steps.now)) }
{
    let mut text = Vec::new(heap);
    for step in steps {
        append_line(&mut text, &step.reply)?;
    }
    Ok(text)
}
