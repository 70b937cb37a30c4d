// The block of a pair as a value.
ghost use Rattle.std.specs.Prelude.{◌≡◌, is_ok, if◌then◌else◌};
ghost use Rattle.code.specs.Rules.{of};
ghost use Rattle.store.specs.Meaning.{get_answer};

use crate::stores::ReadStore;
use kinds::BlockKind;

// The stored block of a pair, or zero where the store refuses it.
pub fn block_or_zero<S: ReadStore>(store: &S, a: u8, b: u8) -> S::Block
    ensures { result ≡ (if is_ok (get_answer (S.means store.now) a b) then of (S.means store.now).block a b else S.Block.group.none) }
{
    let mut block = S::Block::zero();
    // A refusal leaves the zero.
    let _ = store.get(a, b, &mut block);
    block
}
