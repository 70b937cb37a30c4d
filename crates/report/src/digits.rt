// Bytes of any length as hexadecimal digits. A block's own digits are its `Display`.
ghost use Rattle.std.specs.Prelude.{◌≡◌, IfOk, string_bytes};
ghost use Rattle.kinds.specs.Texts.{hex_text as digits_of};

use kinds::byte_digits;
use std::alloc::{AllocError, Global};

// Each byte as two digits, the higher first.
pub fn hex_text(heap: Global, bytes: &[u8]) -> Result<String, AllocError>
    ensures { IfOk result (λ t. string_bytes t ≡ digits_of bytes.now) }
{
    let mut text = String::new(heap);
    for byte in bytes {
        let [high, low] = byte_digits(*byte);
        text.push(char::from(high))?;
        text.push(char::from(low))?;
    }
    Ok(text)
}
