// Bytes as hexadecimal digits, and the 64-byte block as text.
ghost use Rattle.std.specs.Prelude.{◌≡◌, ◌<◌, [], ◌∷◌, Some, IsAscii};
ghost use Rattle.kinds.specs.Texts.{hex_digit, hex_text};

use crate::blocks::Block;
use std::{fmt, str};

// The digit of a number below 16.
fn digit(d: u8) -> u8
    requires { d < 16 }
    ensures digit { result ≡ hex_digit d }
    ensures ascii { result < 128 }
{
    if d < 10 { b'0' + d } else { b'a' + (d - 10) }
}

// A byte as two lowercase hexadecimal digits, the high one first. By hand: a line of output takes them as bytes, in fixed memory
// and with no error, while `{:02x}` is written to what may fail.
pub fn byte_digits(byte: u8) -> [u8; 2]
    ensures digits { result ≡ hex_text (byte ∷ []) }
    ensures ascii { IsAscii result }
{
    [digit(byte / 16), digit(byte % 16)]
}

impl Block {
    // Two lowercase hexadecimal digits for each byte, the high one first.
    pub fn hex_digits(&self) -> [u8; 128]
        ensures digits { result ≡ hex_text self.now.bytes }
        ensures ascii { IsAscii result }
    {
        let mut digits = [0; 128];
        for (i, byte) in self.as_bytes().iter().enumerate() {
            let [high, low] = byte_digits(*byte);
            digits[2 * i] = high;
            digits[2 * i + 1] = low;
        }
        digits
    }
}

// Its hexadecimal digits.
impl fmt::Display for Block {
    ghost output = { λ x. Some (hex_text x.bytes) };

    fn fmt<W: fmt::Write>(&self, f: &mut fmt::Formatter<W>) -> fmt::Result {
        f.write_str(str::from_utf8(&self.hex_digits()).unwrap())
    }
}
