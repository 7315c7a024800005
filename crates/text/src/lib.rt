// Writing text into a buffer, piece by piece. Each piece goes behind the one before it, as much of it as there is room for. Every
// other byte stays as it was.
#![tactic(auto)]

#[cfg(test)]
mod tests;
pub mod theorems;

ghost use Rattle.std.specs.Prelude.{[], ◌∷◌, ◌≡◌};
ghost use Rattle.text.specs.Characters as Characters;
ghost use Rattle.text.specs.Output.{Written};

use itoa::Buffer;

// A buffer, and the place in it where the next piece goes.
#[derive(Drop)]
pub struct Output<'a> {
    pub bytes: &'a mut [u8],
    pub at: usize,
}

impl Output<'_> {
    // Writes these characters. The place moves on by their number; where not all fit, to the end of the buffer; where it is past
    // the end, nothing is written and it stays.
    #[tactic(auto, using(crate::specs::Output::Laws::put_out, crate::specs::Output::Laws::put_copied))]
    pub fn put_all(&mut self, text: &[u8])
        ensures { Written self.old text.now self.new }
    {
        let at = self.at;
        if at >= self.bytes.len() {
            return;
        }
        let count = text.len().min(self.bytes.len() - at);
        self.bytes[at..at + count].copy_from_slice(&text[..count]);
        self.at = at + count;
    }

    // Writes one character, as `put_all` does.
    pub fn put(&mut self, character: u8)
        ensures { Written self.old (character ∷ []) self.new }
    {
        self.put_all(&[character]);
    }

    // Writes a character for each byte, as `put_all` does: 1 for the byte 1, 0 for any other.
    pub fn put_bits(&mut self, bits: &[u8])
        ensures { Written self.old (Characters.bits bits.now) self.new }
    {
        for byte in bits {
            self.put(bit(*byte));
        }
    }

    // Writes the decimal digits of a number, with no leading zero, as `put_all` does. Where not all fit, it is the first ones that
    // are written.
    #[tactic(auto, using(crate::specs::Characters::Laws::decimal_same))]
    pub fn put_number(&mut self, n: usize)
        ensures { Written self.old (Characters.decimal n) self.new }
    {
        self.put_all(Buffer::new().format(n).as_bytes());
    }
}

// The character of a bit.
fn bit(byte: u8) -> u8
    ensures { result ≡ Characters.bit byte }
{
    if byte == 1 { b'1' } else { b'0' }
}
