// The place of a byte in a text, and an input without its final line feed.
ghost use Rattle.std.specs.Prelude.{◌≡◌, ◌==◌, position};
ghost use Rattle.transcript.specs.Lines as Lines;

// The place of the first `byte`, if there is one.
pub(crate) fn find(byte: u8, text: &[u8]) -> Option<usize>
    ensures { result ≡ position (λ b. b == byte) text.now }
{
    text.iter().position(|b| *b == byte)
}

// The input without its final line feed, if it has one.
#[tactic(auto, unfolding(crate::specs::Lines::unended))]
pub(crate) fn unended(input: &[u8]) -> &[u8]
    ensures { result.now ≡ Lines.unended input.now }
{
    input.strip_suffix(b"\n").unwrap_or(input)
}
