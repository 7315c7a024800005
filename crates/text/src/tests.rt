// A caller of the pieces, which writes a line of them.
ghost use Rattle.std.specs.Prelude.{[], ◌∷◌, ◌++◌};
ghost use Rattle.text.specs.Characters as Characters;
ghost use Rattle.text.specs.Output.{Put, Written};

use crate::Output;
use std::test::Fail;

// A line of a number and bits.
fn put_line(number: usize, bits: &[u8], out: &mut Output)
    ensures { Written out.old (Characters.decimal number ++ (Characters.space ∷ []) ++ Characters.bits bits.now ++ (Characters.line_feed ∷ [])) out.new }
{
    out.put_number(number);
    out.put(b' ');
    out.put_bits(bits);
    out.put(b'\n');
}

// Such a line at the start of a buffer. Answers the place after it.
fn start_with_line(number: usize, bits: &[u8], buffer: &mut [u8]) -> usize
    ensures { Put buffer.old 0 (Characters.decimal number ++ (Characters.space ∷ []) ++ Characters.bits bits.now ++ (Characters.line_feed ∷ [])) buffer.new result }
{
    let mut out = Output {
        bytes: buffer,
        at: 0,
    };
    put_line(number, bits, &mut out);
    out.at
}

#[test]
fn writes_a_line(rt: HostRuntime) -> Result<(), Fail> {
    let mut buffer = [b'.'; 9];
    assert_eq!(rt; start_with_line(12, &[1, 0, 2], &mut buffer), 7);
    assert_eq!(rt; buffer.as_slice(), b"12 100\n..".as_slice());
    assert_eq!(rt; start_with_line(40, &[0], &mut buffer[..3]), 3);
    assert_eq!(rt; buffer.as_slice(), b"40 100\n..".as_slice());
    Ok(())
}
