// The program `turns` between a reader and a writer.
#![tactic(auto)]

#[cfg(test)]
mod tests;

ghost use Rattle.std.specs.Prelude.{◌≤◌, ◌<◌, IfOk, OnOk, IfSome, length, take};
ghost use Rattle.std.specs.Io.KnownBytes.{Appends, Consumes, IsAtEnd};
ghost use Rattle.transcript.specs.Text as Text;

use std::io::{self, ErrorKind, Read, Write};

// Reads an input from one, to its end or as far as `transcript` looks, and writes everything that the program prints for it to the
// other. The first read or write that fails is the answer; where that is a read, nothing is written. The clause speaks of readers
// and writers whose bytes are known.
pub fn run<R: Read, W: Write>(input: &mut R, output: &mut W) -> io::Result<()>
    ensures { OnOk result (IfSome (R.remaining input.old) (λ xs. Appends (W.contents output.old) (W.contents output.new) (Text.text (take Text.read_size xs)))) }
{
    let mut bytes = [0u8; transcript::READ_SIZE];
    let read = read_full(input, &mut bytes)?;
    answer(&bytes[..read], output)
}

// Writes everything that the program prints for this input. The text has its array here and not in `run`, where it would be cleared
// twice.
fn answer<W: Write>(input: &[u8], output: &mut W) -> io::Result<()>
    ensures { OnOk result (Appends (W.contents output.old) (W.contents output.new) (Text.text input.now)) }
{
    let mut text = [0u8; transcript::LIMIT];
    let length = transcript::run(input, &mut text);
    output.write_all(&text[..length])
}

// Reads until the buffer is full or the input ends, and answers how many bytes it put at the start of the buffer. Each read is lent
// all the room that is left: a reader that keeps its messages apart loses what a read has no room for, and the library's `copy`
// reads 8,192 bytes at a time.
fn read_full<R: Read>(input: &mut R, buffer: &mut [u8]) -> io::Result<usize>
    ensures bound { IfOk result (λ n. n ≤ length buffer.new) }
    ensures bytes { IfOk result (λ n. Consumes (R.remaining input.old) (R.remaining input.new) (take n buffer.new)) }
    ensures end { IfOk result (λ n. n < length buffer.new → IsAtEnd (R.remaining input.new)) }
{
    let mut done = 0;
    for _ in 0..u64::MAX {
        if done == buffer.len() {
            return Ok(done);
        }
        match input.read(&mut buffer[done..]) {
            Ok(0) => return Ok(done),
            Ok(n) => done += n,
            Err(e) => {
                if e.kind() != ErrorKind::Interrupted {
                    return Err(e);
                }
            }
        }
    }
    Err(ErrorKind::TimedOut.into())
}
