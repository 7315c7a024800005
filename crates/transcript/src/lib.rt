// The text of a run of the program `turns`: everything that it prints, for any input.
#![tactic(auto)]

mod cycles;
mod first_line;
mod lines;
mod output;
pub mod theorems;

ghost use Rattle.std.specs.Prelude.{◌++◌, ◌≡◌, ◌≤◌, length, drop};
ghost use Rattle.text.specs.Characters.{line_feed};
ghost use Rattle.text.specs.Output.{Written};
ghost use Rattle.transcript.specs.Lines as Lines;
ghost use Rattle.transcript.specs.Text as Text;
ghost use Rattle.transcript.specs.Text.{Counts};

use crate::cycles::Progress;
use arbiter::refusal::Refusal;
use text::Output;

// The longest input that is served. A longer one is refused by 12.
const MAX_INPUT: usize = 65536;

// How much of an input a program has to read: one byte more than the longest that is served, so that a longer one is seen to be
// longer.
pub const READ_SIZE: usize = MAX_INPUT + 1;

// No text is longer: the heading, and 19 bytes for each byte of the longest input.
pub const LIMIT: usize = 18 + 19 * MAX_INPUT;

// Writes the whole text for this input at the start of the output, and answers how long it is. The rest of the output stays as it
// was. Asks 12, then 11, then what the opening asks; each further line then asks 5, 8 and, for the bus, 9. The input `P 4 2` and
// `1101`, each with a line feed, gives `line granted next` and `1 1100 2`, each with a line feed. The last clause is what a program
// that reads `READ_SIZE` bytes stands on.
pub fn run(input: &[u8], output: &mut [u8; LIMIT]) -> usize
    ensures value { result ≡ length (Text.text input.now) }
    ensures output_after { output.new ≡ Text.text input.now ++ drop (length (Text.text input.now)) output.old }
    ensures counts { Counts result output.new }
    ensures read_size { READ_SIZE ≡ Text.read_size }
{
    let mut out = Output {
        bytes: output,
        at: 0,
    };
    print(input, &mut out);
    out.at
}

// Writes the whole text.
fn print(input: &[u8], out: &mut Output)
    ensures { Written out.old (Text.text input.now) out.new }
{
    out.put_all(b"line granted next\n");
    if input.len() > MAX_INPUT {
        output::put_refusal(0, Refusal::InputLength, out);
        return;
    }
    answer(lines::unended(input), out);
}

// What follows the heading, for an input without its final line feed.
#[tactic(auto, using(crate::specs::Cycles::Laws::opening_wide, std::proofs::lemmas::Fn::always_returns_same))]
fn answer(body: &[u8], out: &mut Output)
    requires { length body.now ≤ Text.max_input }
    ensures { Written out.old (Text.after_heading (Lines.split line_feed body.now)) out.new }
{
    let mut lines = body.split(|byte| *byte == b'\n');
    let Some(first) = first_line::read(lines.next().unwrap_or(&[])) else {
        output::put_refusal(0, Refusal::FirstLine, out);
        return;
    };
    let opened = cycles::open(first.kind, first.width, first.picks);
    match opened.outcome {
        Ok(_) => {
            let run = Progress {
                kind: first.kind,
                state: opened.state,
                number: 1,
            };
            run.print_lines(lines, out)
        }
        Err(refusal) => output::put_refusal(0, refusal, out),
    }
}
