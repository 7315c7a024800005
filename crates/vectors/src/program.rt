// Inputs of the program against the texts that they give. The heading, which every text begins with, is left out.
ghost use Rattle.std.specs.Prelude.{◌≤◌, length};

use crate::conversions::byte;
use std::fs;
use std::rt::Files;
use transcript::{LIMIT, READ_SIZE};

// The heading.
const HEADING: &[u8] = b"line granted next\n";

// The array in which an input is made, and the one that its text is written to.
#[derive(Drop)]
pub struct Program {
    input: [u8; READ_SIZE],
    output: [u8; LIMIT],
}

// An input with an `@` in it, which stands for each of the 256 bytes: sets of bytes and the text that these give, and the text that
// all others give.
#[derive(Clone, Copy)]
pub struct Template<'a> {
    pub input: &'a str,
    pub sets: &'a [(&'a str, &'a str)],
    pub others: &'a str,
}

impl<'a> Template<'a> {
    // The text after the first set that has this byte, or else the last.
    fn text(&self, byte: u8) -> &'a str {
        self.sets
            .iter()
            .find(|(set, _)| set.as_bytes().contains(&byte))
            .map_or(self.others, |(_, text)| *text)
    }
}

impl Program {
    // Both arrays, with nothing made or written.
    pub(crate) fn new() -> Program {
        Program {
            input: [b'0'; READ_SIZE],
            output: [0; LIMIT],
        }
    }

    // Whether an input gives this text.
    pub(crate) fn gives(&mut self, input: &str, text: &str) -> bool {
        prints(&mut self.output, input.as_bytes(), text.as_bytes())
    }

    // Whether the input of a number in a list gives its text.
    pub(crate) fn gives_listed(&mut self, list: &[(&str, &str)], i: usize) -> Option<bool> {
        let (input, text) = list.get(i)?;
        Some(self.gives(input, text))
    }

    // Whether the input of a template gives its text, with the byte of a number: 256 numbers for each template of the list.
    pub(crate) fn gives_filled(&mut self, list: &[Template<'_>], i: usize) -> Option<bool> {
        let template = list.get(i / 256)?;
        let byte = byte(i);
        let input = copy(&mut self.input, template.input.as_bytes());
        for at in input.iter_mut() {
            if *at == b'@' {
                *at = byte;
            }
        }
        Some(prints(&mut self.output, input, template.text(byte).as_bytes()))
    }

    // Whether an input with zeros after it, of which so many bytes are read, gives this text.
    pub(crate) fn gives_long(&mut self, input: &str, length: usize, text: &str) -> bool {
        self.input.fill(b'0');
        copy(&mut self.input, input.as_bytes());
        let input = &self.input[..length.min(READ_SIZE)];
        prints(&mut self.output, input, text.as_bytes())
    }

    // Whether the input in a file gives the text in another, which has the heading too. A file that is missing differs.
    pub(crate) fn gives_file(
        &mut self,
        rt: &(impl Files + AllocGlobal),
        input: &str,
        text: &str,
    ) -> bool {
        let Ok(input) = fs::read(rt, input) else {
            return false;
        };
        let Ok(text) = fs::read(rt, text) else {
            return false;
        };
        text.as_slice()
            .strip_prefix(HEADING)
            .is_some_and(|text| prints(&mut self.output, input.as_slice(), text))
    }
}

// Copies an input to the start of an array, and answers it there.
fn copy<'a>(array: &'a mut [u8; READ_SIZE], input: &[u8]) -> &'a mut [u8]
    ensures { length result.now ≤ READ_SIZE }
{
    let length = input.len().min(READ_SIZE);
    let copied = &mut array[..length];
    copied.copy_from_slice(&input[..length]);
    copied
}

// Whether an input gives the heading and then this text.
fn prints(output: &mut [u8; LIMIT], input: &[u8], text: &[u8]) -> bool {
    let written = transcript::run(input, output);
    let Some(output) = output.get(..written) else {
        return false;
    };
    output.strip_prefix(HEADING) == Some(text)
}
