// The first line of an input: the engine's letter, the number of stations and the pick count.
ghost use Rattle.std.specs.Prelude.{◌≡◌, cond, ◌≤◌, length};
ghost use Rattle.transcript.specs.FirstLine as FirstLines;

use crate::lines::find;
use engines::Engine;

// The most digits of a number.
const MAX_DIGITS: usize = 4;

// Which kind of arbiter runs: an engine of the round-robin rule, or the token bus.
#[derive(Clone, Copy, Debug, PartialEq, Eq)]
pub enum Kind {
    RoundRobin(Engine),
    TokenBus,
}

// What a first line says.
#[derive(Clone, Copy, Debug, PartialEq, Eq)]
pub struct FirstLine {
    pub kind: Kind,
    pub width: usize,
    pub picks: usize,
}

// Reads a first line, if it is readable: the letter, a space, the stations up to the next space, and the picks.
#[tactic(auto, using(crate::proofs::Readings::single, crate::proofs::Readings::reads), unfolding(crate::specs::FirstLine::first_line))]
pub(crate) fn read(line: &[u8]) -> Option<FirstLine>
    ensures { result ≡ FirstLines.first_line line.now }
{
    let [letter, b' ', numbers @ ..] = line else {
        return None;
    };
    let end = find(b' ', numbers)?;
    let kind = named(*letter)?;
    let width = read_number(&numbers[..end])?;
    let picks = read_number(&numbers[end + 1..])?;
    Some(FirstLine { kind, width, picks })
}

// The kind of arbiter that a letter names. Only a first line has such a letter, and a wrong one has no error of its own, so this is
// no `TryFrom`.
fn named(character: u8) -> Option<Kind>
    ensures { result ≡ FirstLines.letter character }
{
    match character {
        b'S' => Some(Kind::RoundRobin(Engine::Scan)),
        b'T' => Some(Kind::RoundRobin(Engine::Tree)),
        b'P' => Some(Kind::RoundRobin(Engine::Thermometer)),
        b'B' => Some(Kind::TokenBus),
        _ => None,
    }
}

// A number of one to `MAX_DIGITS` digits, with no leading zero except 0 itself. The library's `parse` takes a sign and leading zeros,
// and only of a `str`.
#[tactic(auto, unfolding(crate::specs::FirstLine::read_number, crate::specs::FirstLine::well_formed))]
fn read_number(digits: &[u8]) -> Option<usize>
    ensures { result ≡ FirstLines.read_number digits.now }
{
    let (first, others) = digits.split_first()?;
    if digits.len() > MAX_DIGITS {
        return None;
    }
    if *first == b'0' && !others.is_empty() {
        return None;
    }
    value(digits)
}

// The value of at most `MAX_DIGITS` characters, if all are digits.
fn value(digits: &[u8]) -> Option<usize>
    requires { length digits.now ≤ FirstLines.max_digits }
    ensures { result ≡ cond (FirstLines.all_digits digits.now) (Some (FirstLines.value 0 digits.now)) None }
{
    let mut value: usize = 0;
    for character in digits {
        if !character.is_ascii_digit() {
            return None;
        }
        value = 10 * value + usize::from(*character - b'0');
    }
    Some(value)
}
