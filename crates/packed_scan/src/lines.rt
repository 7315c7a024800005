// Searching packed wires by the table.
ghost use Rattle.std.specs.Prelude.{IfSome, ◌++◌, ◌≡◌, ◌+◌, ◌/◌, ◌%◌, ◌^◌, ◌<◌, length, take};
ghost use Rattle.rules.specs.Packing as Packing;
ghost use Rattle.search.specs.Places as Places;
ghost use Rattle.packed_scan.specs.Lines as PackedLines;

use crate::table;
use search::first_nonzero;

// The first byte that is not 0 of those after the byte `home` and then, up to it again, of those from 0 on; or none.
pub(crate) fn next_byte(home: usize, packed: &[u8]) -> Option<usize>
    requires { home < length packed.now }
    ensures value { result ≡ Places.first (Places.nonzero (home + 1) packed.now ++ Places.nonzero 0 (take (home + 1) packed.now)) }
    ensures bound { IfSome result (λ k. k < length packed.now) }
{
    let end = home + 1;
    first_nonzero(end, packed).or_else(|| first_nonzero(0, &packed[..end]))
}

// The first set line at or after `from` in that line's byte, or none. The lines of all bytes are counted through, eight to a byte.
pub(crate) fn first_in_byte(from: usize, packed: &[u8]) -> Option<usize>
    requires { from / 8 < length packed.now }
    ensures { result ≡ PackedLines.in_byte from packed.now }
{
    let byte = from / 8;
    let line = first_line(packed[byte], from % 8)?;
    Some(8 * byte + line)
}

// The first set line of a byte at or above the start, or none. Where no line from the start on is set, or the start's own line, a
// shift tells it sooner than the table.
#[tactic(auto, using(rules::proofs::Packing::Laws::entry_none, rules::proofs::Packing::Laws::entry_own, rules::proofs::Packing::Laws::entry))]
fn first_line(byte: u8, start: usize) -> Option<usize>
    requires { start < 8 }
    ensures { result ≡ PackedLines.listed (Packing.first_line byte start) }
{
    let rest = byte >> start;
    if rest == 0 {
        return None;
    }
    if rest % 2 == 1 {
        return Some(start);
    }
    match entry(byte, start) {
        8 => None,
        line => Some(usize::from(line)),
    }
}

// An entry of the table, which is 8 for none: N2 publishes it in this form.
fn entry(byte: u8, start: usize) -> u8
    requires { start < 8 }
    ensures { result ≡ Packing.first_line byte start }
{
    table::FROM_LINE[start][usize::from(byte)]
}

// A byte in which this station's line alone is set.
pub(crate) fn single(station: usize) -> u8
    ensures { result ≡ 2 ^ (station % 8) }
{
    1 << (station % 8)
}
