//! Searches of a buffer's bytes, by which the arbiters find whom to grant and what to refuse: the highest byte, and the first that is 1,
//! is not 0, or is above a limit. A search for the first takes the whole buffer and a place to start from, and answers with a place of
//! the whole buffer, so that the next one can go on behind it.
#![tactic(auto)]

ghost use Rattle.std.specs.Prelude.{◌≡◌, ◌+◌, ◌/◌, ◌≤◌, ◌<◌, ltb, length, take, drop};
ghost use Rattle.std.specs.Int.Count.{count_trailing_zeros};
ghost use Rattle.search.specs.Places as Places;
ghost use Rattle.search.specs.Words as Words;

/// The highest byte, or 0 where there is none: of 3 7 0 it is 7.
// It reads every byte, so that many are compared at once. A fold from 0: the library's `max` begins with the first byte, and what that
// leaves over at the end made a cycle of the scan a fifth longer and more.
pub fn highest(bytes: &[u8]) -> u8
    ensures { result ≡ Places.highest bytes.now }
{
    bytes.iter().fold(0, |high, byte| high.max(*byte))
}

/// The place of the first 1 from `from` on, or none: in 0 2 1 1, from 0 on, it is 2.
// Each search goes on behind the place that the last one found, so no range counts the steps.
pub fn first_one(from: usize, bytes: &[u8]) -> Option<usize>
    ensures { result ≡ Places.first (Places.ones from bytes.now) }
{
    let mut i = from;
    loop {
        let place = first_nonzero(i, bytes)?;
        if bytes[place] == 1 {
            return Some(place);
        }
        i = place + 1;
    }
}

/// The place of the first byte from `from` on that is not 0, or none: in 0 2 1 1, from 0 on, it is 1.
// It looks at eight bytes at a time, and at the last few one by one: the index goes by eights, and what is left begins where it ends.
// With `as_chunks` and `position` in place of the index a cycle of the scan, which searches once for each grant, took a fifth to a third
// longer; so did, tried in Rust, a `while let` by `first_chunk`.
pub fn first_nonzero(from: usize, bytes: &[u8]) -> Option<usize>
    ensures { result ≡ Places.first (Places.nonzero from bytes.now) }
{
    if bytes.len() < 8 {
        return first_above(0, from, bytes);
    }
    let last = bytes.len() - 8;
    let mut i = from;
    while i <= last {
        let word = eight(bytes, i);
        if word != 0 {
            return Some(i + lowest_byte(word));
        }
        i += 8;
    }
    first_above(0, i, bytes)
}

/// The place of the first byte from `from` on that is above `limit`, or none: above 1 in 0 2 1 3, from 2 on, it is 3.
// One byte at a time.
pub fn first_above(limit: u8, from: usize, bytes: &[u8]) -> Option<usize>
    ensures { result ≡ Places.first (Places.places (ltb limit) from bytes.now) }
{
    for i in from..bytes.len() {
        if limit < bytes[i] {
            return Some(i);
        }
    }
    None
}

// The eight bytes from `i` on as one number, the first of them lowest. The compiler makes one load of it. The library's `first_chunk`
// answers with an Option, which is slower where it ends the loop and else has a branch that is never taken.
fn eight(bytes: &[u8], i: usize) -> u64
    requires { i + 8 ≤ length bytes.now }
    ensures { result ≡ Words.number (take 8 (drop i bytes.now)) }
{
    u64::from_le_bytes([
        bytes[i],
        bytes[i + 1],
        bytes[i + 2],
        bytes[i + 3],
        bytes[i + 4],
        bytes[i + 5],
        bytes[i + 6],
        bytes[i + 7],
    ])
}

// Which byte of a number is the lowest that is not 0: 8 where all are. The cast loses nothing, and there is no `From` for it.
fn lowest_byte(word: u64) -> usize
    ensures { result ≡ count_trailing_zeros 64 word / 8 }
{
    (word.trailing_zeros() / 8) as usize
}
