//! The questions that most calls ask, one function for each: `Ok` where a question passes, and else its refusal. A call asks those that
//! concern it in their order, and the first that refuses decides. A question that one crate alone asks stands there.
ghost use Rattle.std.specs.Prelude.{◌≡◌};
ghost use Rattle.arbiter.specs.Questions as Questions;

use crate::refusal::{Buffer, Refusal};
use crate::{MAX_PICKS, MAX_WIDTH, State};
use rules::Head;
use search::{first_above, highest};

/// What a question says.
pub type Verdict = Result<(), Refusal>;

/// A refusal of bytes that were to be read, with the highest of them, or 0 where a question refused before they were read. By `?` the
/// refusal alone goes on.
#[derive(Clone, Copy, Debug, PartialEq, Eq)]
pub struct RefusedReading {
    pub refusal: Refusal,
    pub highest: u8,
}

impl From<Refusal> for RefusedReading {
    ghost from_gives = { λ refusal reading. reading ≡ Questions.unread refusal };

    fn from(refusal: Refusal) -> RefusedReading {
        RefusedReading {
            refusal,
            highest: 0,
        }
    }
}

impl From<RefusedReading> for Refusal {
    ghost from_gives = { λ reading refusal. refusal ≡ reading.refusal };

    fn from(reading: RefusedReading) -> Refusal {
        reading.refusal
    }
}

/// The verdict of a question: yes passes, no refuses.
pub fn refuse_unless(yes: bool, refusal: Refusal) -> Verdict
    ensures { result ≡ Questions.refuse_unless yes refusal }
{
    if yes { Ok(()) } else { Err(refusal) }
}

/// Question 1: is the width in 1 to `MAX_WIDTH`?
pub fn width(width: usize) -> Verdict
    ensures { result ≡ Questions.width width }
{
    refuse_unless((1 <= width) & (width <= MAX_WIDTH), Refusal::Width)
}

/// Question 3: are the picks in 1 to `MAX_PICKS`, and no more than the stations?
pub fn picks(width: usize, picks: usize) -> Verdict
    ensures { result ≡ Questions.picks width picks }
{
    refuse_unless(
        (1 <= picks) & (picks <= MAX_PICKS) & (picks <= width),
        Refusal::Picks,
    )
}

/// Question 3 of an arbiter with one pick: is that the number of the picks?
pub fn one_pick(picks: usize) -> Verdict
    ensures { result ≡ Questions.one_pick picks }
{
    refuse_unless(picks == 1, Refusal::Picks)
}

/// Question 4: is the head none or a station?
// A match: with `is_none_or` a cycle of the packed scan took a tenth longer.
pub fn head(width: usize, head: Head) -> Verdict
    ensures { result ≡ Questions.head width head }
{
    match head {
        None => Ok(()),
        Some(h) => refuse_unless(h < width, Refusal::HeadRange),
    }
}

/// Question 5: is the buffer to be read as long as stated? It takes the length alone, as question 6 does: that is all it is about, and a
/// refusal of each is its own.
pub fn read_length(stated: usize, length: usize) -> Verdict
    ensures { result ≡ Questions.read_length stated length }
{
    refuse_unless(length == stated, Refusal::ReadLength)
}

/// Question 6: is the buffer to be written as long as stated?
pub fn write_length(stated: usize, length: usize) -> Verdict
    ensures { result ≡ Questions.write_length stated length }
{
    refuse_unless(length == stated, Refusal::WriteLength)
}

/// Question 8: is every byte from `from` on 0 or 1? A refusal names the buffer, and the place of the first byte that is not.
pub fn bits(buffer: Buffer, from: usize, bytes: &[u8]) -> Verdict
    ensures { result ≡ Questions.bits buffer from bytes.now }
{
    if let Some(place) = first_above(1, from, bytes) {
        return Err(Refusal::NotABit(buffer, place));
    }
    Ok(())
}

/// Question 8 of all bytes, with the highest of them: where it passes, and beside its refusal. A place is looked for only where the
/// highest byte shows that there is one.
pub fn read(buffer: Buffer, bytes: &[u8]) -> Result<u8, RefusedReading>
    ensures { result ≡ Questions.read Questions.passed buffer bytes.now }
{
    let high = highest(bytes);
    if 1 < high {
        bits(buffer, 0, bytes).map_err(|refusal| RefusedReading {
            refusal,
            highest: high,
        })?;
    }
    Ok(high)
}

/// Questions 1, 3 and 4.
pub fn state(state: &State) -> Verdict
    ensures { result ≡ Questions.state_questions state.now }
{
    width(state.width)?;
    picks(state.width, state.picks)?;
    head(state.width, state.head)
}

/// Questions 1, 3, 4 and 6 of a call that writes what a state holds to a buffer.
pub fn write(state: &State, stated: usize, length: usize) -> Verdict
    ensures { result ≡ Questions.write_questions state.now stated length }
{
    self::state(state)?;
    write_length(stated, length)
}

/// Questions 5, 6 and 8 of a cycle, after those about its state, with the highest byte of the requests: where they pass, and beside a
/// refusal by 8. Beside one by 5 or 6 it is 0. The grant buffer has `length` bytes.
pub fn cycle(width: usize, requests: &[u8], length: usize) -> Result<u8, RefusedReading>
    ensures { result ≡ Questions.cycle width requests.now length }
{
    read_length(width, requests.len())?;
    write_length(width, length)?;
    read(Buffer::Requests, requests)
}
