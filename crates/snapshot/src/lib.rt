//! The snapshot of a state, in six bytes: the width less one in two bytes, the picks, the head or 0 in two bytes, and the mark, 1 if there
//! is a head. The low byte of two is the first. A short form has four bytes, one for each of these; it is still read, but no longer
//! written.
#![tactic(auto)]

pub mod theorems;

ghost use Rattle.std.specs.Prelude.{◌≡◌, length, Ok};
ghost use Rattle.arbiter.specs.Answers as Answers;
ghost use Rattle.arbiter.specs.Questions as Questions;
ghost use Rattle.arbiter.specs.Questions.{◌then◌};
ghost use Rattle.snapshot.specs.Calls as SnapshotCalls;

use arbiter::question::{self, Verdict};
use arbiter::refusal::{Buffer, Refusal};
use arbiter::{Answer, State, first_station, opened};
use rules::Head;

/// How long a snapshot is.
pub const SIZE: usize = 6;

/// How long the short form is.
pub const SHORT_SIZE: usize = 4;

/// A state that is saved as a snapshot.
#[derive(Clone, Copy)]
pub struct Snapshot(pub State);

// What the bytes of a snapshot say: the width, the picks, the head's station or 0, and the mark. The last two are no head yet, since
// question 4 refuses a station other than 0 without its mark.
#[derive(Clone, Copy)]
struct Fields {
    width: usize,
    picks: usize,
    station: usize,
    mark: usize,
}

impl Snapshot {
    /// Writes the snapshot of this state. Asks 1, 3, 4 and 6. With 4 stations, 2 picks and head 1 it is 3 0 2 1 0 1.
    pub fn write(self, snapshot: &mut [u8]) -> Answer<()>
        ensures value { result ≡ (SnapshotCalls.write self.0 snapshot.old).answer }
        ensures snapshot_after { snapshot.new ≡ (SnapshotCalls.write self.0 snapshot.old).written }
    {
        let outcome = save(&self.0, snapshot);
        Answer {
            state: self.0,
            outcome,
        }
    }

    /// The state that a snapshot holds. Asks 5, 8 of the last byte, 1, 3 and 4: 3 0 2 1 0 2 is refused by 8 at place 5, and
    /// 3 0 2 0 1 0 by 4. The short form 3 2 1 1 gives what 3 0 2 1 0 1 gives, and 3 2 1 2 is refused by 8 at place 3.
    #[tactic(auto, using(arbiter::specs::Answers::Laws::opens_then))]
    pub fn read(snapshot: &[u8]) -> Answer<()>
        ensures { result ≡ SnapshotCalls.read snapshot.now }
    {
        opened(readable(snapshot))
    }
}

impl Fields {
    // The state that they say.
    fn state(self) -> State
        ensures { result ≡ SnapshotCalls.state self }
    {
        State {
            width: self.width,
            picks: self.picks,
            head: self.head(),
        }
    }

    // The head that they say.
    fn head(self) -> Head
        ensures { result ≡ SnapshotCalls.marked self.station self.mark }
    {
        (self.mark == 1).then_some(self.station)
    }

    // The questions about them: 1, 3 and 4, which is also asked of a station without its mark.
    fn allowed(self) -> Verdict
        ensures { result ≡ SnapshotCalls.allowed self }
    {
        question::state(&self.state())?;
        question::refuse_unless((self.mark == 1) | (self.station == 0), Refusal::HeadRange)
    }
}

// The questions of writing a snapshot; where they pass it writes that of this state.
// By the questions the width is at most 1,024 and the picks at most 8, so the casts lose nothing.
#[tactic(auto, using(arbiter::specs::Questions::Laws::writable))]
fn save(state: &State, snapshot: &mut [u8]) -> Verdict
    ensures value { result ≡ Questions.write_questions state.now SnapshotCalls.size (length snapshot.old) }
    ensures snapshot_after { snapshot.new ≡ Answers.if_passed (Questions.write_questions state.now SnapshotCalls.size (length snapshot.old)) (SnapshotCalls.saved state.now) (λ _. snapshot.old) }
{
    question::write(state, SIZE, snapshot.len())?;
    let [width_low, width_high] = ((state.width - 1) as u16).to_le_bytes();
    let [station_low, station_high] = (first_station(state.head) as u16).to_le_bytes();
    snapshot.copy_from_slice(&[
        width_low,
        width_high,
        state.picks as u8,
        station_low,
        station_high,
        u8::from(state.head.is_some()),
    ]);
    Ok(())
}

// The questions of reading a snapshot, and the state that it says where they pass. The width of a short form, a byte and one more, always
// passes 1.
fn readable(snapshot: &[u8]) -> Result<State, Refusal>
    ensures { result ≡ (SnapshotCalls.questions snapshot.now then Ok (SnapshotCalls.state (SnapshotCalls.fields snapshot.now))) }
{
    let fields = held(snapshot)?;
    question::bits(Buffer::Snapshot, snapshot.len() - 1, snapshot)?;
    fields.allowed()?;
    Ok(fields.state())
}

// Question 5, and what a snapshot of either form says where it passes.
#[tactic(auto, using(crate::specs::Calls::Laws::held_short, crate::specs::Calls::Laws::held_long, crate::specs::Calls::Laws::word), unfolding(crate::specs::Calls::short_fields, crate::specs::Calls::long_fields))]
fn held(snapshot: &[u8]) -> Result<Fields, Refusal>
    ensures { result ≡ (SnapshotCalls.read_length (length snapshot.now) then Ok (SnapshotCalls.fields snapshot.now)) }
{
    match snapshot {
        [
            width_low,
            width_high,
            picks,
            station_low,
            station_high,
            mark,
        ] => Ok(Fields {
            width: usize::from(u16::from_le_bytes([*width_low, *width_high])) + 1,
            picks: usize::from(*picks),
            station: usize::from(u16::from_le_bytes([*station_low, *station_high])),
            mark: usize::from(*mark),
        }),
        [width, picks, station, mark] => Ok(Fields {
            width: usize::from(*width) + 1,
            picks: usize::from(*picks),
            station: usize::from(*station),
            mark: usize::from(*mark),
        }),
        _ => Err(Refusal::ReadLength),
    }
}
