//! The one-hot image of the head: a byte for each station, all 0 for none or a single 1 at the head.
#![tactic(auto)]

pub mod theorems;

ghost use Rattle.std.specs.Prelude.{◌≡◌, length, Ok};
ghost use Rattle.arbiter.specs.Answers as Answers;
ghost use Rattle.arbiter.specs.Questions as Questions;
ghost use Rattle.arbiter.specs.Questions.{◌then◌};
ghost use Rattle.one_hot.specs.Calls as OneHotCalls;

use arbiter::question::{self, Verdict};
use arbiter::refusal::{Buffer, Refusal};
use arbiter::{Answer, State};
use rules::Head;
use search::first_one;

/// A state whose head is read from an image or written as one.
#[derive(Clone, Copy)]
pub struct OneHot(pub State);

impl OneHot {
    /// Replaces the head by the one that an image shows. Asks 1, 3, 4, 5, 8 and 10. With 4 stations 0 0 1 0 gives head 2,
    /// and 0 1 0 1 is refused by 10 at place 3.
    pub fn read(mut self, image: &[u8]) -> Answer<()>
        ensures { result ≡ OneHotCalls.read self.0 image.now }
    {
        let outcome = self.take_head(image);
        Answer {
            state: self.0,
            outcome,
        }
    }

    // Takes the head that an image shows into the state, in place.
    #[tactic(auto, using(crate::specs::Calls::Laws::read_served, crate::specs::Calls::Laws::read_refused))]
    fn take_head(&mut self, image: &[u8]) -> Verdict
        ensures value { result ≡ (OneHotCalls.read self.old.0 image.now).outcome }
        ensures state_after { self.new.0 ≡ (OneHotCalls.read self.old.0 image.now).state }
    {
        self.0.head = read_head(&self.0, image)?;
        Ok(())
    }

    /// Writes the image of the head. Asks 1, 3, 4 and 6. With 4 stations head 2 gives 0 0 1 0, and no head 0 0 0 0.
    pub fn write(self, image: &mut [u8]) -> Answer<()>
        ensures value { result ≡ (OneHotCalls.write self.0 image.old).answer }
        ensures image_after { image.new ≡ (OneHotCalls.write self.0 image.old).written }
    {
        let outcome = write_head(&self.0, image);
        Answer {
            state: self.0,
            outcome,
        }
    }
}

// The questions of reading an image, and the head that it shows where they pass.
fn read_head(state: &State, image: &[u8]) -> Result<Head, Refusal>
    ensures { result ≡ (OneHotCalls.questions state.now image.now then Ok (OneHotCalls.head_of image.now)) }
{
    question::state(state)?;
    question::read_length(state.width, image.len())?;
    question::read(Buffer::Image, image)?;
    single_one(image)
}

// The questions of writing one; where they pass it writes the image of the head.
#[tactic(auto, using(arbiter::specs::Questions::Laws::writable), unfolding(crate::specs::Calls::image))]
fn write_head(state: &State, image: &mut [u8]) -> Verdict
    ensures value { result ≡ Questions.write_questions state.now state.now.width (length image.old) }
    ensures image_after { image.new ≡ Answers.if_passed (Questions.write_questions state.now state.now.width (length image.old)) (OneHotCalls.image state.now.width state.now.head) (λ _. image.old) }
{
    question::write(state, state.width, image.len())?;
    image.fill(0);
    if let Some(h) = state.head {
        image[h] = 1;
    }
    Ok(())
}

// Question 10, has an image at most one 1, and the head that it shows where it has. The place of a refusal is that of the second 1.
#[tactic(auto, using(crate::specs::Calls::Laws::one_hot_none, crate::specs::Calls::Laws::one_hot_single, crate::specs::Calls::Laws::one_hot_second, crate::specs::Calls::Laws::one_below))]
fn single_one(image: &[u8]) -> Result<Head, Refusal>
    ensures { result ≡ (OneHotCalls.one_hot image.now then Ok (OneHotCalls.head_of image.now)) }
{
    let Some(one) = first_one(0, image) else {
        return Ok(None);
    };
    match first_one(one + 1, image) {
        None => Ok(Some(one)),
        Some(another) => Err(Refusal::SecondOne(another)),
    }
}
