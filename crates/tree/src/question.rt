//! The questions that the tree asks. Those that are the tree's alone stand here, the others in `arbiter`.
ghost use Rattle.std.specs.Prelude.{◌≡◌};
ghost use Rattle.tree.specs.Calls as TreeCalls;

use arbiter::State;
use arbiter::question::{self, Verdict};
use arbiter::refusal::{Buffer, Refusal};

// Question 2: is the width a power of two, at least 2?
#[tactic(auto, using(crate::proofs::Sizes::power_test))]
fn tree_width(width: usize) -> Verdict
    ensures { result ≡ TreeCalls.tree_width width }
{
    question::refuse_unless((2 <= width) & width.is_power_of_two(), Refusal::TreeWidth)
}

/// Question 7: is the node buffer twice as long as there are stations?
pub fn nodes_length(width: usize, length: usize) -> Verdict
    ensures { result ≡ TreeCalls.nodes_length width length }
{
    question::refuse_unless(
        (length / 2 == width) & (length % 2 == 0),
        Refusal::NodesLength,
    )
}

// Questions 1, 2, 3 and 4.
pub(crate) fn state(state: &State) -> Verdict
    ensures { result ≡ TreeCalls.state_questions state.now }
{
    question::width(state.width)?;
    tree_width(state.width)?;
    question::one_pick(state.picks)?;
    question::head(state.width, state.head)
}

// Questions 1 to 8 of a cycle whose grant and node buffers have these lengths.
pub(crate) fn cycle(state: &State, requests: &[u8], grants: usize, nodes: usize) -> Verdict
    ensures { result ≡ TreeCalls.questions state.now requests.now grants nodes }
{
    self::state(state)?;
    question::read_length(state.width, requests.len())?;
    question::write_length(state.width, grants)?;
    nodes_length(state.width, nodes)?;
    question::read(Buffer::Requests, requests)?;
    Ok(())
}
