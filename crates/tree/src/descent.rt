// The descent from the root to a station.
ghost use Rattle.std.specs.Prelude.{◌≡◌, ◌+◌, ◌*◌, ◌≤◌, ◌<◌, length, get_or};
ghost use Rattle.rules.specs.Tree as TreeRule;
ghost use Rattle.tree.specs.Steps.{Values};

use crate::nodes::Nodes;

impl Nodes<'_> {
    // The station that the descent reaches. The next node is what the choice says, so no range gives it.
    #[tactic(auto, using(rules::proofs::Tree::Laws::way_goes_on, rules::proofs::Tree::Laws::way_ends, rules::proofs::Tree::Laws::child_low))]
    pub(crate) fn reached(&self) -> usize
        requires { Values self.now.width self.now.bytes.now }
        ensures { result ≡ TreeRule.reached self.now.width self.now.bytes.now }
    {
        let mut u: usize = 1;
        while u < self.width {
            u = child(self.bytes, u);
        }
        u - self.width
    }
}

// The child that node u chooses, by the number of the pair of its children's values, 4 × left + right: the right one where the left is 0,
// where the right is 3, and for the pair of 2 and 1; else the left one.
#[tactic(auto, using(rules::proofs::Tree::Laws::right_pair), unfolding(rules::specs::Tree::child))]
fn child(nodes: &[u8], u: usize) -> usize
    requires u_in_bounds { 2 * u + 1 < length nodes.now }
    requires u_bound { get_or nodes.now (2 * u) 0 < 4 }
    requires u_bound_2 { get_or nodes.now (2 * u + 1) 0 < 4 }
    ensures { result ≡ TreeRule.child nodes.now u }
{
    let left = 2 * u;
    let right = left + 1;
    match nodes[left] * 4 + nodes[right] {
        0..=3 | 7 | 9 | 11 | 15 => right,
        4..=6 | 8 | 10 | 12.. => left,
    }
}
