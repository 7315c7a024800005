// The node buffer: byte 0 is 0, node 1 is the root, node u has the children 2u and 2u + 1, and station i is node width + i. A
// node's value is 2 × S1 + S0: S1 says that the head is below it, S0 that a station below it asks.
ghost use Rattle.std.specs.Prelude.{◌≡◌, map, ◌+◌, ◌-◌, ◌*◌, ◌≤◌, ◌<◌, length, drop};
ghost use Rattle.rules.specs.Lists.{range};
ghost use Rattle.rules.specs.RoundRobin.{start};
ghost use Rattle.rules.specs.Tree as TreeRule;
ghost use Rattle.arbiter.specs.Decisions.{requested};
ghost use Rattle.search.specs.Places.{Bits};
ghost use Rattle.tree.specs.Steps as TreeSteps;

use arbiter::engine::ServedCycle;

// No more pairs than these are joined at once, so that the array of them stays small.
const MAX_PAIRS: usize = 128;

// No more nodes than these are joined one by one.
const FEW_NODES: usize = 16;

// A node buffer for `width` stations. The width stands beside the buffer, since as half a length every clause would divide. That a byte
// is a node's value, below 4, is asked where it is used: the bytes are the caller's, and few are values before the tree is built.
#[derive(Drop)]
pub(crate) struct Nodes<'a> {
    pub(crate) width: usize,
    pub(crate) bytes: &'a mut [u8],
    ghost some: { 1 ≤ width },
    ghost long: { length bytes.now ≡ 2 * width },
}

impl Nodes<'_> {
    // Writes the tree of these requests and the head.
    #[tactic(auto, using(crate::proofs::Buffer::leaves_low, crate::proofs::Buffer::written), unfolding(rules::specs::Tree::nodes))]
    pub(crate) fn build(&mut self, cycle: &ServedCycle<'_>)
        requires { length cycle.now.requests.now ≡ self.old.width }
        ensures same_width { self.new.width ≡ self.old.width }
        ensures same_reference { self.new.bytes.ghost_name ≡ self.old.bytes.ghost_name }
        ensures bytes_after { self.new.bytes.now ≡ TreeRule.nodes self.old.width cycle.now.head (requested cycle.now.requests.now) }
    {
        write_stations(cycle, &mut self.bytes[self.width..]);
        self.join_all();
    }

    // Joins the nodes from the last that is no station's up to the root, and sets byte 0.
    #[tactic(auto, using(crate::proofs::Buffer::joined_all))]
    fn join_all(&mut self)
        requires values_from { TreeSteps.ValuesFrom self.old.width self.old.width self.old.bytes.now }
        ensures same_width { self.new.width ≡ self.old.width }
        ensures same_reference { self.new.bytes.ghost_name ≡ self.old.bytes.ghost_name }
        ensures bytes_after { self.new.bytes.now ≡ TreeRule.joined (self.old.width - 1) (drop self.old.width self.old.bytes.now) }
    {
        let low = self.join_levels();
        for u in (1..low).rev() {
            self.bytes[u] = join(self.bytes[2 * u], self.bytes[2 * u + 1]);
        }
        self.bytes[0] = 0;
    }

    // Joins level after level, or parts of them, while more than a few nodes are left, and says from which node on the buffer is done.
    // The children are read before any of the nodes is written, so that the compiler can join many at once. A small tree makes no array.
    // How many are joined at once goes by how many are left, so no range gives it.
    fn join_levels(&mut self) -> usize
        requires values_from { TreeSteps.ValuesFrom self.old.width self.old.width self.old.bytes.now }
        ensures same_width { self.new.width ≡ self.old.width }
        ensures same_reference { self.new.bytes.ghost_name ≡ self.old.bytes.ghost_name }
        ensures done { TreeSteps.DoneFrom result self.old.width (TreeRule.joined (self.old.width - 1) (drop self.old.width self.old.bytes.now)) self.new.bytes.now }
    {
        if self.width <= FEW_NODES {
            return self.width;
        }
        let mut pairs = [0u16; MAX_PAIRS];
        let mut low = self.width;
        while FEW_NODES < low {
            let from = low - (low / 2).min(MAX_PAIRS);
            let nodes = &mut *self.bytes;
            read_pairs(from, low, nodes, &mut pairs);
            join_pairs(from, low, &pairs, nodes);
            low = from;
        }
        low
    }
}

// Writes the stations' nodes: each its request as S0, and the head's S1.
#[tactic(auto, using(rules::proofs::RoundRobin::Laws::start_at, crate::proofs::Buffer::marked_none, crate::proofs::Buffer::marked_at))]
fn write_stations(cycle: &ServedCycle<'_>, stations: &mut [u8])
    requires { length stations.old ≡ length cycle.now.requests.now }
    ensures { stations.new ≡ map (TreeRule.leaf cycle.now.head (requested cycle.now.requests.now)) (range 0 (length cycle.now.requests.now)) }
{
    stations.copy_from_slice(cycle.requests);
    if let Some(h) = cycle.head {
        stations[h] += 2;
    }
}

// Reads the children of the nodes from `from` up to `to`, a pair for each: left + 256 × right. By index, as the next, since what is
// written through `zip` or `enumerate` a proof knows by its length alone.
fn read_pairs(from: usize, to: usize, nodes: &[u8], pairs: &mut [u16; MAX_PAIRS])
    requires to_bound { to ≤ from + TreeSteps.max_pairs }
    requires to_in_bounds { 2 * to ≤ length nodes.now }
    requires pairs_len { length pairs.old ≡ TreeSteps.max_pairs }
    ensures { TreeSteps.Pairs from to nodes.now pairs.new }
{
    for u in from..to {
        pairs[u - from] = u16::from_le_bytes([nodes[2 * u], nodes[2 * u + 1]]);
    }
}

// Joins these pairs into the nodes from `from` up to `to`.
fn join_pairs(from: usize, to: usize, pairs: &[u16; MAX_PAIRS], nodes: &mut [u8])
    requires from_le_to { from ≤ to }
    requires to_bound { to ≤ from + TreeSteps.max_pairs }
    requires to_bound_2 { to ≤ 2 * from }
    requires to_in_bounds { 2 * to ≤ length nodes.old }
    requires values_from { TreeSteps.ValuesFrom to to nodes.old }
    requires pairs { TreeSteps.Pairs from to nodes.old pairs.now }
    ensures { TreeSteps.Level from to nodes.old nodes.new }
{
    for u in from..to {
        let [left, right] = pairs[u - from].to_le_bytes();
        nodes[u] = join(left, right);
    }
}

// The value of a node with these children, both below 4, bit by bit: both bits of the right, S1 of the left, and its S0 where the
// right has no S1.
fn join(left: u8, right: u8) -> u8
    requires left_bound { left < 4 }
    requires right_bound { right < 4 }
    ensures { result ≡ TreeRule.join left right }
{
    right | (left & !(right >> 1))
}

// The S0 of a value.
#[tactic(auto, unfolding(rules::specs::Tree::s0))]
pub(crate) fn s0(value: u8) -> bool
    ensures { result ≡ TreeRule.s0 value }
{
    value % 2 == 1
}
