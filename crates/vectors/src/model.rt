// A served cycle against the model.
use crate::engine::{self, Engine, NODES, WIDEST};
use crate::{compare, packed};
use arbiter::{Answer, Granted, State};

// What a cycle came to: whether it is as the model says, the state it left, and whether more are pending.
#[derive(Clone, Copy)]
pub struct Cycle {
    pub same: bool,
    pub state: State,
    pub more: bool,
}

// Runs one cycle that is to be served, and compares it; the packed scan's with the plain scan's too.
pub(crate) fn run(engine: Engine, s: State, requests: &[u8], acknowledge: u8) -> Cycle {
    let width = requests.len().min(WIDEST);
    let mut grants = [7u8; WIDEST];
    let grants = &mut grants[..width];
    let mut nodes = [7u8; NODES];
    let nodes = &mut nodes[..2 * width];
    let a = engine.cycle(s, requests, grants, nodes, acknowledge);
    let model = of(s, requests);
    let next = next_head(engine, &model, acknowledge);
    let same = answers(&model, next, a)
        && same_grants(&model, grants)
        && (engine != engine::TREE || same_nodes(s, requests, nodes))
        && (engine != Engine::Packed || packed::as_scan(s, requests));
    Cycle {
        same,
        state: a.state,
        more: a.outcome.is_ok_and(|granted| granted.more),
    }
}

// The model of a cycle from this state.
pub(crate) fn of(s: State, requests: &[u8]) -> reference::Cycle<'_> {
    reference::Cycle {
        width: s.width,
        picks: s.picks,
        head: s.head,
        requests,
    }
}

// Whether a served cycle is answered as the model says, with this next head or token.
pub(crate) fn answers(model: &reference::Cycle<'_>, next: usize, a: Answer<Granted>) -> bool {
    let state = compare::state(model.width, model.picks, Some(next));
    compare::grants(a, model.count(), state, model.more())
}

// Where the model leaves the head or the token.
fn next_head(engine: Engine, model: &reference::Cycle<'_>, acknowledge: u8) -> usize {
    if engine == Engine::Bus {
        return model.next_token(acknowledge == 1);
    }
    model.next()
}

// Whether the grants are the model's.
pub(crate) fn same_grants(model: &reference::Cycle<'_>, grants: &[u8]) -> bool {
    grants
        .iter()
        .enumerate()
        .all(|(i, grant)| *grant == u8::from(model.granted(i)))
}

// The subtree of a node, by its stations.
#[derive(Clone, Copy)]
struct Subtree {
    from: usize,
    size: usize,
}

impl Subtree {
    // The next node's: of as many stations, the next, and after the last of half as many from the first on.
    fn next(self, width: usize) -> Subtree {
        if self.to() < width {
            return Subtree {
                from: self.to(),
                ..self
            };
        }
        Subtree {
            from: 0,
            size: self.size / 2,
        }
    }

    // One past its last station.
    fn to(self) -> usize {
        self.from.saturating_add(self.size)
    }
}

// Whether the nodes have the model's values: byte 0 is 0, then level by level from the root.
pub(crate) fn same_nodes(s: State, requests: &[u8], nodes: &[u8]) -> bool {
    let model = of(s, requests);
    let mut subtree = Subtree {
        from: 0,
        size: s.width,
    };
    for node in nodes.iter().skip(1) {
        if *node != model.node(subtree.from, subtree.to()) {
            return false;
        }
        subtree = subtree.next(s.width);
    }
    nodes.starts_with(&[0])
}
