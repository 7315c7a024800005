// The node tables of 000 and 002, on trees of 8 stations: for every head and none and every set of requests, each node through
// which the tree comes down to the station that it grants.
ghost use Rattle.std.specs.Prelude.{◌<◌};

use crate::{compare, small};
use tree::Tree;

// 000's table 2, 002's table II, 002's equation 13. Table II speaks of inner nodes alone, and always with a head. They are an enum
// and no closures: a table says of which nodes it speaks, which way these go, and which of its places are met.
#[derive(Clone, Copy, Debug, PartialEq, Eq)]
pub enum Table {
    Table2,
    TableII,
    Equation13,
}

// 3 nodes on the way, 256 sets of requests, 9 heads.
const NODES: usize = 3 * 256 * 9;

// The places of a table, each a pair of child values, 4 × left + right, in one of 4 columns: the root and the other nodes with a
// head, and the same without.
const PLACES: usize = 64;

// The nodes, and then the places, whether each was met. One number counts through both, since the group prints one line.
pub(crate) const CASES: usize = NODES + PLACES;

// 000's table 2, for each column. A point is a case that it calls impossible. In the second column it is 002's table II too.
const ACTIONS: &[u8; PLACES] = b"..RR..LRLR..LL..\
    .RRRLLLRLR..LL..\
    RR..LL..........\
    RR..LL..........";

// A table, and which of its places were met.
#[derive(Clone, Copy)]
pub struct Walk {
    table: Table,
    met: [bool; PLACES],
}

impl Walk {
    // A table, none of whose places was met.
    pub(crate) fn new(table: Table) -> Walk {
        Walk {
            table,
            met: [false; PLACES],
        }
    }

    // The case of a number. Those of all nodes come before those of the places.
    pub(crate) fn case(&mut self, i: usize) -> Option<bool> {
        if i < NODES {
            return self.node(i);
        }
        let place = i % PLACES;
        Some(self.table.expects(place) == self.met[place])
    }

    // The parent of a node on the way down, the lowest first, against its table. Where no one is granted no way is seen. The values
    // of table II are every node's.
    fn node(&mut self, i: usize) -> Option<bool> {
        let head = small::head(i / 768 % 9);
        let mut grants = [7u8; 8];
        let mut nodes = [7u8; 16];
        Tree(compare::state(8, 1, head)).cycle(
            &small::spread::<8>(i / 3 % 256),
            &mut grants,
            &mut nodes,
        );
        let station = grants.iter().position(|grant| *grant == 1)?;
        if self.table == Table::TableII && (head.is_none() || i % 3 != 1) {
            return None;
        }
        let node = (8 + station % 8) >> (i % 3);
        let parent = node / 2;
        let (left, right) = (nodes[2 * parent] % 4, nodes[2 * parent + 1] % 4);
        let place = place(head.is_some(), parent == 1, left, right);
        self.met[place] = true;
        let valued = value(left, right) == Some(nodes[parent]);
        Some(valued && self.table.goes_right(place) == (node % 2 == 1))
    }
}

// The place of a pair of child values, under the root or another node, with a head or without.
fn place(headed: bool, root: bool, left: u8, right: u8) -> usize
    ensures { result < 64 }
{
    let column = match (headed, root) {
        (true, true) => 0,
        (true, false) => 1,
        (false, true) => 2,
        (false, false) => 3,
    };
    16 * column + 4 * usize::from(left % 4) + usize::from(right % 4)
}

impl Table {
    // Whether it goes right.
    fn goes_right(self, place: usize) -> bool {
        if self == Table::Equation13 {
            return equation(place / 4 % 4, place % 4);
        }
        ACTIONS.get(place) == Some(&b'R')
    }

    // Whether a place is to be met. The pair of two zeros cannot be: there no one asks.
    fn expects(self, place: usize) -> bool {
        let spoken = self != Table::TableII || place / 16 == 1;
        let action = ACTIONS.get(place).copied().unwrap_or(b'.');
        spoken && place % 16 != 0 && action != b'.'
    }
}

// The value of a node in 002's table II, by those of its children. None where it has no row.
fn value(left: u8, right: u8) -> Option<u8> {
    match (left, right) {
        (0 | 1, 1) | (1, 0) => Some(1),
        (0 | 1, 2) | (2, 0) => Some(2),
        (0 | 1, 3) | (2, 1) | (3, 0 | 1) => Some(3),
        _ => None,
    }
}

// 002's equation 13: the right's two bits are 1, or the left's are 0, or the left's S0 is 0 and the right's is 1.
fn equation(left: usize, right: usize) -> bool {
    right == 3 || left == 0 || (left % 2 == 0 && right % 2 == 1)
}
