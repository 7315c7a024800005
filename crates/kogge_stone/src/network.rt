// The Kogge-Stone network: codes over the positions of the order, joined at distances 1, 2, 4 and so on.
ghost use Rattle.std.specs.Prelude.{true, ◌+◌, ◌++◌, ◌≡◌, ◌≤◌, ◌<◌, length, take, drop};
ghost use Rattle.std.specs.Int.Count.{ones};
ghost use Rattle.rules.specs.KoggeStone as KoggeStoneRule;
ghost use Rattle.rules.specs.RoundRobin.{start};
ghost use Rattle.rules.specs.Thermometer as ThermometerRule;
ghost use Rattle.arbiter.specs.Decisions.{requested};
ghost use Rattle.search.specs.Places.{Bits};
ghost use Rattle.arbiter.specs.Questions.{max_width};
ghost use Rattle.kogge_stone.specs.Steps.{Codes};

use arbiter::first_station;
use rules::Head;
use thermometer::adder::Picks;

// Writes what comes out of the network: for each position of the order the code of how many ask up to it, its own station included,
// or of the picks where those are fewer. It answers whether any of its adders cut anything off. `before` is room for as many codes,
// whatever it holds.
pub(crate) fn run(
    picks: Picks,
    head: Head,
    requests: &[u8],
    codes: &mut [u8],
    before: &mut [u8],
) -> bool
    requires head_in_bounds { start head < length requests.now }
    requires requests_len_bound { length requests.now ≤ max_width }
    requires bits { Bits requests.now }
    requires codes_len { length codes.old ≡ length requests.now }
    requires before_len { length before.old ≡ length requests.now }
    ensures value { result ≡ KoggeStoneRule.network_cuts (length requests.now) (ones picks.code) head (requested requests.now) }
    ensures codes_after { codes.new ≡ KoggeStoneRule.network (length requests.now) (ones picks.code) head (requested requests.now) }
{
    let first = first_station(head);
    rotate(first, requests, codes);
    join_all(picks, codes, before)
}

// Writes the requests in the order that starts at station `first`.
fn rotate(first: usize, requests: &[u8], ordered: &mut [u8])
    requires first_in_bounds { first ≤ length requests.now }
    requires ordered_len { length ordered.old ≡ length requests.now }
    ensures { ordered.new ≡ drop first requests.now ++ take first requests.now }
{
    let (low, high) = requests.split_at(first);
    let (earlier, later) = ordered.split_at_mut(high.len());
    earlier.copy_from_slice(high);
    later.copy_from_slice(low);
}

// Joins the codes at distances 1, 2, 4 and so on, while the distance is below their number, and answers whether anything was cut off.
// `before` is room for as many.
fn join_all(picks: Picks, codes: &mut [u8], before: &mut [u8]) -> bool
    requires codes_len_bound { length codes.old ≤ max_width }
    requires codes { Codes (ones picks.code) codes.old }
    requires before_len { length before.old ≡ length codes.old }
    ensures value { result ≡ KoggeStoneRule.levels_cut (ones picks.code) (KoggeStoneRule.distances (length codes.old)) codes.old }
    ensures codes_after { codes.new ≡ KoggeStoneRule.levels (ones picks.code) (KoggeStoneRule.distances (length codes.old)) codes.old }
{
    // a `while`, since the distance doubles
    let mut distance: usize = 1;
    let mut cut = false;
    while distance < codes.len() {
        copy(codes, before);
        cut |= join_at(picks, distance, before, codes);
        distance *= 2;
    }
    cut
}

// Copies the codes of a level. The library's `copy_from_slice` becomes a call whose loads are wider than the stores of the level
// before, so the processor waits for those: with it a cycle of 64 stations took a third longer.
fn copy(from: &[u8], to: &mut [u8])
    requires { length from.now ≡ length to.old }
    ensures { to.new ≡ from.now }
{
    for i in 0..to.len() {
        to[i] = from[i];
    }
}

// Joins the code of each position that is at least `distance` from the first to the code of the position that far before it, as it
// was `before`, and answers whether anything was cut off: of the whole sums or'ed one comparison tells. The code of the picks is the
// most that is kept, a byte, so the cast loses nothing. By index, since what is written through `zip` a proof knows by its length alone.
fn join_at(picks: Picks, distance: usize, before: &[u8], codes: &mut [u8]) -> bool
    requires codes { Codes (ones picks.code) before.now }
    requires codes_value { codes.old ≡ before.now }
    ensures value { result ≡ KoggeStoneRule.joined_cuts (ones picks.code) distance before.now }
    ensures codes_after { codes.new ≡ KoggeStoneRule.joined (ones picks.code) distance before.now }
{
    let mut reach = 0;
    for p in distance..codes.len() {
        let whole = sum(before[p - distance], codes[p]);
        reach |= whole;
        codes[p] = whole.min(u16::from(picks.code)) as u8;
    }
    u16::from(picks.code) < reach
}

// The code of two codes' counts together. The code of a count c is 2^c - 1, so it is left * right + left + right.
#[tactic(auto, using(crate::proofs::Codes::whole))]
fn sum(left: u8, right: u8) -> u16
    requires left_value { left ≡ ThermometerRule.code (ones left) }
    requires right_value { right ≡ ThermometerRule.code (ones right) }
    ensures { result ≡ ThermometerRule.code (ones left + ones right) }
{
    u16::from(left) * u16::from(right) + u16::from(left) + u16::from(right)
}
