// Thermometer codes and the saturated adder. The code of a count has that many of its lowest bits set.
ghost use Rattle.std.specs.Prelude.{true, ◌≡◌, ◌≤◌, min, max};
ghost use Rattle.std.specs.Int.Count.{ones};
ghost use Rattle.rules.specs.Thermometer as ThermometerRule;
ghost use Rattle.arbiter.specs.Questions as Questions;
ghost use Rattle.thermometer.specs.Adder as Adder;

use arbiter::MAX_PICKS;
use arbiter::question::{self, Verdict};
use arbiter::refusal::Refusal;

// A number of picks, from 1 to 8, by its code. That another byte is a code for these picks is asked where that is used: codes stand in
// buffers, as bytes, and the fact is one about both.
#[derive(Clone, Copy)]
pub struct Picks {
    pub code: u8,
    pub ghost coded: { ThermometerRule.is_code Questions.max_picks code ≡ true },
    pub ghost some: { 1 ≤ ones code },
}

impl Picks {
    // So many picks: the code of 3 is 111. It takes any number: 0 makes one pick, and more than 8 make eight.
    #[tactic(auto, using(rules::proofs::Thermometer::Laws::is_code_lem, rules::proofs::Thermometer::Laws::ones_code))]
    pub fn new(picks: usize) -> Picks
        ensures { ones result.code ≡ min Questions.max_picks (max 1 picks) }
    {
        Picks {
            code: code(picks.max(1)),
        }
    }
}

// What the adder answers: the code of the sum of two counts, or of the picks if that is smaller; and whether it cut anything off, which
// it did exactly if the counts add up to more than the picks (N5).
#[derive(Clone, Copy, Debug, PartialEq, Eq)]
pub struct Sum {
    pub code: u8,
    pub cut: bool,
}

// What a step of a running count answers: the code of the sum as in `Sum`; and the code of the whole sum, which is above that of the
// picks exactly if something was cut off. So of many steps' whole sums, or'ed, one comparison tells whether any step cut anything off.
#[derive(Clone, Copy)]
pub(crate) struct StepSum {
    pub(crate) code: u8,
    pub(crate) whole: u32,
}

/// The saturated sum. Asks 3 and 13. With 2 picks 01 and 01 give 11, and nothing is cut off; 11 and 01 give 11, and something is; 10 is
/// refused by 13.
pub fn add(picks: usize, left: u8, right: u8) -> Result<Sum, Refusal>
    ensures { result ≡ Adder.sum picks left right }
{
    pick_count(picks)?;
    codes(picks, left, right)?;
    Ok(join(picks, left, right))
}

// Question 3 of the adder, which has no stations: are the picks in 1 to `MAX_PICKS`?
fn pick_count(picks: usize) -> Verdict
    ensures { result ≡ Adder.pick_count picks }
{
    question::refuse_unless((1 <= picks) & (picks <= MAX_PICKS), Refusal::Picks)
}

// Question 13: are both bytes codes for these picks?
fn codes(picks: usize, left: u8, right: u8) -> Verdict
    ensures { result ≡ Adder.codes picks left right }
{
    question::refuse_unless(is_code(picks, left) & is_code(picks, right), Refusal::Code)
}

// The sum of two codes' counts.
fn join(picks: usize, left: u8, right: u8) -> Sum
    requires { picks ≤ Questions.max_picks }
    ensures { result ≡ Adder.joined picks left right }
{
    let sum = count(left) + count(right);
    Sum {
        code: code(sum.min(picks)),
        cut: picks < sum,
    }
}

// One step of a running count: the sum of a code and a request's code, which is 0 or 1. The code of one more is 2 * code + 1, of which a
// request of 0 keeps nothing; and of the whole sum the code of the picks keeps what they allow. It calls no function, not even
// `u32::from`.
pub(crate) fn step(picks: Picks, code: u8, request: u8) -> StepSum
    requires code_value { ThermometerRule.is_code (ones picks.code) code ≡ true }
    requires request_bound { request ≤ 1 }
    ensures { result ≡ Adder.step (ones picks.code) code request }
{
    let whole = (code as u32) | ((2 * (code as u32) + 1) * (request as u32));
    StepSum {
        code: (whole & (picks.code as u32)) as u8,
        whole,
    }
}

// The code of a count. A byte has room for eight: of a larger count it is the code of 8. The cast loses nothing.
pub fn code(count: usize) -> u8
    ensures { result ≡ ThermometerRule.code (min Questions.max_picks count) }
{
    let above: u32 = 1 << count.min(MAX_PICKS);
    (above - 1) as u8
}

// The count of a code: the number of its ones. The library gives it as a `u32`, and there is no `From` for the cast.
pub fn count(code: u8) -> usize
    ensures { result ≡ ones code }
{
    code.count_ones() as usize
}

// Whether a byte is a code for these picks: all its ones are at its low end, and they are no more than the picks.
fn is_code(picks: usize, byte: u8) -> bool
    ensures { result ≡ ThermometerRule.is_code picks byte }
{
    (byte.trailing_ones() == byte.count_ones()) & (count(byte) <= picks)
}
