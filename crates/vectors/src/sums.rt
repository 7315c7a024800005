// The saturated adder: known sums, 001's truth table, and every pair of bytes against the model; and codes and counts.
use crate::conversions::byte;
use crate::{compare, small};
use reference::codes;
use thermometer::adder;

// A sum's code, and whether anything was cut off.
type Summed = (u8, bool);

// Two codes, and their sum with 2 picks or the number of the refusal. The codes are 0 for 00, 1 for 01 and 3 for 11; 2, which is 10,
// is none.
pub(crate) type Row = (u8, u8, Result<Summed, usize>);

// 9 rows of 001's truth table of the adder saturated at 2, in its rows of legal codes, with each code that an X stands for.
pub(crate) static TRUTH_TABLE: [Row; 9] = [
    (0, 0, Ok((0, false))),
    (0, 1, Ok((1, false))),
    (1, 0, Ok((1, false))),
    (1, 1, Ok((3, false))),
    (3, 0, Ok((3, false))),
    (3, 1, Ok((3, true))),
    (3, 3, Ok((3, true))),
    (0, 3, Ok((3, false))),
    (1, 3, Ok((3, true))),
];

// 01's 4 known sums with 2 picks, the last two refused.
pub(crate) static KNOWN: [Row; 4] = [
    (1, 1, Ok((3, false))),
    (3, 1, Ok((3, true))),
    (2, 1, Err(13)),
    (1, 2, Err(13)),
];

// Whether a sum with 2 picks is as known, by the adder and by the model.
pub(crate) fn known(row: &Row) -> bool {
    let (left, right, sum) = *row;
    compare::sum(adder::add(2, left, right), sum) && modelled(2, left, right) == sum
}

// 256 right codes, 256 left codes, 0 to 9 picks.
pub(crate) const CASES: usize = 256 * 256 * 10;

// The case of a number: a sum against the model.
pub(crate) fn case(i: usize) -> Option<bool> {
    let right = byte(i);
    let left = byte(i / 256);
    let picks = i / 65536;
    let sum = adder::add(picks, left, right);
    Some(compare::sum(sum, modelled(picks, left, right)))
}

// Counts from 0 on, and bytes.
pub(crate) const CODES: usize = 256;

// Whether the code of a count is a code of that many, or of 8, and whether a byte counts its ones.
pub(crate) fn code(i: usize) -> Option<bool> {
    let code = adder::code(i);
    let coded = codes::is_code(8, code) && adder::count(code) == i.min(8);
    let bits = small::spread::<8>(i);
    let ones = bits.iter().filter(|bit| **bit == 1).count();
    Some(coded && adder::count(byte(i)) == ones)
}

// The sum by the model, or the number of the refusal.
fn modelled(picks: usize, left: u8, right: u8) -> Result<Summed, usize> {
    if picks < 1 || 8 < picks {
        return Err(3);
    }
    codes::sum(picks, left, right).ok_or(13)
}
