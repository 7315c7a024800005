// Thermometer codes by counting.
ghost use Rattle.std.specs.Prelude.{◌≡◌, ◌≤◌};
ghost use Rattle.reference.specs.Codes as Codes;

// The codes of the counts 0 to 8.
const CODES: [u8; 9] = [0, 1, 3, 7, 15, 31, 63, 127, 255];

// Whether a byte is a thermometer code for `picks`, which is 1 to 8: the code of its own count. False for any other picks.
#[tactic(auto, using(crate::specs::Codes::Laws::counted_le), unfolding(crate::specs::Codes::is_code, crate::specs::Codes::allowed, crate::specs::Codes::code))]
pub fn is_code(picks: usize, byte: u8) -> bool
    ensures { result ≡ Codes.is_code picks byte }
{
    (1..=8).contains(&picks) && CODES[counted(picks, byte)] == byte
}

// The code of the sum of the counts of two codes, or of `picks` if that is smaller, and whether it is. None where one of them is no
// code for `picks`.
#[tactic(auto, using(crate::specs::Codes::Laws::code_picks, crate::specs::Codes::Laws::counted_le), unfolding(crate::specs::Codes::sum, crate::specs::Codes::code))]
pub fn sum(picks: usize, left: u8, right: u8) -> Option<(u8, bool)>
    ensures { result ≡ Codes.sum picks left right }
{
    if !is_code(picks, left) || !is_code(picks, right) {
        return None;
    }
    let both = counted(picks, left) + counted(picks, right);
    Some((CODES[picks.min(both)], picks < both))
}

// The count of a code: how many of the codes of 1 to `picks` it is no less than.
#[tactic(auto, unfolding(crate::specs::Codes::counted, crate::specs::Codes::reaches_code))]
fn counted(picks: usize, byte: u8) -> usize
    requires { picks ≤ 8 }
    ensures { result ≡ Codes.counted picks byte }
{
    CODES[1..=picks]
        .iter()
        .filter(|code| **code <= byte)
        .count()
}
