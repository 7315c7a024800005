// The running codes of a cycle (02, N3), made by the adder's own call: from the code of nobody on, one sum for each station in the
// order. Before each station the code is held to the model's count, past the last to the model's count of grants and the
// thermometer arbiter's, which must grant those at whose sum the code changes. Exactly if a sum was cut off more are pending, by the
// model and by the thermometer arbiter.
ghost use Rattle.std.specs.Prelude.{◌≡◌, suc, min, length};

use crate::{compare, engine, model, small};
use arbiter::{Granted, State};
use thermometer::adder::{self, Sum};

// A cycle with 2 picks, its codes, one more than the stations, and whether a sum is cut off.
#[derive(Clone, Copy)]
pub struct Example {
    head: usize,
    requests: &'static [u8],
    codes: &'static [u8],
    cut: bool,
}

// The examples of 001: figure 2a, in which its inputs 5, 4 and 2 ask, figure 2b with 6 and 2, and figure 3 with 3, 2 and 0. It goes
// downwards, so station i is its input 7 - i, and 4 - i in figure 3. The text names the head of figure 2b alone; the others are
// taken at station 0. Figure 3 has 5 stations.
pub(crate) static EXAMPLES: [Example; 3] = [
    Example {
        head: 0,
        requests: &[0, 0, 1, 1, 0, 1, 0, 0],
        codes: &[0, 0, 0, 1, 3, 3, 3, 3, 3],
        cut: true,
    },
    Example {
        head: 4,
        requests: &[0, 1, 0, 0, 0, 1, 0, 0],
        codes: &[0, 0, 1, 1, 1, 1, 3, 3, 3],
        cut: false,
    },
    Example {
        head: 0,
        requests: &[0, 1, 1, 0, 1],
        codes: &[0, 0, 1, 3, 3, 3],
        cut: true,
    },
];

// Whether the codes of an example are as are known.
pub(crate) fn known(example: &Example) -> bool {
    let Example {
        head,
        requests,
        codes,
        cut,
    } = *example;
    let s = compare::state(requests.len(), 2, Some(head));
    running(s, requests, &mut [0; 9]) == (codes, cut) && agrees(s, requests, codes, cut)
}

// What stands for a sum that is refused: none of these sums is.
const REFUSED: Sum = Sum {
    code: 0,
    cut: false,
};

// The numbers of the small inputs.
pub(crate) const CASES: usize = small::INPUTS;

// The case of a number.
pub(crate) fn case(i: usize) -> Option<bool> {
    let (s, requests) = small::input(i)?;
    let requests = requests.get(..s.width)?;
    let mut bytes = [0; 9];
    let (codes, cut) = running(s, requests, &mut bytes);
    Some(agrees(s, requests, codes, cut))
}

// Writes the running codes, by sums, behind the first of these bytes, and answers them all, before each station in the order, and
// past the last; and whether a sum was cut off.
fn running<'a>(s: State, requests: &[u8], bytes: &'a mut [u8; 9]) -> (&'a [u8], bool)
    ensures { length result.0.now ≡ suc (min 8 (length requests.now)) }
{
    let model = model::of(s, requests);
    let codes = &mut bytes[..=requests.len().min(8)];
    let mut code = 0;
    let mut cut = false;
    for (position, next) in codes.iter_mut().skip(1).enumerate() {
        let request = requests.get(model.away(position)).copied().unwrap_or(0);
        let sum = adder::add(s.picks, code, request).unwrap_or(REFUSED);
        code = sum.code;
        cut |= sum.cut;
        *next = code;
    }
    (codes, cut)
}

// Whether these are the running codes of a cycle, and this says whether more are pending, by the model and by the thermometer arbiter.
fn agrees(s: State, requests: &[u8], codes: &[u8], cut: bool) -> bool {
    let model = model::of(s, requests);
    let mut grants = [7u8; 8];
    let grants = &mut grants[..requests.len().min(8)];
    let a = engine::THERMOMETER.cycle(s, requests, grants, &mut [], 0);
    let count = codes.last().map(|code| adder::count(*code));
    let granted = Granted {
        count: model.count(),
        more: model.more(),
    };
    count == Some(model.count())
        && a.outcome == Ok(granted)
        && cut == model.more()
        && stations(&model, codes, grants)
}

// Whether the code before each station is the model's count, and changes where the station is granted.
fn stations(model: &reference::Cycle<'_>, codes: &[u8], grants: &[u8]) -> bool {
    let steps = codes.iter().zip(codes.iter().skip(1));
    steps.enumerate().all(|(position, (code, next))| {
        let station = model.away(position);
        adder::count(*code) == model.ahead(station)
            && grants.get(station) == Some(&u8::from(code != next))
    })
}
