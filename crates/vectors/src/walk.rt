// The walk through a group: each of its cases is run and counted.
use crate::report::Tally;
use std::io;

// The line of a group. A case takes its number apart into one input, or takes the input of that number from a list. It answers
// whether all that it compares is the same, and nothing where the number stands for no input of the group. What a group carries
// from case to case is in the closure.
pub(crate) fn numbers<F: FnMut(usize) -> Option<bool>>(
    rt: &impl Print,
    name: &str,
    cases: usize,
    mut case: F,
) -> io::Result<()>
    requires { F.IsAlwaysCallable case }
{
    let mut tally = Tally::default();
    for i in 0..cases {
        tally.count(rt, i, case(i))?;
    }
    tally.line(rt, name)
}
