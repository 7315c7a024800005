// The count of a group's cases, and what is printed of it.
use std::io;

// How many differences of a group are listed. The others are only counted.
const LISTED: usize = 10;

// How many cases a group has had, and how many of them differ.
#[derive(Clone, Copy, Debug, Default)]
pub struct Tally {
    cases: usize,
    differ: usize,
}

impl Tally {
    // Counts what a number of the walk comes to: no case, or a case and whether all that it compares is the same. The number is
    // printed if its case differs and is one of the first.
    pub(crate) fn count(
        &mut self,
        rt: &impl Print,
        number: usize,
        outcome: Option<bool>,
    ) -> io::Result<()> {
        let Some(same) = outcome else {
            return Ok(());
        };
        self.cases = self.cases.saturating_add(1);
        if same {
            return Ok(());
        }
        if self.differ < LISTED {
            println!(rt; "  differs: case {number}")?;
        }
        self.differ = self.differ.saturating_add(1);
        Ok(())
    }

    // Prints the group's line.
    pub(crate) fn line(self, rt: &impl Print, group: &str) -> io::Result<()> {
        let Tally { cases, differ } = self;
        println!(rt; "{group}: {cases} cases, {differ} differ")
    }
}
