// The lines of the output. Each function writes its line as the methods of an `Output` do: as much as there is room for.
// They write by pieces, since the promise of `fmt::Write` names the bytes only where it answers `Ok`, and does not say that it does.
ghost use Rattle.text.specs.Output.{Written};
ghost use Rattle.transcript.specs.Cycles as Cycles;

use arbiter::Granted;
use arbiter::refusal::Refusal;
use text::Output;

// The line of a refusal: the line's number, the word, the refusal number and the place.
pub(crate) fn put_refusal(line: usize, refusal: Refusal, out: &mut Output)
    ensures { Written out.old (Cycles.refused_line line refusal) out.new }
{
    out.put_number(line);
    out.put_all(b" refused ");
    out.put_number(refusal.number());
    out.put(b' ');
    out.put_number(refusal.place());
    out.put(b'\n');
}

// The line of a served cycle: the line's number, the grants and the next head.
pub(crate) fn put_granted(line: usize, grants: &[u8], next: usize, out: &mut Output)
    ensures { Written out.old (Cycles.granted line grants.now next) out.new }
{
    out.put_number(line);
    out.put(b' ');
    out.put_bits(grants);
    out.put(b' ');
    out.put_number(next);
    out.put(b'\n');
}

// The line of a cycle line, by what the call came to.
pub(crate) fn put_cycle(
    line: usize,
    outcome: Result<Granted, Refusal>,
    grants: &[u8],
    next: usize,
    out: &mut Output,
)
    ensures { Written out.old (Cycles.told line outcome grants.now next) out.new }
{
    match outcome {
        Ok(_) => put_granted(line, grants, next, out),
        Err(refusal) => put_refusal(line, refusal, out),
    }
}
