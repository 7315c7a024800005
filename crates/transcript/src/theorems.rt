//! No function here does anything: its clause is a theorem.
ghost use Rattle.transcript.specs.Text.Known.{KnownLengths, KnownText};

/// What is printed for small inputs.
#[tactic(auto, using(crate::specs::Text::Known::known))]
pub fn known_text()
    ensures { KnownText }
{}

/// The longest input that is answered, and how much of one is read.
#[tactic(auto, using(crate::specs::Text::Known::known_longest))]
pub fn known_lengths()
    ensures { KnownLengths }
{}
