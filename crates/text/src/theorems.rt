//! No function here does anything: its clause is a theorem.
ghost use Rattle.text.specs.Characters.Known.{KnownCharacters};

/// Some numbers and bits as text.
#[tactic(auto, using(crate::specs::Characters::Known::known))]
pub fn known_characters()
    ensures { KnownCharacters }
{}
