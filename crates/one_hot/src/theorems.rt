//! Image and head convert each way without loss. No function here does anything: its clause is a theorem, stated in
//! `specs/RoundTrips.antt`.
ghost use Rattle.one_hot.specs.Calls.Known.{KnownImages};
ghost use Rattle.one_hot.specs.RoundTrips.{ImageReadBack, ImageWrittenBack};

/// The image that is written of a head reads back as that head.
#[tactic(auto, using(crate::proofs::RoundTrips::image_read_back))]
pub fn image_read_back()
    ensures { ImageReadBack }
{}

/// The image that was read is written back.
#[tactic(auto, using(crate::proofs::RoundTrips::image_written_back))]
pub fn image_written_back()
    ensures { ImageWrittenBack }
{}

/// Small images, and in which order reading one asks its questions.
#[tactic(auto, using(crate::specs::Calls::Known::known))]
pub fn known_images()
    ensures { KnownImages }
{}
