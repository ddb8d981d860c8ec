//! The job itself.

ghost use Rattle.std.specs.Prelude.{◌≡◌};

use pages::sources::Source;
use signature::imposition::Sheets;

/// A print run over a Signature layer. It counts the sides that are printed.
#[derive(Drop)]
pub struct Job<S: Source> {
    pub(crate) layer: Sheets<S>,
    pub(crate) printed: u32,
}

impl<S: Source> Job<S> {
    /// Begins a job over a Signature layer: no side is printed.
    pub fn new(layer: Sheets<S>) -> Job<S>
        ensures { (result.layer ≡ layer) × (result.printed ≡ 0) }
    {
        Job { layer, printed: 0 }
    }

    /// How many sides are printed.
    pub fn how_far(&self) -> u32
        ensures { result ≡ self.now.printed }
    {
        self.printed
    }

    /// The Signature layer, whose pages are the sides.
    pub fn layer(&self) -> &Sheets<S>
        ensures { result.now ≡ self.now.layer }
    {
        &self.layer
    }

    /// Ends the job, which gives back the Signature layer.
    pub fn take_apart(self) -> Sheets<S>
        ensures { result ≡ self.layer }
    {
        let Job { layer, printed: _ } = self;
        layer
    }
}
