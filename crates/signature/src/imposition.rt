//! The rule of the Signature layer.

ghost use Rattle.std.specs.Prelude.{◌≡◌, ◌≤◌, [], Some, MatchOption};
ghost use Rattle.fold.specs.Signatures.{Thick, letters_of};
ghost use Rattle.fold.specs.Words.{Letters, scheme};
ghost use Rattle.signature.specs.Imposing.{Imposed, Unimposed, impose_objects, impose_shows, positions, sides_of};

use crate::laid_side::LaidSide;
use fold::{Signature, Word};
use layers::extent::Extent;
use layers::layer::Layer;
use layers::parts::{Objection, Part};
use layers::rules::{Plan, Rule};
use pages::faults::Refusal;
use pages::limits::MAX_SIDE;
use pages::maps::Size;
use pages::sources::Source;

/// An order of the Signature layer: the number of a fold scheme, and how many sheets a signature has.
#[derive(Clone, Copy, PartialEq, Eq, Debug)]
pub struct Scheme {
    pub number: u32,
    pub sheets: u32,
}

impl Scheme {
    /// The signature that the order names; None where there is no such scheme or number of sheets.
    pub fn signature(self) -> Option<Signature>
        ensures { MatchOption result
            ((w : Letters) → scheme self.number ≡ Some w → Thick self.sheets → ⊥)
            (λ s. (scheme self.number ≡ Some (letters_of s)) × (s.sheets ≡ self.sheets)) }
    {
        Signature::new(Word::scheme(self.number)?, self.sheets)
    }
}

/// How the pages below are laid on sides: by a signature, which takes the next pages as often as it is repeated; None
/// before the first order, when there are no sides.
#[derive(Clone, Copy)]
pub struct Imposition {
    signature: Option<Signature>,
}

/// The Signature layer. Each of its pages is a side of a sheet; it starts with no pages.
pub type Sheets<S> = Layer<S, Imposition>;

// How many sides the signatures of so many pages have.
fn sides(signature: Signature, pages: u32) -> u32
    ensures all { result ≡ sides_of (letters_of signature) signature.sheets pages }
    ensures few { result ≤ pages }
{
    pages / signature.pages() * (2 * signature.sheets())
}

impl Imposition {
    /// The signature by which sides are laid; None before the first order.
    pub fn signature(&self) -> Option<Signature>
        ensures { result ≡ self.now.signature }
    {
        self.signature
    }

    // The side that a page is, if there are so many.
    fn side<S: Source>(&self, below: &S, page: u32) -> Option<LaidSide>
        ensures { MatchOption result
            (impose_shows self.now.signature (S.Source.meaning below.now) page ≡ [])
            (λ s. impose_shows self.now.signature (S.Source.meaning below.now) page ≡ positions (letters_of s.signature) s.signature.sheets s.size s.side) }
    {
        let signature = self.signature?;
        if sides(signature, below.pages()) < page {
            return None;
        }
        Some(LaidSide {
            signature,
            size: below.size(),
            side: page,
        })
    }
}

impl Rule for Imposition {
    type Order = Scheme;

    ghost shows = { λ r. impose_shows r.signature };

    ghost starts = { λ m r x. Unimposed m r.signature x };

    ghost objects = { λ _ o m. impose_objects o.number o.sheets m };

    ghost takes = { λ _ o m r x. Imposed o.number o.sheets m r.signature x };

    fn start<S: Source>(below: &S) -> Plan<Imposition> {
        let Extent { size, pages } = Extent::of(below);
        Plan {
            rule: Imposition { signature: None },
            extent: Extent { size, pages: 0 },
        }
    }

    fn ordered<S: Source>(&self, below: &S, order: Scheme) -> Result<Plan<Imposition>, Objection> {
        let signature = order
            .signature()
            .ok_or(Objection::new(Refusal::BadOrder, 0))?;
        let Extent { size, pages } = Extent::of(below);
        if pages % signature.pages() != 0 {
            return Err(Objection::new(Refusal::Uneven, 0));
        }
        let width = signature.columns() * size.width;
        let height = signature.rows() * size.height;
        if MAX_SIDE < width || MAX_SIDE < height {
            return Err(Objection::new(Refusal::TooLarge, 0));
        }
        let extent = Extent {
            size: Size { width, height },
            pages: sides(signature, pages),
        };
        Ok(Plan {
            rule: Imposition {
                signature: Some(signature),
            },
            extent,
        })
    }

    fn count<S: Source>(&self, below: &S, page: u32) -> u32 {
        self.side(below, page).map_or(0, |side| side.cells())
    }

    fn part<S: Source>(&self, below: &S, page: u32, index: u32) -> Option<Part> {
        self.side(below, page)?.part(index)
    }
}
