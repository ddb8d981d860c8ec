ghost use Rattle.listing.specs.Places.{after, allowed, fault_at};
ghost use Rattle.std.specs.Prelude.{◌≡◌, MatchResult};

use pages::faults::Refusal;
use pages::limits::MAX_PAGES;

pub(crate) const LINE_FEED: u8 = 10;

pub(crate) const FORM_FEED: u8 = 12;

/// Lines on a page.
const MAX_LINES: u32 = 66;

/// Bytes on a line.
const MAX_COLUMNS: u32 = 132;

/// Where a byte of a listing stands: its page, its line on the page and its number in the line, each from 1.
#[derive(Clone, Copy)]
pub struct Place {
    pub(crate) page: u32,
    pub(crate) line: u32,
    pub(crate) column: u32,
}

/// The bytes of a listing: what a printer shows, line feeds and form feeds.
fn allowed(b: u8) -> bool
    ensures { result ≡ allowed b }
{
    matches!(b, 32..=126 | LINE_FEED | FORM_FEED)
}

impl Place {
    /// Where the first byte of a listing stands.
    pub(crate) const TOP: Place = Place {
        page: 1,
        line: 1,
        column: 1,
    };

    /// Where the byte after one that stands here stands, or why that one cannot stand here.
    pub(crate) fn next(self, b: u8) -> Result<Place, Refusal>
        ensures { MatchResult result (λ next. (fault_at self b ≡ None) × (next ≡ after self b)) (λ kind. fault_at self b ≡ Some kind) }
    {
        if !allowed(b) {
            return Err(Refusal::BadByte);
        }
        if self.page > MAX_PAGES {
            return Err(Refusal::TooMany);
        }
        if b == FORM_FEED {
            return Ok(Place {
                page: self.page + 1,
                ..Place::TOP
            });
        }
        if self.line > MAX_LINES {
            return Err(Refusal::TooLong);
        }
        if b == LINE_FEED {
            return Ok(Place {
                line: self.line + 1,
                column: 1,
                ..self
            });
        }
        if self.column > MAX_COLUMNS {
            return Err(Refusal::TooLong);
        }
        Ok(Place {
            column: self.column + 1,
            ..self
        })
    }
}
