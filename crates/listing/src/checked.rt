ghost use Rattle.listing.specs.Pages.{cut};
ghost use Rattle.listing.specs.Places.{form_feed, refusal, top};
ghost use Rattle.listing.specs.Scans.{Bad};
ghost use Rattle.pages.specs.Limits.{max_ink};
ghost use Rattle.std.specs.Prelude.{◌≡◌, ◌≤◌, None, MatchResult, Some, false, length, is_some};

use crate::page_spans::PageSpans;
use crate::parts::Parts;
use crate::places::{FORM_FEED, Place};
use pages::faults::{Fault, Refusal};
use pages::limits::MAX_INK;

/// A file that was found to be a listing.
#[derive(Drop)]
pub struct Checked<'a> {
    pub(crate) file: &'a [u8],
    ghost short: { length file.now ≤ max_ink },
    ghost clean: { is_some (refusal top 0 file.now) ≡ false },
}

/// Refuses the first byte that cannot stand where it stands.
fn examine(file: &[u8]) -> Result<(), Fault>
    requires { length file.now ≤ max_ink }
    ensures { MatchResult result (λ _. refusal top 0 file.now ≡ None) (λ fault. refusal top 0 file.now ≡ Some fault) }
{
    let mut place = Place::TOP;
    for (i, b) in file.iter().enumerate() {
        let offset = i as u32;
        let page = place.page;
        place = place.next(*b).map_err(|kind| Fault {
            offset,
            ..Fault::new(kind, 1, page)
        })?;
    }
    Ok(())
}

impl<'a> Checked<'a> {
    /// Checks a file.
    pub(crate) fn new(file: &'a [u8]) -> Result<Checked<'a>, Fault>
        ensures { MatchResult result (λ checked. checked.file.now ≡ file.now) (λ fault. Bad file.now fault) }
    {
        if file.len() > MAX_INK as usize {
            return Err(Fault::new(Refusal::TooLong, 1, 0));
        }
        examine(file)?;
        Ok(Checked { file })
    }

    /// How many pages there are.
    pub(crate) fn pages(&self) -> u32
        ensures { result ≡ length (cut form_feed self.now.file.now) }
    {
        Parts::new(self.file, FORM_FEED).count() as u32
    }

    /// Where the pages lie in the file.
    pub(crate) fn spans(&self) -> PageSpans<'a>
        ensures start { result.at ≡ 0 }
        ensures pages { cut result.pages.separator result.pages.rest.now ≡ cut form_feed self.now.file.now }
    {
        PageSpans {
            at: 0,
            pages: Parts::new(self.file, FORM_FEED),
        }
    }
}
