ghost use Rattle.std.specs.Prelude.{◌+◌, ◌≤◌};
ghost use Rattle.listing.specs.Extents.{extent};
ghost use Rattle.listing.specs.Pages.{cut};
ghost use Rattle.pages.specs.Limits.{max_ink};

use crate::parts::Parts;
use pages::spans::Span;

/// The span of the preamble, which is empty.
pub(crate) const PREAMBLE: Span = Span {
    offset: 0,
    length: 0,
};

/// Where the pages of a file lie in it: those that are left, and where the first of them begins.
#[derive(Drop)]
pub struct PageSpans<'a> {
    pub(crate) at: u32,
    pub(crate) pages: Parts<'a>,
    // so that every span fits its numbers
    ghost fits: { at + extent (cut pages.separator pages.rest.now) ≤ max_ink + 1 },
}

impl<'a> Iterator for PageSpans<'a> {
    ghost use Rattle.std.specs.Iterator.{YieldsFirst, item_count};
    ghost use Rattle.listing.specs.Spans.{spans_left};

    type Item = Span;

    ghost next_gives = { YieldsFirst spans_left };

    ghost remaining = { item_count spans_left };

    fn next(&mut self) -> Option<Span> {
        let page = self.pages.next()?;
        let span = Span {
            offset: self.at,
            length: page.len() as u32,
        };
        self.at = self.at + span.length + 1;
        Some(span)
    }
}
