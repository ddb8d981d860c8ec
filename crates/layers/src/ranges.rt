//! Ranges of pages.

ghost use Rattle.std.specs.Prelude.{◌≡◌, ◌+◌, ◌<◌, ◌≤◌, [], ◌∷◌, length, slice_index};
ghost use Rattle.layers.specs.Selecting.{all_pages_of, half_blank, max_ranges, missing, pages_of, unless_blank};

/// The pages from one to another, upward or downward; (0, 0) is one blank, as an order says it.
#[derive(Clone, Copy, Default)]
pub struct Range {
    pub first: u32,
    pub last: u32,
}

impl Range {
    // Whether one end is zero alone.
    pub(crate) fn half_blank(self) -> bool
        ensures { result ≡ half_blank self }
    {
        (self.first == 0) != (self.last == 0)
    }

    // The first of its ends that is past so many pages.
    fn missing(self, pages: u32) -> Option<u32>
        ensures { result ≡ missing (self ∷ []) pages }
    {
        [self.first, self.last].into_iter().find(|end| *end > pages)
    }

    // How many pages the range has.
    pub(crate) fn span(self) -> u64
        ensures all { result ≡ length (pages_of self) }
        ensures few { result ≤ 4294967296 }
    {
        if self.first <= self.last {
            return (self.last - self.first) as u64 + 1;
        }
        (self.first - self.last) as u64 + 1
    }

    // The page at an index of the range.
    fn page(self, index: u64) -> u32
        requires { index < length (pages_of self) }
        ensures { result ≡ slice_index (pages_of self) index }
    {
        if self.first <= self.last {
            self.first + index as u32
        } else {
            self.first - index as u32
        }
    }
}

// The page of a number that stands for a blank where it is 0.
fn unless_blank(number: u32) -> Option<u32>
    ensures { result ≡ unless_blank number }
{
    (number > 0).then_some(number)
}

// The page at an index of the ranges, one after another; none at a blank, and past the last.
pub(crate) fn page_at(ranges: &[Range], index: u32) -> Option<u32>
    ensures { result ≡ unless_blank (slice_index (all_pages_of ranges.now) index) }
{
    let mut rest = index as u64;
    // goes over whole ranges, however many pages they have
    for range in ranges {
        let span = range.span();
        if rest < span {
            return unless_blank(range.page(rest));
        }
        rest -= span;
    }
    None
}

// How many pages the ranges have.
pub(crate) fn total(ranges: &[Range]) -> u64
    requires { length ranges.now ≤ max_ranges }
    ensures { result ≡ length (all_pages_of ranges.now) }
{
    ranges.iter().map(|range| range.span()).sum()
}

// The first end past so many pages.
pub(crate) fn first_missing(ranges: &[Range], pages: u32) -> Option<u32>
    ensures { result ≡ missing ranges.now pages }
{
    // no chain: of `find_map`, and of `find` over all ends, the proof does not find which end it gives
    for range in ranges {
        if let Some(end) = range.missing(pages) {
            return Some(end);
        }
    }
    None
}
