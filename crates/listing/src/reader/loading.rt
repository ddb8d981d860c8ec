ghost use Rattle.std.specs.Prelude.{◌≡◌, ◌*◌, [], take, drop, Decides};
ghost use Rattle.listing.specs.Loads.{Loads};
ghost use Rattle.listing.specs.Scans.{Indexed};
ghost use Rattle.pages.specs.Spans.{pair};

use crate::checked::Checked;
use crate::page_spans::PREAMBLE;
use crate::reader::Listing;
use pages::faults::{Fault, Refusal};
use pages::spans::Span;

/// Whether a span stands in an index as that of a leaf.
fn has_span(index: &[u32], leaf: usize, span: Span) -> bool
    ensures { Decides result (take 2 (drop (2 * leaf) index.now) ≡ pair span) }
{
    Span::at(index, leaf) == Some(span)
}

/// Whether an index begins with the spans of a file.
fn has_index(checked: &Checked, index: &[u32]) -> bool
    ensures { Decides result (Indexed checked.now.file.now index.now) }
{
    if !has_span(index, 0, PREAMBLE) {
        return false;
    }
    for (i, span) in checked.spans().enumerate() {
        if !has_span(index, i + 1, span) {
            return false;
        }
    }
    true
}

impl<'a> Listing<'a> {
    /// A reader that is not loaded: no pages, and an empty preamble.
    pub fn empty() -> Listing<'a>
        ensures { result.file.now ≡ [] }
    {
        Listing {
            file: &[],
            index: &[0, 0],
            leaves: 0,
        }
    }

    /// Reads a file whose index a scan has filled. A refusal leaves the reader as it was.
    pub fn load(&mut self, file: &'a [u8], index: &'a [u32]) -> Result<u32, Fault>
        ensures { Loads file.now index.now self.old self.new result }
    {
        let checked = Checked::new(file)?;
        if !has_index(&checked, index) {
            return Err(Fault::new(Refusal::WrongIndex, 1, 0));
        }
        let pages = checked.pages();
        self.file = file;
        self.index = index;
        self.leaves = pages;
        Ok(pages)
    }
}
