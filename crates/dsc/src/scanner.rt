//! The scanner: what each line of a DSC file does, by the part that it stands in.
ghost use Rattle.std.specs.Prelude.{◌≡◌, ◌≤◌, [], ◌∷◌};
ghost use Rattle.dsc.specs.Comments.{view};
ghost use Rattle.dsc.specs.Scans.{Counts, step, told, at_line, pair};

use crate::comments::Comment;
use pages::faults::{Fault, Refusal};
use pages::maps::Size;
use pages::spans::Span;

/// The part of the file that a line stands in.
#[derive(Clone, Copy)]
pub enum Part {
    /// The head, with what its first Pages and its first BoundingBox line said, once they came.
    Head(Option<u32>, Option<Size>),
    Preamble,
    Leaves,
}

/// What the lines so far say of the rest.
#[derive(Clone, Copy)]
pub struct Scanner {
    pub part: Part,
    /// How many pages the head announced, and their size.
    pub pages: u32,
    pub size: Size,
    /// How many pages have begun.
    pub begun: u32,
    /// Where the ink begins that the next Page or Trailer line ends.
    pub from: u32,
}

/// The ink of a leaf, as it lies in the file.
#[derive(Clone, Copy)]
pub struct LeafInk {
    pub leaf: u32,
    pub span: Span,
}

/// What a line did: nothing for the index, or it ended an ink, or the reading with its last ink.
// Three outcomes with names, which a `ControlFlow` over an option would not have.
#[derive(Clone, Copy)]
pub enum Turn {
    On,
    Ink(LeafInk),
    End(LeafInk),
}

impl Scanner {
    pub(crate) fn refusal(&self, kind: Refusal, at: u32) -> Fault
        ensures { result ≡ at_line kind self.now at }
    {
        Fault {
            offset: at,
            ..Fault::new(kind, 1, self.begun)
        }
    }

    // The ink that ends at `at`: the last begun leaf's, or the preamble's.
    fn ink(&self, at: u32) -> LeafInk
        requires { self.now.from ≤ at }
        ensures leaf { result.leaf ≡ self.now.begun }
        ensures pair { result.span.offset ∷ result.span.length ∷ [] ≡ pair self.now at }
    {
        LeafInk {
            leaf: self.begun,
            span: Span {
                offset: self.from,
                length: at - self.from,
            },
        }
    }

    // The line of this kind at `at`; the next one begins at `next`.
    pub(crate) fn line(&mut self, kind: Comment<'_>, at: u32, next: u32) -> Result<Turn, Fault>
        requires from_before { self.old.from ≤ at }
        requires next_after { at ≤ next }
        ensures behind { self.new.from ≤ next }
        ensures counted { Counts self.old result self.new }
        ensures told { told self.new result ≡ step self.old at next (view kind.entry) }
    {
        match (self.part, kind) {
            (Part::Head(Some(pages), Some(size)), Comment::EndComments) => {
                self.part = Part::Preamble;
                self.pages = pages;
                self.size = size;
                self.from = next;
                Ok(Turn::On)
            }
            (Part::Head(_, _), Comment::EndComments | Comment::Trailer | Comment::Page(_)) => {
                Err(self.refusal(Refusal::OutOfOrder, at))
            }
            (Part::Head(None, size), Comment::Pages(value)) => {
                let pages = value.ok_or(self.refusal(Refusal::BadComment, at))?;
                self.part = Part::Head(Some(pages), size);
                Ok(Turn::On)
            }
            (Part::Head(pages, None), Comment::BoundingBox(value)) => {
                let size = value.ok_or(self.refusal(Refusal::BadComment, at))?;
                self.part = Part::Head(pages, Some(size));
                Ok(Turn::On)
            }
            (Part::Preamble | Part::Leaves, Comment::Page(value)) => {
                let page = value.ok_or(self.refusal(Refusal::BadComment, at))?;
                if self.begun < self.pages && page.ordinal == self.begun + 1 {
                    let ink = self.ink(at);
                    self.part = Part::Leaves;
                    self.begun = page.ordinal;
                    self.from = next;
                    Ok(Turn::Ink(ink))
                } else {
                    Err(self.refusal(Refusal::Miscount, at))
                }
            }
            (Part::Preamble | Part::Leaves, Comment::Trailer) => {
                if self.begun == self.pages {
                    Ok(Turn::End(self.ink(at)))
                } else {
                    Err(self.refusal(Refusal::Miscount, at))
                }
            }
            _ => Ok(Turn::On),
        }
    }
}
