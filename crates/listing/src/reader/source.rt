ghost use Rattle.listing.specs.Meaning.{ink_at, listed, page_of};
ghost use Rattle.listing.specs.Sources.{PageOf};

use crate::inks::{ink_length, put_ink};
use crate::reader::Listing;
use pages::faults::{Fault, Refusal};
use pages::leaf_pages;
use pages::maps::{Placement, Size};
use pages::sources::{Source, write};
use pages::spans::Span;
use text::Lent;

impl<'a> Listing<'a> {
    /// The bytes of a leaf's page; the preamble has no page.
    fn page(&self, leaf: u32) -> Result<Option<&'a [u8]>, Fault>
        ensures { PageOf self.now.file.now self.now.leaves leaf result }
    {
        let missing = Fault::new(Refusal::NoSuch, 1, leaf);
        if leaf > self.leaves {
            return Err(missing);
        }
        if leaf == 0 {
            return Ok(None);
        }
        let Span { offset, length } = Span::at(self.index, leaf as usize).ok_or(missing)?;
        let file = self.file;
        let start = offset as usize;
        Ok(Some(&file[start..start + length as usize]))
    }
}

impl<'a> Source for Listing<'a> {
    ghost meaning = { λ s. listed s.file.now };

    ghost lawful = { λ s. s.lawful };

    fn size(&self) -> Size {
        Size::LETTER
    }

    fn leaves(&self) -> u32 {
        self.leaves // but for the preamble
    }

    fn pages(&self) -> u32 {
        self.leaves // each leaf is a page
    }

    fn depth(&self) -> u8 {
        1 // a reader is the lowest layer
    }

    fn laid(&self, page: u32) -> Result<u32, Fault> {
        leaf_pages::laid(self.leaves, page)
    }

    fn place(&self, page: u32, slot: u32) -> Result<Placement, Fault> {
        leaf_pages::place(self.leaves, page, slot)
    }

    fn length(&self, leaf: u32) -> Result<u32, Fault> {
        Ok(self.page(leaf)?.map_or(0, ink_length) as u32)
    }

    fn pour(&self, leaf: u32, buffer: &mut [u8], at: usize) -> Result<usize, Fault> {
        let Some(page) = self.page(leaf)? else {
            return write(&[], buffer, at);
        };
        let full = Fault::new(Refusal::ShortBuffer, 1, 0);
        if buffer.len() < at || buffer.len() - at < ink_length(page) {
            return Err(full);
        }
        let mut lent = Lent { buffer, at };
        put_ink(&mut lent, page).ok_or(full)?;
        Ok(lent.at)
    }
}
