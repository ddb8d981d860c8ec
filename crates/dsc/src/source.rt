//! A DSC reader as a page source: page i is leaf i, as it is.
ghost use Rattle.dsc.specs.Readers.{meaning_of};

use crate::reader::Dsc;
use pages::faults::Fault;
use pages::leaf_pages;
use pages::maps::{Placement, Size};
use pages::sources::{Source, write};

impl<'a> Source for Dsc<'a> {
    ghost meaning = { λ d. meaning_of d.file.now };

    ghost lawful = { λ d. d.lawful };

    fn size(&self) -> Size {
        self.size
    }

    fn leaves(&self) -> u32 {
        self.leaves // but for the preamble
    }

    fn pages(&self) -> u32 {
        self.leaves // each leaf is a page
    }

    fn depth(&self) -> u8 {
        1 // a reader is the lowest layer
    }

    fn laid(&self, page: u32) -> Result<u32, Fault> {
        leaf_pages::laid(self.leaves, page)
    }

    fn place(&self, page: u32, slot: u32) -> Result<Placement, Fault> {
        leaf_pages::place(self.leaves, page, slot)
    }

    fn length(&self, leaf: u32) -> Result<u32, Fault> {
        let ink = self.ink(leaf)?;
        Ok(ink.len() as u32)
    }

    fn pour(&self, leaf: u32, buffer: &mut [u8], at: usize) -> Result<usize, Fault> {
        let ink = self.ink(leaf)?;
        write(ink, buffer, at)
    }
}
