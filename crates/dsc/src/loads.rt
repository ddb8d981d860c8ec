//! A reader is filled in place, and hands out labels.
ghost use Rattle.std.specs.Prelude.{◌≡◌};
ghost use Rattle.dsc.specs.Scans.{scanned};
ghost use Rattle.dsc.specs.Readers.{Verified, Unloaded, load_answer, meaning_of};
ghost use Rattle.dsc.specs.Loads.{Loaded, Lies, Labels, Inks};

use crate::comments::kind_of;
use crate::lines::text;
use crate::reader::Dsc;
use crate::reading::Opened;
use crate::scanner::Scanner;
use pages::faults::{Fault, Refusal};
use pages::maps::Size;
use pages::spans::Span;

impl<'a> Opened<'a> {
    // Reads the file as scan does, and compares the index with what scan would write.
    fn verify(&self, index: &[u32]) -> Result<Scanner, Fault>
        ensures { Verified self.now.file.now index.now result }
    {
        let mut reading = self.inks();
        // The whole file is read even so: a refusal of the file comes before that of the index.
        let mut same = true;
        // no `for`, which would leave nothing known of the reading
        while let Some(ink) = reading.next() {
            let ink = ink?;
            same &= Span::at(index, ink.leaf as usize) == Some(ink.span);
        }
        if !same {
            return Err(Fault::new(Refusal::WrongIndex, 1, 0));
        }
        Ok(reading.scanner)
    }
}

impl<'a> Dsc<'a> {
    /// A reader that is not loaded: 612 by 792, no pages, an empty preamble.
    pub fn empty() -> Dsc<'a>
        ensures { Unloaded (meaning_of result.file.now) }
    {
        Dsc {
            file: &[],
            index: &[0, 0],
            leaves: 0,
            size: Size::LETTER,
        }
    }

    /// Fills the reader with a file and its index, and answers the number of leaves, if the index begins with the numbers
    /// that scan writes for the file.
    pub fn load(&mut self, file: &'a [u8], index: &'a [u32]) -> Result<u32, Fault>
        ensures answer { result ≡ load_answer (scanned file.now) index.now }
        ensures after { Loaded result file.now index.now self.old self.new }
    {
        let found = Opened::new(file)?.verify(index)?;
        self.file = file;
        self.index = index;
        self.leaves = found.begun;
        self.size = found.size;
        Ok(found.begun)
    }

    // Where the ink of a leaf lies.
    fn span(&self, leaf: u32) -> Result<Span, Fault>
        ensures { Lies self.now leaf result }
    {
        let no_such = Fault::new(Refusal::NoSuch, 1, leaf);
        if leaf > self.leaves {
            return Err(no_such);
        }
        Span::at(self.index, leaf as usize).ok_or(no_such)
    }

    /// The label of a leaf, as a part of the file.
    pub fn label(&self, leaf: u32) -> Result<&'a [u8], Fault>
        ensures { Labels self.now leaf result }
    {
        if leaf == 0 || leaf > self.leaves {
            return Err(Fault::new(Refusal::NoSuch, 1, leaf));
        }
        let file = self.file;
        let before = self.span(leaf - 1)?;
        let ink = self.span(leaf)?;
        let from = before.offset as usize + before.length as usize;
        let line = &file[from..ink.offset as usize];
        Ok(kind_of(text(line)).heading().unwrap().label)
    }

    // The ink of a leaf, as a part of the file.
    pub(crate) fn ink(&self, leaf: u32) -> Result<&'a [u8], Fault>
        ensures { Inks self.now leaf result }
    {
        let file = self.file;
        let span = self.span(leaf)?;
        let from = span.offset as usize;
        Ok(&file[from..from + span.length as usize])
    }
}
