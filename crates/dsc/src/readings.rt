//! A file is read line by line, and its inks come one by one.
ghost use Rattle.std.specs.Prelude.{◌≡◌, ◌+◌, ◌≤◌, [], None, length};
ghost use Rattle.std.specs.Iterator.{at_most};
ghost use Rattle.pages.specs.Inks.{lines_of};
ghost use Rattle.dsc.specs.Bounds.{longest};
ghost use Rattle.dsc.specs.Scans.{run, start, scanned};
ghost use Rattle.dsc.specs.Readings.{rest, left, Next, Gives, Onward, Opens};

use crate::comments::kind_of;
use crate::lines::{first_line, text};
use crate::reading::{Opened, Reading};
use crate::scanner::{LeafInk, Part, Scanner, Turn};
use pages::faults::{Fault, Refusal};
use pages::maps::Size;

/// The longest file, in bytes; an ink has a bound of its own.
const LONGEST: usize = 16_777_216;

impl<'a> Opened<'a> {
    // The checks of a file's length and of its first bytes.
    pub(crate) fn new(file: &'a [u8]) -> Result<Opened<'a>, Fault>
        ensures { Opens file.now result }
    {
        if file.len() > LONGEST {
            return Err(Fault::new(Refusal::TooLong, 1, 0));
        }
        if !file.starts_with(b"%!PS-Adobe-3.0") {
            return Err(Fault::new(Refusal::NotDsc, 1, 0));
        }
        Ok(Opened { file })
    }

    // A reading that is about to begin.
    pub(crate) fn inks(&self) -> Reading<'a>
        ensures rest { rest result [] ≡ scanned self.now.file.now }
        ensures preamble { Next result 0 }
    {
        Reading {
            unread: Some(self.file),
            at: 0,
            scanner: Scanner {
                part: Part::Head(None, None),
                pages: 0,
                size: Size::LETTER,
                begun: 0,
                from: 0,
            },
        }
    }
}

impl<'a> Reading<'a> {
    // Reads the lines up to the one that ends an ink.
    fn ink(&mut self, unread: &'a [u8]) -> Result<LeafInk, Fault>
        requires taken { self.old.unread ≡ None }
        requires short { self.old.at + length unread.now ≤ longest }
        ensures onward { Onward (λ xs. run self.old.scanner self.old.at xs (lines_of unread.now)) self.old.scanner.begun result self.new }
        ensures left { left self.new ≤ length unread.now }
    {
        let mut unread = unread;
        while let Some((line, after)) = first_line(unread) {
            let at = self.at;
            let next = at + line.len() as u32;
            // A copy, so that a line that is refused leaves the scanner as it was.
            let mut scanner = self.scanner;
            let turn = scanner.line(kind_of(text(line)), at, next)?;
            self.at = next;
            self.scanner = scanner;
            match turn {
                Turn::On => unread = after,
                Turn::Ink(ink) => {
                    self.unread = Some(after);
                    return Ok(ink);
                }
                Turn::End(ink) => return Ok(ink),
            }
        }
        Err(self.scanner.refusal(Refusal::Unfinished, self.at))
    }
}

impl<'a> Iterator for Reading<'a> {
    type Item = Result<LeafInk, Fault>;

    ghost next_gives = { Gives };

    ghost remaining = { λ s. at_most (left s) };

    fn next(&mut self) -> Option<Result<LeafInk, Fault>> {
        let unread = self.unread.take()?;
        Some(self.ink(unread))
    }
}
