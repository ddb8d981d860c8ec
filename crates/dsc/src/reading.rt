//! A file that was opened, and a reading of it.
ghost use Rattle.std.specs.Prelude.{◌≡◌, ◌+◌, ◌≤◌, length, take};
ghost use Rattle.dsc.specs.Bounds.{longest, mark};
ghost use Rattle.dsc.specs.Lines.{bytes_of};

use crate::scanner::Scanner;

/// A file that is short enough, and begins as a DSC file does.
#[derive(Clone, Copy)]
pub struct Opened<'a> {
    pub(crate) file: &'a [u8],
    ghost short: { length file.now ≤ longest },
    ghost marked: { take 14 file.now ≡ mark },
}

/// The inks of an opened file, the preamble's first, as its lines are read.
#[derive(Drop)]
pub struct Reading<'a> {
    /// What is left of the file; none past the Trailer line or a refusal.
    pub(crate) unread: Option<&'a [u8]>,
    /// Where that begins.
    pub(crate) at: u32,
    pub(crate) scanner: Scanner,
    ghost short: { at + length (bytes_of unread) ≤ longest },
    ghost behind: { scanner.from ≤ at },
}
