//! Files of each format, and their readers.
use crate::failure::Failure;
use crate::files;
use dsc::Dsc;
use listing::Listing;
use pages::faults::Fault;
use pages::limits::INDEX_NUMBERS;
use pages::sources::Source;

/// How a file is written.
#[derive(Clone, Copy, PartialEq, Eq)]
pub enum Format {
    /// PostScript with document structuring comments.
    Dsc,
    /// A line-printer listing.
    Listing,
}

impl Format {
    /// Fills the index of a file.
    fn scan(self, file: &[u8], index: &mut [u32]) -> Result<u32, Fault> {
        match self {
            Format::Dsc => dsc::scan(file, index),
            Format::Listing => listing::scan(file, index),
        }
    }
}

/// The reader of a format.
pub trait Reader: Source + Drop {
    /// The label of a leaf; None where it has none.
    fn label_of(&self, leaf: u32) -> Option<&[u8]>;
}

impl<'a> Reader for Dsc<'a> {
    fn label_of(&self, leaf: u32) -> Option<&[u8]> {
        self.label(leaf).ok()
    }
}

impl<'a> Reader for Listing<'a> {
    fn label_of(&self, _leaf: u32) -> Option<&[u8]> {
        None
    }
}

/// What is done with a file once it is read.
pub trait Reading {
    fn perform<R: Reader>(&self, rt: &HostRuntime, reader: R, index: &[u32]) -> Result<(), Failure>;
}

/// The file that a command reads.
#[derive(Drop)]
pub struct Input {
    pub format: Format,
    pub name: String,
}

impl Input {
    /// Reads the file, and hands its reader and its index on.
    pub fn read<T: Reading>(&self, rt: &HostRuntime, reading: &T) -> Result<(), Failure> {
        let file = files::read(rt, self.name.as_str())?;
        let mut index = vec![in rt.alloc(); 0u32; INDEX_NUMBERS]?;
        self.format.scan(&file, &mut index)?;
        // each reader is another type, which borrows the file and the index here, so each is loaded in an arm of its own
        match self.format {
            Format::Dsc => {
                let mut reader = Dsc::empty();
                reader.load(&file, &index)?;
                reading.perform(rt, reader, &index)
            }
            Format::Listing => {
                let mut reader = Listing::empty();
                reader.load(&file, &index)?;
                reading.perform(rt, reader, &index)
            }
        }
    }
}
