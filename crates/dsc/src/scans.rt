//! Scan: a file is read through once for the checks, and once more to fill the index.
ghost use Rattle.std.specs.Prelude.{◌≡◌, ◌≤◌, length, Ok};
ghost use Rattle.dsc.specs.Scans.{scanned, meant};
ghost use Rattle.dsc.specs.ScanAnswers.{Surveyed, answered, indexed};

use crate::reading::Opened;
use pages::faults::{Fault, Refusal};
use pages::spans::index_numbers;

impl<'a> Opened<'a> {
    // How many leaves the file has, if it is accepted.
    fn survey(&self) -> Result<u32, Fault>
        ensures { Surveyed self.now.file.now result }
    {
        let mut leaves = 0;
        for ink in self.inks() {
            leaves = ink?.leaf;
        }
        Ok(leaves)
    }

    // Writes the pairs of the inks.
    fn fill(&self, index: &mut [u32]) -> Result<(), Fault>
        requires accepted { scanned self.now.file.now ≡ Ok (meant self.now.file.now) }
        requires room { length (meant self.now.file.now).index ≤ length index.old }
        ensures answer { result ≡ Ok tt }
        ensures after { index.new ≡ indexed (scanned self.now.file.now) index.old }
    {
        for ink in self.inks() {
            let ink = ink?;
            ink.span.put(index, ink.leaf as usize)?;
        }
        Ok(())
    }
}

/// Reads a DSC file: its number of leaves, and into the index a pair of offset and length for each ink, the preamble's first.
/// Spare numbers of the index stay as they were, and so does all of it where the file is refused or the index is too short.
pub fn scan(file: &[u8], index: &mut [u32]) -> Result<u32, Fault>
    ensures answer { result ≡ answered (scanned file.now) (length index.old) }
    ensures after { index.new ≡ indexed (scanned file.now) index.old }
{
    let file = Opened::new(file)?;
    let leaves = file.survey()?;
    let room = index_numbers(leaves);
    if room > index.len() {
        return Err(Fault::new(Refusal::ShortBuffer, 1, 0));
    }
    file.fill(index)?;
    Ok(leaves)
}
