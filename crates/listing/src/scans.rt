ghost use Rattle.listing.specs.Scans.{Scans, file_index};
ghost use Rattle.pages.specs.Splice.{splice};
ghost use Rattle.std.specs.Prelude.{◌≡◌, ◌≤◌, Ok, length};

use crate::checked::Checked;
use crate::page_spans::PREAMBLE;
use pages::faults::{Fault, Refusal};
use pages::spans::index_numbers;

/// Writes the spans of the preamble and of each page into an index, which has room for them.
fn fill(checked: &Checked, index: &mut [u32]) -> Result<(), Fault>
    requires { length (file_index checked.now.file.now) ≤ length index.old }
    ensures answer { result ≡ Ok tt }
    ensures after { index.new ≡ splice index.old 0 (file_index checked.now.file.now) }
{
    PREAMBLE.put(index, 0)?;
    for (i, span) in checked.spans().enumerate() {
        span.put(index, i + 1)?;
    }
    Ok(())
}

/// Checks a file, fills its index and answers how many pages it has.
///
/// The index takes a pair of offset and length for the preamble and for each page; numbers after that are left
/// alone. A refusal leaves the index as it was.
pub fn scan(file: &[u8], index: &mut [u32]) -> Result<u32, Fault>
    ensures { Scans file.now index.old index.new result }
{
    let checked = Checked::new(file)?;
    let pages = checked.pages();
    if index.len() < index_numbers(pages) {
        return Err(Fault::new(Refusal::ShortBuffer, 1, 0));
    }
    fill(&checked, index)?;
    Ok(pages)
}
