//! What sources answer that show each leaf of a document as a page, as it is, and stand lowest.

ghost use Rattle.std.specs.Prelude.{◌≡◌};
ghost use Rattle.pages.specs.LeafPages.{leaf_laid, leaf_place};

use crate::faults::{Fault, Refusal};
use crate::maps::{Map, Placement};

/// How many placements a page has, where each of so many leaves is a page: one.
pub fn laid(leaves: u32, page: u32) -> Result<u32, Fault>
    ensures { result ≡ leaf_laid leaves page }
{
    if !(1..=leaves).contains(&page) {
        return Err(Fault::new(Refusal::NoSuch, 1, page));
    }
    Ok(1)
}

/// The placement in a slot of a page, where each of so many leaves is a page: its leaf, as it is.
pub fn place(leaves: u32, page: u32, slot: u32) -> Result<Placement, Fault>
    ensures { result ≡ leaf_place leaves page slot }
{
    laid(leaves, page)?;
    if slot != 1 {
        return Err(Fault::new(Refusal::NoSuch, 1, page));
    }
    Ok(Placement {
        leaf: page,
        map: Map::identity(),
    })
}
