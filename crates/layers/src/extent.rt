ghost use Rattle.std.specs.Prelude.{◌≤◌};
ghost use Rattle.pages.specs.Limits.{max_pages, max_side};

use pages::maps::Size;

/// The size and the number of a layer's pages, within the bounds of every source.
#[derive(Clone, Copy)]
pub struct Extent {
    pub size: Size,
    pub pages: u32,
    ghost wide: { (1 ≤ size.width) × (size.width ≤ max_side) },
    ghost high: { (1 ≤ size.height) × (size.height ≤ max_side) },
    ghost paged: { pages ≤ max_pages },
}
