//! The bounds that every map, source and ink keeps.

/// Quarter turns of a map.
pub const MAX_TURN: u8 = 3;
/// The denominator of a map, and so its numerator.
pub const MAX_RATIO: u32 = 1_000_000;
/// Each coordinate of a map's vector, either way.
pub const MAX_VECTOR: i64 = 1_000_000_000_000;
/// The width and the height of a page, in points.
pub const MAX_SIDE: u32 = 20_000;
/// Leaves besides the preamble.
pub const MAX_LEAVES: u32 = 4_096;
/// Pages of a source.
pub const MAX_PAGES: u32 = 4_096;
/// Placements on one page.
pub const MAX_PLACEMENTS: u32 = 64;
/// Bytes of an ink.
pub const MAX_INK: u32 = 16_777_216;
/// The depth of a pile.
pub const MAX_DEPTH: u8 = 255;
/// Numbers of an index: a pair for the preamble and for each leaf.
pub const INDEX_NUMBERS: usize = 2 * (1 + MAX_LEAVES as usize);
