//! Maps of the plane, placements of leaves, and sizes.

ghost use Rattle.std.specs.Prelude.{◌≡◌, ◌≤◌, ◌^◌, ◌*◌, true, pos, ◌+ℤ◌, ◌*ℤ◌, if◌then◌else◌, ◌&&◌, Some, None, MatchOption};
ghost use Rattle.pages.specs.Limits.{max_turn, max_ratio};
ghost use Rattle.pages.specs.Maps.{near, fits, turned, identity, followed, composed, MapsCompose};
ghost use Rattle.pages.specs.Texts.{map_text, size_text};

use crate::limits::{MAX_RATIO, MAX_TURN, MAX_VECTOR};
use std::fmt;

/// Sends a point p to (num · R^turn p + (x, y)) / den, where R is a quarter turn: (x, y) goes to (−y, x).
#[derive(Clone, Copy, PartialEq, Eq, Debug)]
pub struct Map {
    pub turn: u8,
    pub num: u32,
    pub den: u32,
    pub x: i64,
    pub y: i64,
}

/// A leaf of the document as it lies on a page.
#[derive(Clone, Copy, PartialEq, Eq, Debug)]
pub struct Placement {
    pub leaf: u32,
    pub map: Map,
}

/// A page's width and height in points.
#[derive(Clone, Copy, PartialEq, Eq, Debug)]
pub struct Size {
    pub width: u32,
    pub height: u32,
}

impl Size {
    /// A letter page.
    pub const LETTER: Size = Size {
        width: 612,
        height: 792,
    };
}

/// `WIDTH HEIGHT`.
impl fmt::Display for Size {
    ghost output = { λ s. Some (size_text s) };

    fn fmt<W: fmt::Write>(&self, f: &mut fmt::Formatter<W>) -> fmt::Result {
        let Size { width, height } = *self;
        write!(f, "{width} {height}")
    }
}

/// The map that leaves every point where it is.
impl Default for Map {
    ghost is_default = { λ m. m ≡ identity };

    fn default() -> Map {
        Map::identity()
    }
}

fn near(v: i64) -> bool
    ensures { result ≡ near v }
{
    (-MAX_VECTOR..=MAX_VECTOR).contains(&v)
}

// What q quarter turns make of (x, y).
fn turned(q: u8, x: i64, y: i64) -> (i64, i64)
    requires quarter { q ≤ max_turn }
    requires near_x { near x ≡ true }
    requires near_y { near y ≡ true }
    ensures { result ≡ turned q (x, y) }
{
    match q {
        0 => (x, y),
        1 => (-y, x),
        2 => (-x, -y),
        _ => (y, -x),
    }
}

// n·a + d·b, which the bounds keep within 64 bits.
fn scaled(n: u32, a: i64, d: u32, b: i64) -> i64
    requires small_n { n ≤ max_ratio }
    requires small_d { d ≤ max_ratio }
    requires near_a { near a ≡ true }
    requires near_b { near b ≡ true }
    ensures { result ≡ pos n *ℤ a +ℤ pos d *ℤ b }
{
    n as i64 * a + d as i64 * b
}

// The product of two numbers of ratios, in 64 bits; None where no number of a ratio is so great.
fn product(a: u32, b: u32) -> Option<u32>
    ensures { MatchOption result (2 ^ 32 ≤ a * b) (λ n. n ≡ a * b) }
{
    u32::try_from(u64::from(a) * u64::from(b)).ok()
}

impl Map {
    /// The map that leaves every point where it is.
    pub fn identity() -> Map
        ensures { result ≡ identity }
    {
        Map {
            turn: 0,
            num: 1,
            den: 1,
            x: 0,
            y: 0,
        }
    }

    // Whether the vector keeps its bounds.
    fn is_near(self) -> bool
        ensures { result ≡ (near self.x && near self.y) }
    {
        near(self.x) && near(self.y)
    }

    /// Whether the map keeps the bounds of every map.
    pub fn fits(self) -> bool
        ensures { result ≡ fits self }
    {
        self.turn <= MAX_TURN
            && (1..=self.den).contains(&self.num)
            && self.den <= MAX_RATIO
            && self.is_near()
    }

    // This map followed by the other, of two that fit.
    fn followed(self, other: Map) -> Option<Map>
        requires first_fits { fits self ≡ true }
        requires second_fits { fits other ≡ true }
        ensures { result ≡ (if fits (followed self other) then Some (followed self other) else None) }
    {
        let (x, y) = turned(other.turn, self.x, self.y);
        let both = Map {
            turn: (self.turn + other.turn) % 4,
            num: product(self.num, other.num)?,
            den: product(self.den, other.den)?,
            x: scaled(other.num, x, self.den, other.x),
            y: scaled(other.num, y, self.den, other.y),
        };
        both.fits().then_some(both)
    }

    /// This map followed by the other; None where one of the three leaves the bounds.
    pub fn then(self, other: Map) -> Option<Map>
        ensures { result ≡ composed self other }
    {
        if !self.fits() || !other.fits() {
            return None;
        }
        self.followed(other)
    }
}

/// `TURN NUM DEN X Y`.
impl fmt::Display for Map {
    ghost output = { λ m. Some (map_text m) };

    fn fmt<W: fmt::Write>(&self, f: &mut fmt::Formatter<W>) -> fmt::Result {
        let Map {
            turn,
            num,
            den,
            x,
            y,
        } = *self;
        write!(f, "{turn} {num} {den} {x} {y}")
    }
}

/// One map followed by another sends every point where the one and then the other send it; the identity is neutral,
/// and maps that follow one another may be grouped in any way.
pub fn maps_compose()
    ensures { MapsCompose }
{}
