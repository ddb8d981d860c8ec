//! Reduce: all pages scaled down by a ratio.

ghost use Rattle.std.specs.Prelude.{◌*◌, ◌/◌, ◌%◌};
ghost use Rattle.layers.specs.Reducing.{ReduceTaken, reduce_objects, reduce_shows};

use crate::extent::Extent;
use crate::layer::Layer;
use crate::parts::{Objection, Part};
use crate::rules::{Plan, Rule};
use pages::faults::Refusal;
use pages::maps::{Map, Size};
use pages::sources::Source;

/// The greatest denominator that an order may name.
pub const MAX_REDUCTION: u32 = 1_000;

/// All pages scaled by `num` over `den`.
#[derive(Clone, Copy)]
pub struct Ratio {
    pub num: u32,
    pub den: u32,
}

/// A layer that scales all pages down. An order names the ratio, 1 ≤ num ≤ den ≤ 1,000; it starts with 1 over 1.
pub type Reduce<S> = Layer<S, Ratio>;

impl Rule for Ratio {
    type Order = Ratio;

    ghost shows = { λ r. reduce_shows r.num r.den };

    ghost starts = { λ m r x. ReduceTaken 1 1 m r.num r.den x };

    ghost objects = { λ _ o m. reduce_objects o.num o.den m };

    ghost takes = { λ _ o m r x. ReduceTaken o.num o.den m r.num r.den x };

    fn start<S: Source>(below: &S) -> Plan<Ratio> {
        Plan {
            rule: Ratio { num: 1, den: 1 },
            extent: Extent::of(below),
        }
    }

    fn ordered<S: Source>(&self, below: &S, order: Ratio) -> Result<Plan<Ratio>, Objection> {
        let Ratio { num, den } = order;
        if num < 1 || num > den || den > MAX_REDUCTION {
            return Err(Objection::new(Refusal::BadOrder, 0));
        }
        let Extent { size, pages } = Extent::of(below);
        let width = size.width * num;
        let height = size.height * num;
        if width % den != 0 || height % den != 0 {
            return Err(Objection::new(Refusal::Uneven, 0));
        }
        let extent = Extent {
            size: Size {
                width: width / den,
                height: height / den,
            },
            pages,
        };
        Ok(Plan {
            rule: order,
            extent,
        })
    }

    fn count<S: Source>(&self, below: &S, page: u32) -> u32 {
        1
    }

    fn part<S: Source>(&self, below: &S, page: u32, index: u32) -> Option<Part> {
        // each page has one part: the page below, scaled
        (index == 0).then_some(Part {
            page,
            map: Map {
                num: self.num,
                den: self.den,
                ..Map::identity()
            },
        })
    }
}
