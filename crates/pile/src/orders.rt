use layers::ranges::Range;
use layers::reduce::Ratio;
use signature::imposition::Scheme;

/// An order of a layer of any kind.
#[derive(Clone, Copy)]
pub enum Order {
    Select(Range),
    Pad(u32),
    Turn(u32),
    Reduce(Ratio),
    Impose(Scheme),
}
