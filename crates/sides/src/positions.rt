//! Positions of a side: each shows the placements of a page below.

ghost use Rattle.std.specs.Prelude.{◌≡◌, ◌≤◌, is_some, length};
ghost use Rattle.sides.specs.Texts.{max_position, part_text};

use crate::blocks::put_block;
use crate::inks::InkSink;
use layers::parts::{Part, moved};
use layers::placements::Placements;
use pages::sources::Source;
use text::Counter;

/// Gives the text of a position to a sink.
pub(crate) fn put_position<O: InkSink, S: Source>(
    out: &mut O,
    below: &S,
    position: &Part,
) -> Option<()>
    ensures { O.takes out.old (part_text (S.meaning below.now) position.now) (is_some result) out.new }
{
    for placement in Placements::of(below, position.page) {
        put_block(out, below, moved(placement, position.map))?;
    }
    Some(())
}

/// How many bytes the text of a position has.
pub fn position_length<S: Source>(below: &S, position: &Part) -> usize
    ensures all { result ≡ length (part_text (S.meaning below.now) position.now) }
    ensures few { result ≤ max_position }
{
    let mut counter = Counter { count: 0 };
    // A count of so few bytes cannot fail.
    put_position(&mut counter, below, position);
    counter.count
}
