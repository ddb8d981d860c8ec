//! Blocks: each shows one placement of a leaf.

ghost use Rattle.std.specs.Prelude.{◌≡◌, is_some};
ghost use Rattle.sides.specs.Texts.{block_of, placing};
ghost use Rattle.text.specs.Pieces.{spelled_all};

use crate::inks::InkSink;
use pages::maps::{Map, Placement};
use pages::sources::Source;
use text::{Piece, put_pieces};

// The lines before the ink, as pieces.
fn placing(map: Map) -> [Piece<'static>; 15]
    ensures { spelled_all result ≡ placing map }
{
    let den = Piece::Number(map.den as u64);
    [
        Piece::Bytes(b"save\n/showpage { } def\n"),
        Piece::Signed(map.x),
        Piece::Bytes(b" "),
        den,
        Piece::Bytes(b" div "),
        Piece::Signed(map.y),
        Piece::Bytes(b" "),
        den,
        Piece::Bytes(b" div translate\n"),
        Piece::Number(90 * map.turn as u64),
        Piece::Bytes(b" rotate\n"),
        Piece::Number(map.num as u64),
        Piece::Bytes(b" "),
        den,
        Piece::Bytes(b" div dup scale\n"),
    ]
}

/// Gives the block of a placement to a sink.
pub(crate) fn put_block<O: InkSink, S: Source>(
    out: &mut O,
    source: &S,
    placement: Placement,
) -> Option<()>
    ensures { O.takes out.old (block_of (S.meaning source.now) placement) (is_some result) out.new }
{
    put_pieces(out, &placing(placement.map))?;
    out.take_ink(source, placement.leaf)?;
    out.take(b"restore\n")
}
