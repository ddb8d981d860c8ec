//! The texts of a book: what opens it, each of its sides, and what ends it.

ghost use Rattle.std.specs.Prelude.{◌≡◌, ◌+◌, ◌≤◌, is_some, length};
ghost use Rattle.pages.specs.Meaning.{written};
ghost use Rattle.sides.specs.Puts.{Put};
ghost use Rattle.sides.specs.Texts.{ending_text, head_text, max_block, opening_of, page_line, parts_text, showpage};
ghost use Rattle.text.specs.Pieces.{place_after, spelled_all};

use crate::inks::InkSink;
use crate::positions::put_position;
use layers::parts::Part;
use pages::maps::Size;
use pages::sources::Source;
use text::{Counter, Lent, Piece, Sink, measure, put, put_pieces};

const SHOWPAGE: &[u8] = b"showpage\n";

const ENDING: &[u8] = b"%%Trailer\n%%EOF\n";

// The line that begins a side.
fn page_line(side: u32) -> [Piece<'static>; 5]
    ensures { spelled_all result ≡ page_line side }
{
    let number = Piece::Number(side as u64);
    [
        Piece::Bytes(b"%%Page: "),
        number,
        Piece::Bytes(b" "),
        number,
        Piece::Bytes(b"\n"),
    ]
}

/// How many bytes the text of a side has besides its positions.
pub fn frame_length(side: u32) -> usize
    ensures all { result ≡ length (page_line side) + length showpage }
    ensures few { result ≤ 64 }
{
    // without its positions, whose lengths are added up one by one before anything is written
    measure(&page_line(side)) + SHOWPAGE.len()
}

// Gives the text of a side with these positions to a sink.
fn put_parts<O: InkSink, S: Source>(
    out: &mut O,
    below: &S,
    side: u32,
    positions: &[Part],
) -> Option<()>
    ensures { O.takes out.old (parts_text (S.meaning below.now) side positions.now) (is_some result) out.new }
{
    put_pieces(out, &page_line(side))?;
    for position in positions {
        put_position(out, below, position)?;
    }
    out.take(SHOWPAGE)
}

/// Writes the text of a side with these positions at the buffer's start, and answers its length. Where it does not fit,
/// the answer is None, and the buffer then begins with a front of the text.
pub fn put_side<S: Source>(
    below: &S,
    side: u32,
    positions: &[Part],
    buffer: &mut [u8],
) -> Option<usize>
    ensures { Put buffer.old 0 (parts_text (S.meaning below.now) side positions.now) buffer.new result }
{
    let mut lent = Lent { buffer, at: 0 };
    put_parts(&mut lent, below, side, positions)?;
    Some(lent.at)
}

// The lines of the opening before the preamble.
fn head(size: Size, sides: u32) -> [Piece<'static>; 7]
    ensures { spelled_all result ≡ head_text size.width size.height sides }
{
    [
        Piece::Bytes(b"%!PS-Adobe-3.0\n%%BoundingBox: 0 0 "),
        Piece::Number(size.width as u64),
        Piece::Bytes(b" "),
        Piece::Number(size.height as u64),
        Piece::Bytes(b"\n%%Pages: "),
        Piece::Number(sides as u64),
        Piece::Bytes(b"\n%%EndComments\n"),
    ]
}

// Gives the opening of a book whose sides are the pages of a source to a sink.
fn put_opening<O: InkSink, S: Source>(out: &mut O, source: &S) -> Option<()>
    ensures { O.takes out.old (opening_of (S.meaning source.now)) (is_some result) out.new }
{
    put_pieces(out, &head(source.size(), source.pages()))?;
    out.take_ink(source, 0)
}

/// How many bytes the opening of a book has whose sides are the pages of a source.
pub fn opening_length<S: Source>(source: &S) -> usize
    ensures all { result ≡ length (opening_of (S.meaning source.now)) }
    ensures few { result ≤ max_block }
{
    let mut counter = Counter { count: 0 };
    // A count of so few bytes cannot fail.
    put_opening(&mut counter, source);
    counter.count
}

/// Writes the opening of a book whose sides are the pages of a source at the buffer's start, and answers its length. An
/// opening that does not fit is not begun.
pub fn opening<S: Source>(source: &S, buffer: &mut [u8]) -> Option<usize>
    ensures answer { result ≡ place_after (opening_of (S.meaning source.now)) (length buffer.old) 0 }
    ensures after { buffer.new ≡ written (opening_of (S.meaning source.now)) buffer.old 0 }
{
    if buffer.len() < opening_length(source) {
        return None;
    }
    let mut lent = Lent { buffer, at: 0 };
    put_opening(&mut lent, source)?;
    Some(lent.at)
}

/// How many bytes the ending of a book has.
pub fn ending_length() -> usize
    ensures { result ≡ length ending_text }
{
    ENDING.len()
}

/// Writes what ends a book at the buffer's start, and answers its length. An ending that does not fit is not begun.
pub fn ending(buffer: &mut [u8]) -> Option<usize>
    ensures answer { result ≡ place_after ending_text (length buffer.old) 0 }
    ensures after { buffer.new ≡ written ending_text buffer.old 0 }
{
    put(buffer, 0, &[Piece::Bytes(ENDING)])
}
