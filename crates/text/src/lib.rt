//! Text as pieces, its length, and its bytes in a lent buffer.
#![tactic(auto)]

ghost use Rattle.std.specs.Prelude.{◌≡◌, ◌-◌, ◌^◌, min, length, is_some};
ghost use Rattle.pages.specs.Meaning.{written};
ghost use Rattle.text.specs.Pieces.{place_after, spelled, spelled_all};
ghost use Rattle.text.specs.Searches.{until};

mod sinks;

use itoa::Buffer;
pub use sinks::{Counter, Lent, Sink};

/// A piece of text: bytes as they stand, or a number in decimal, with a minus in front where it is below 0.
#[derive(Clone, Copy)]
pub enum Piece<'a> {
    Bytes(&'a [u8]),
    Number(u64),
    Signed(i64),
}

/// How many bytes stand before the first `stop`, or in all where there is none.
pub fn before(bytes: &[u8], stop: u8) -> usize
    ensures { result ≡ until stop bytes.now }
{
    bytes.iter().take_while(|b| **b != stop).count()
}

#[inline(always)] // see put_pieces
fn put_piece<O: Sink>(out: &mut O, piece: &Piece) -> Option<()>
    ensures { O.takes out.old (spelled piece.now) (is_some result) out.new }
{
    match piece {
        Piece::Bytes(bytes) => out.take(bytes),
        Piece::Number(n) => out.take(Buffer::new().format(*n).as_bytes()),
        Piece::Signed(n) => out.take(Buffer::new().format(*n).as_bytes()),
    }
}

/// Gives a text to a sink, piece by piece, as far as it fits.
#[inline(always)] // a caller's few pieces then need no loop, and a count of fixed bytes no code
pub fn put_pieces<O: Sink>(out: &mut O, pieces: &[Piece]) -> Option<()>
    ensures { O.takes out.old (spelled_all pieces.now) (is_some result) out.new }
{
    for piece in pieces {
        put_piece(out, piece)?;
    }
    Some(())
}

/// The length of a text, which stays at the largest `usize`.
pub fn measure(pieces: &[Piece]) -> usize
    ensures { result ≡ min (length (spelled_all pieces.now)) (2 ^ 64 - 1) }
{
    let mut counter = Counter { count: 0 };
    match put_pieces(&mut counter, pieces) {
        Some(()) => counter.count,
        None => usize::MAX,
    }
}

/// Writes a text from byte `at` on and answers the place after it. A text that does not fit is not begun.
pub fn put(buffer: &mut [u8], at: usize, pieces: &[Piece]) -> Option<usize>
    ensures answer { result ≡ place_after (spelled_all pieces.now) (length buffer.old) at }
    ensures after { buffer.new ≡ written (spelled_all pieces.now) buffer.old at }
{
    if buffer.len() < at || buffer.len() - at < measure(pieces) {
        return None;
    }
    let mut lent = Lent { buffer, at };
    put_pieces(&mut lent, pieces)?;
    Some(lent.at)
}
