ghost use Rattle.std.specs.Prelude.{◌≡◌, ◌+◌, ◌-◌, ◌^◌, ◌≤◌, min, length, count_by, is_some, nat_le};
ghost use Rattle.listing.specs.Inks.{baseline, escape, escaped, ink_of, shown_line, special};
ghost use Rattle.text.specs.Writes.{Wrote};

use crate::parts::Parts;
use crate::places::LINE_FEED;
use text::{Counter, Lent, Piece, Sink, put_pieces};

/// How high the first line of a page stands, in points.
const FIRST_BASELINE: u64 = 748;

/// How much lower each line stands than the one before it.
const LINE_SPACING: u64 = 11;

/// The line, from 0, that would stand at the foot.
const FOOT_LINE: u64 = FIRST_BASELINE / LINE_SPACING;

const FONT: &[u8] = b"/Courier findfont 6 scalefont setfont\n";

/// Whether a byte has a meaning in a PostScript string.
fn is_special(b: u8) -> bool
    ensures { result ≡ special b }
{
    matches!(char::from(b), '(' | ')' | '\\')
}

fn count_special(line: &[u8]) -> usize
    ensures { result ≡ count_by special line.now }
{
    // a loop, which is unrolled as `filter` and `count` are not: each byte of a listing passes here
    let mut count = 0;
    for b in line {
        if is_special(*b) {
            count += 1;
        }
    }
    count
}

/// How many bytes a line has once a backslash stands before each special byte.
#[tactic(auto, using(crate::proofs::Inking::escaped_count))]
fn escaped_length(line: &[u8]) -> usize
    ensures { result ≡ length (escaped line.now) }
{
    line.len() + count_special(line)
}

/// Whether a line fits into so many bytes once it is escaped; room for twice the line is enough, and spares the count.
#[tactic(auto, using(crate::proofs::Inking::escaped_le))]
fn has_room(room: usize, line: &[u8]) -> bool
    ensures { result ≡ nat_le (length (escaped line.now)) room }
{
    line.len() <= room / 2 || escaped_length(line) <= room
}

/// Writes a byte, with a backslash before a special one, and answers the place after it.
fn put_escape(buffer: &mut [u8], at: usize, b: u8) -> usize
    requires { at + length (escape b) ≤ length buffer.old }
    ensures { Wrote buffer.old at (escape b) buffer.new result }
{
    if is_special(b) {
        buffer[at] = b'\\';
        buffer[at + 1] = b;
        return at + 2;
    }
    buffer[at] = b;
    at + 1
}

/// Writes a line with a backslash before each special byte, and answers the place after it.
#[inline(never)] // so that the loop keeps its registers wherever it is called
fn put_escaped(buffer: &mut [u8], at: usize, line: &[u8]) -> usize
    requires { at + length (escaped line.now) ≤ length buffer.old }
    ensures { Wrote buffer.old at (escaped line.now) buffer.new result }
{
    let mut end = at;
    for b in line {
        end = put_escape(buffer, end, *b);
    }
    end
}

/// A sink that takes a line with a backslash before each special byte: at once, since taking byte by byte costs more.
pub(crate) trait LineSink: Sink {
    /// Takes a line, or answers None where it does not fit.
    fn take_escaped(&mut self, line: &[u8]) -> Option<()>
        ensures { Self.takes self.old (escaped line.now) (is_some result) self.new };
}

impl LineSink for Counter {
    fn take_escaped(&mut self, line: &[u8]) -> Option<()> {
        self.count = self.count.checked_add(escaped_length(line))?;
        Some(())
    }
}

impl<'a> LineSink for Lent<'a> {
    fn take_escaped(&mut self, line: &[u8]) -> Option<()> {
        if !has_room(self.buffer.len() - self.at, line) {
            return None;
        }
        self.at = put_escaped(self.buffer, self.at, line);
        Some(())
    }
}

/// How high line `i`, from 0, stands; a line below the foot, which no page has, would stand at the foot.
fn baseline(i: usize) -> u64
    ensures { result ≡ baseline i }
{
    FIRST_BASELINE - LINE_SPACING * (i as u64).min(FOOT_LINE)
}

fn put_line<O: LineSink>(out: &mut O, i: usize, line: &[u8]) -> Option<()>
    ensures { O.takes out.old (shown_line i line.now) (is_some result) out.new }
{
    let start = [
        Piece::Bytes(b"36 "),
        Piece::Number(baseline(i)),
        Piece::Bytes(b" moveto ("),
    ];
    put_pieces(out, &start)?;
    out.take_escaped(line)?;
    out.take(b") show\n")
}

/// Puts the ink of a page.
pub(crate) fn put_ink<O: LineSink>(out: &mut O, page: &[u8]) -> Option<()>
    ensures { O.takes out.old (ink_of page.now) (is_some result) out.new }
{
    out.take(FONT)?;
    for (i, line) in Parts::new(page, LINE_FEED).enumerate() {
        put_line(out, i, line)?;
    }
    Some(())
}

/// How many bytes the ink of a page has.
pub(crate) fn ink_length(page: &[u8]) -> usize
    ensures { result ≡ min (length (ink_of page.now)) (2 ^ 64 - 1) }
{
    let mut counter = Counter { count: 0 };
    match put_ink(&mut counter, page) {
        Some(()) => counter.count,
        None => usize::MAX,
    }
}
