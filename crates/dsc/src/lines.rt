//! Lines of a file.
ghost use Rattle.std.specs.Prelude.{◌≡◌};
ghost use Rattle.pages.specs.Inks.{uncarried, text_of};
ghost use Rattle.dsc.specs.Lines.{Split};

use text::before;

/// The first line, its line feed included, and what follows it; none where no byte is left.
pub(crate) fn first_line<'a>(bytes: &'a [u8]) -> Option<(&'a [u8], &'a [u8])>
    ensures { Split bytes.now result }
{
    if bytes.is_empty() {
        return None;
    }
    let end = (before(bytes, b'\n') + 1).min(bytes.len());
    Some(bytes.split_at(end))
}

// A text without the carriage return at its end, if there is one.
fn without_return<'a>(text: &'a [u8]) -> &'a [u8]
    ensures { result.now ≡ uncarried text.now }
{
    match text {
        [rest @ .., b'\r'] => rest,
        _ => text,
    }
}

/// A line's text: the line without its line feed, and without a carriage return just before that.
pub(crate) fn text<'a>(line: &'a [u8]) -> &'a [u8]
    ensures { result.now ≡ text_of line.now }
{
    match line {
        [rest @ .., b'\n'] => without_return(rest),
        _ => line,
    }
}
