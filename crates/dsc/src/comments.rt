//! The kinds of a line, and the values of its comment.
ghost use Rattle.std.specs.Prelude.{◌≡◌, ◌==◌, length};
ghost use Rattle.std.specs.List.{position};
ghost use Rattle.std.specs.Option.{option_map};
ghost use Rattle.dsc.specs.Comments.{view, kind, heading_of, page_view, keyword_of, marked_of, strip, pages_of, box_of, sided, label_of, ordinal_of, ordinal_at, label_len, paren_len, plain_len, paged, Parted};
ghost use Rattle.dsc.specs.Values.{trim, word_of, number_of};

use crate::values::{number, trimmed, word};
use pages::limits::{MAX_PAGES, MAX_SIDE};
use pages::maps::Size;

/// What a Page line says.
#[derive(Clone, Copy)]
pub struct Heading<'a> {
    /// A part of the line.
    pub label: &'a [u8],
    pub ordinal: u32,
}

/// What a line is, by its text. A value that cannot be read, or is out of its range, is `None`.
#[derive(Clone, Copy)]
pub enum Comment<'a> {
    EndComments,
    Trailer,
    Pages(Option<u32>),
    BoundingBox(Option<Size>),
    Page(Option<Heading<'a>>),
    /// Any other comment, and a line that is none.
    Other,
}

impl<'a> Comment<'a> {
    /// What the line says, if it is a Page line that can be read.
    pub(crate) fn heading(self) -> Option<Heading<'a>>
        ensures { result ≡ heading_of self.entry }
    {
        match self {
            Comment::Page(value) => value,
            _ => None,
        }
    }
}

// What follows the two bytes `%%`.
fn marked<'a>(text: &'a [u8]) -> Option<&'a [u8]>
    ensures { option_map (λ x. x.now) result ≡ marked_of text.now }
{
    match text {
        [b'%', b'%', rest @ ..] => Some(rest),
        _ => None,
    }
}

// What follows a keyword.
fn after<'a>(s: &'a [u8], keyword: &[u8]) -> Option<&'a [u8]>
    ensures { option_map (λ x. x.now) result ≡ strip keyword.now s.now }
{
    s.strip_prefix(keyword)
}

// Whether no word comes any more.
fn is_blank(rest: &[u8]) -> bool
    ensures { result ≡ (length (word_of rest.now) == 0) }
{
    let (first, _) = word(rest);
    first.is_empty()
}

fn pages_value(value: &[u8]) -> Option<u32>
    ensures { result ≡ pages_of value.now }
{
    let (count, rest) = word(value);
    if !is_blank(rest) {
        return None;
    }
    number(count).filter(|n| *n <= MAX_PAGES)
}

// A side of a page, which has its bounds.
fn side(word: &[u8]) -> Option<u32>
    ensures { result ≡ sided (number_of word.now) }
{
    number(word).filter(|n| 1 <= *n && *n <= MAX_SIDE)
}

fn box_value(value: &[u8]) -> Option<Size>
    ensures { result ≡ box_of value.now }
{
    let (left, rest) = word(value);
    let (bottom, rest) = word(rest);
    let (right, rest) = word(rest);
    let (top, rest) = word(rest);
    if !is_blank(rest) || number(left)? != 0 || number(bottom)? != 0 {
        return None;
    }
    Some(Size {
        width: side(right)?,
        height: side(top)?,
    })
}

// Where the first such byte stands.
fn find(s: &[u8], wanted: u8) -> Option<usize>
    ensures { result ≡ position (λ b. b == wanted) s.now }
{
    s.iter().position(|b| *b == wanted)
}

// A label from `(` to the next `)`, and what follows it.
fn enclosed<'a>(s: &'a [u8]) -> Option<(&'a [u8], &'a [u8])>
    ensures { Parted s.now (paren_len s.now) result }
{
    let end = find(s, b')')?;
    Some(s.split_at(end + 1))
}

// A label of one word with no parenthesis, and what follows it.
fn bare<'a>(s: &'a [u8]) -> Option<(&'a [u8], &'a [u8])>
    requires { trim s.now ≡ s.now }
    ensures { Parted s.now (plain_len s.now) result }
{
    let (first, rest) = word(s);
    if first.is_empty() || first.contains(&b'(') || first.contains(&b')') {
        return None;
    }
    Some((first, rest))
}

// The label in front, and what follows it.
fn label<'a>(s: &'a [u8]) -> Option<(&'a [u8], &'a [u8])>
    requires { trim s.now ≡ s.now }
    ensures { Parted s.now (label_len s.now) result }
{
    match s {
        [b'(', ..] => enclosed(s),
        _ => bare(s),
    }
}

// The ordinal after a label: a blank, a number, and nothing more.
fn ordinal(rest: &[u8]) -> Option<u32>
    ensures { result ≡ ordinal_at rest.now }
{
    let [b' ', ..] = rest else {
        return None;
    };
    let (first, more) = word(rest);
    if !is_blank(more) {
        return None;
    }
    number(first)
}

fn page_value<'a>(value: &'a [u8]) -> Option<Heading<'a>>
    ensures { page_view result ≡ paged (label_of value.now) (ordinal_of value.now) }
{
    let (label, rest) = label(trimmed(value))?;
    let ordinal = ordinal(rest)?;
    Some(Heading { label, ordinal })
}

fn keyword<'a>(rest: &'a [u8]) -> Comment<'a>
    ensures { view result ≡ keyword_of rest.now }
{
    if rest == b"EndComments".as_slice() {
        return Comment::EndComments;
    }
    if rest == b"Trailer".as_slice() {
        return Comment::Trailer;
    }
    if let Some(value) = after(rest, b"Pages:") {
        return Comment::Pages(pages_value(value));
    }
    if let Some(value) = after(rest, b"BoundingBox:") {
        return Comment::BoundingBox(box_value(value));
    }
    if let Some(value) = after(rest, b"Page:") {
        return Comment::Page(page_value(value));
    }
    Comment::Other
}

/// The kind of a line, by its text.
pub(crate) fn kind_of<'a>(text: &'a [u8]) -> Comment<'a>
    ensures { view result ≡ kind text.now }
{
    marked(text).map_or(Comment::Other, |rest| keyword(rest))
}
