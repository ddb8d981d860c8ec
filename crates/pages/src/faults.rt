//! What every refusal of the product carries.

ghost use Rattle.std.specs.Prelude.{◌≡◌, Some};
ghost use Rattle.pages.specs.Meaning.{fault};
ghost use Rattle.pages.specs.Faults.{number, name, fault_text, Numbered};

use std::fmt;

/// The kinds of refusal.
#[derive(Clone, Copy, Debug, PartialEq, Eq)]
pub enum Refusal {
    /// The file does not begin with the DSC mark.
    NotDsc,
    /// A comment stands where it may not.
    OutOfOrder,
    /// A value of a comment cannot be read or is outside its range.
    BadComment,
    /// A wrong page ordinal, or fewer pages than the head says.
    Miscount,
    /// The file has no trailer.
    Unfinished,
    /// A byte that a listing may not hold.
    BadByte,
    /// A file or a line of a listing is too long.
    TooLong,
    /// Too many pages, or too many ranges.
    TooMany,
    /// A page, slot, leaf, side or position that there is not.
    NoSuch,
    /// A number outside the range that an order allows.
    BadOrder,
    /// A division that must come out whole does not.
    Uneven,
    /// A page size past the greatest.
    TooLarge,
    /// Too many placements on one page.
    Crowded,
    /// A map outside its bounds.
    TooFar,
    /// A text, an ink or an index does not fit.
    ShortBuffer,
    /// An index that is not that of the file.
    WrongIndex,
    /// The last side is printed.
    Finished,
    /// The plan has too few records.
    ShortPlan,
}

/// One refusal: its kind, the depth of the layer that refuses, and the page and byte that it concerns, 0 where
/// there is none: every refusal has four numbers.
#[derive(Clone, Copy, PartialEq, Eq, Debug)]
pub struct Fault {
    pub kind: Refusal,
    pub layer: u8,
    pub page: u32,
    pub offset: u32,
}

/// The number by which users know the kind, 1 to 18.
impl From<Refusal> for u8 {
    ghost from_gives = { λ kind n. n ≡ number kind };

    fn from(kind: Refusal) -> u8 {
        match kind {
            Refusal::NotDsc => 1,
            Refusal::OutOfOrder => 2,
            Refusal::BadComment => 3,
            Refusal::Miscount => 4,
            Refusal::Unfinished => 5,
            Refusal::BadByte => 6,
            Refusal::TooLong => 7,
            Refusal::TooMany => 8,
            Refusal::NoSuch => 9,
            Refusal::BadOrder => 10,
            Refusal::Uneven => 11,
            Refusal::TooLarge => 12,
            Refusal::Crowded => 13,
            Refusal::TooFar => 14,
            Refusal::ShortBuffer => 15,
            Refusal::WrongIndex => 16,
            Refusal::Finished => 17,
            Refusal::ShortPlan => 18,
        }
    }
}

impl Refusal {
    /// The name by which users know the kind.
    pub fn name(self) -> &'static str
        ensures { result.now ≡ name self }
    {
        match self {
            Refusal::NotDsc => "NOT DSC",
            Refusal::OutOfOrder => "OUT OF ORDER",
            Refusal::BadComment => "BAD COMMENT",
            Refusal::Miscount => "MISCOUNT",
            Refusal::Unfinished => "UNFINISHED",
            Refusal::BadByte => "BAD BYTE",
            Refusal::TooLong => "TOO LONG",
            Refusal::TooMany => "TOO MANY",
            Refusal::NoSuch => "NO SUCH",
            Refusal::BadOrder => "BAD ORDER",
            Refusal::Uneven => "UNEVEN",
            Refusal::TooLarge => "TOO LARGE",
            Refusal::Crowded => "CROWDED",
            Refusal::TooFar => "TOO FAR",
            Refusal::ShortBuffer => "SHORT BUFFER",
            Refusal::WrongIndex => "WRONG INDEX",
            Refusal::Finished => "FINISHED",
            Refusal::ShortPlan => "SHORT PLAN",
        }
    }
}

/// The name.
impl fmt::Display for Refusal {
    ghost output = { λ kind. Some (name kind) };

    fn fmt<W: fmt::Write>(&self, f: &mut fmt::Formatter<W>) -> fmt::Result {
        f.write_str(self.name())
    }
}

impl Fault {
    /// A fault that concerns no byte: its offset is 0.
    pub fn new(kind: Refusal, layer: u8, page: u32) -> Fault
        ensures { result ≡ fault kind layer page }
    {
        Fault {
            kind,
            layer,
            page,
            offset: 0,
        }
    }
}

/// `NUMBER NAME layer L page P offset O`.
impl fmt::Display for Fault {
    ghost output = { λ f. Some (fault_text f) };

    fn fmt<W: fmt::Write>(&self, f: &mut fmt::Formatter<W>) -> fmt::Result {
        let Fault {
            kind,
            layer,
            page,
            offset,
        } = *self;
        let number = u8::from(kind);
        write!(
            f,
            "{number} {kind} layer {layer} page {page} offset {offset}"
        )
    }
}

/// The numbers are 1 to 18, each of one kind.
pub fn refusals_numbered()
    ensures { Numbered }
{}
