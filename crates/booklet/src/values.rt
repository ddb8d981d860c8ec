//! Values of options that are more than one number.
use layers::ranges::Range;
use layers::reduce::Ratio;
use std::num::ParseIntError;
use std::str::FromStr;

/// A value that cannot be read.
#[derive(Debug, Drop)]
pub struct Unreadable;

impl From<ParseIntError> for Unreadable {
    fn from(_error: ParseIntError) -> Unreadable {
        Unreadable
    }
}

/// Two numbers around a separator.
fn two_numbers(text: &str, separator: char) -> Result<(u32, u32), Unreadable> {
    let (first, second) = text.split_once(separator).ok_or(Unreadable)?;
    Ok((first.parse::<u32>()?, second.parse::<u32>()?))
}

/// A range of pages: `A-B`, or `A` alone.
#[derive(Clone, Copy)]
pub struct Pages(pub Range);

impl FromStr for Pages {
    type Err = Unreadable;

    fn from_str(text: &str) -> Result<Pages, Unreadable> {
        let (first, last) = match text.parse::<u32>() {
            Ok(page) => (page, page),
            Err(_) => two_numbers(text, '-')?,
        };
        Ok(Pages(Range { first, last }))
    }
}

/// A ratio: `N/D`.
#[derive(Clone, Copy)]
pub struct Fraction(pub Ratio);

impl FromStr for Fraction {
    type Err = Unreadable;

    fn from_str(text: &str) -> Result<Fraction, Unreadable> {
        let (num, den) = two_numbers(text, '/')?;
        Ok(Fraction(Ratio { num, den }))
    }
}
