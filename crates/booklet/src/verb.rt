//! The commands that take options.
use std::fmt;
use std::str::FromStr;

#[derive(Clone, Copy, PartialEq, Eq, Debug)]
pub enum Verb {
    Fold,
    Check,
    Pages,
    Make,
    Calls,
}

impl Verb {
    /// Whether the command puts layers on its file.
    pub fn has_layers(self) -> bool {
        matches!(self, Verb::Pages | Verb::Make | Verb::Calls)
    }

    /// Whether the command prints a book.
    pub fn prints(self) -> bool {
        matches!(self, Verb::Make | Verb::Calls)
    }

    /// How many words that are no options the command takes.
    pub fn most_names(self) -> usize {
        match self {
            Verb::Fold => 2, // a scheme and a number of sheets
            _ => 1, // a file
        }
    }
}

/// A word that is no command.
#[derive(Debug, Drop)]
pub struct UnknownVerb;

impl FromStr for Verb {
    type Err = UnknownVerb;

    fn from_str(word: &str) -> Result<Verb, UnknownVerb> {
        match word {
            "fold" => Ok(Verb::Fold),
            "check" => Ok(Verb::Check),
            "pages" => Ok(Verb::Pages),
            "make" => Ok(Verb::Make),
            "calls" => Ok(Verb::Calls),
            _ => Err(UnknownVerb),
        }
    }
}

/// The word of the command line.
impl fmt::Display for Verb {
    fn fmt<W: fmt::Write>(&self, f: &mut fmt::Formatter<W>) -> fmt::Result {
        f.write_str(match self {
            Verb::Fold => "fold",
            Verb::Check => "check",
            Verb::Pages => "pages",
            Verb::Make => "make",
            Verb::Calls => "calls",
        })
    }
}
