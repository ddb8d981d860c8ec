//! The words after a command, each option together with the words that are its value.
ghost use Rattle.std.specs.Prelude.{length};
ghost use Rattle.std.specs.Iterator.{at_most};

use crate::failure::Failure;
use crate::verb::Verb;
use std::alloc::Global;
use std::str::FromStr;

/// The kinds of option.
#[derive(Clone, Copy, PartialEq, Eq)]
pub enum Kind {
    Listing,
    /// `--plan` of fold, which has no value.
    PlanLines,
    Select,
    Pad,
    Turn,
    Reduce,
    Signature,
    Output,
    Plan,
    Calls,
    PlanRoom,
}

impl Kind {
    /// The option of a command that a word names.
    fn named(text: &str, verb: Verb) -> Option<Kind> {
        let kind = match text {
            "--listing" => Kind::Listing,
            "--select" => Kind::Select,
            "--pad" => Kind::Pad,
            "--turn" => Kind::Turn,
            "--reduce" => Kind::Reduce,
            "--signature" => Kind::Signature,
            "-o" | "--output" => Kind::Output,
            "--plan" if verb == Verb::Fold => Kind::PlanLines,
            "--plan" => Kind::Plan,
            "--calls" => Kind::Calls,
            "--plan-room" => Kind::PlanRoom,
            _ => return None,
        };
        kind.is_of(verb).then_some(kind)
    }

    /// Whether it is an option of a command.
    fn is_of(self, verb: Verb) -> bool {
        match self {
            Kind::PlanLines => verb == Verb::Fold,
            Kind::Listing => verb != Verb::Fold,
            Kind::Output | Kind::Plan => verb.prints(),
            Kind::Calls | Kind::PlanRoom => verb == Verb::Calls,
            _ => verb.has_layers(),
        }
    }

    /// How many words its value has.
    fn values(self) -> usize {
        match self {
            Kind::Listing | Kind::PlanLines => 0,
            Kind::Signature => 2,
            _ => 1,
        }
    }

    /// What its value should be, as a message says it.
    fn wanted(self) -> &'static str {
        match self {
            Kind::Select | Kind::Pad | Kind::Turn | Kind::Reduce | Kind::Signature => {
                "are --select A-B, --pad M, --turn Q, --reduce N/D, --signature SCHEME SHEETS with whole numbers"
            }
            Kind::PlanRoom => "is --plan-room R, a number of records",
            _ => "is the name of a file, or -",
        }
    }
}

/// An option as it is given.
#[derive(Clone, Copy)]
pub struct Setting<'a> {
    pub kind: Kind,
    name: &'a str,
    values: &'a [String],
}

impl<'a> Setting<'a> {
    /// A word of its value; None past the last word of all.
    pub fn word(&self, index: usize) -> Option<&'a str> {
        self.values.get(index).map(|word| word.as_str())
    }

    /// The failure of a value that cannot be read, or that there is no memory to tell it.
    pub fn unreadable(&self, heap: Global) -> Result<Failure, Failure> {
        Ok(Failure::BadValue {
            option: String::from_str(heap, self.name)?,
            value: String::from_str(heap, self.word(0).unwrap_or(""))?,
            wanted: self.kind.wanted(),
        })
    }

    /// What a word of its value says.
    pub fn value<T: FromStr>(&self, heap: Global, index: usize) -> Result<T, Failure>
    where
        T::Err: Drop,
    {
        self.word(index)
            .and_then(|word| word.parse::<T>().ok())
            .try_ok_or_else(|| self.unreadable(heap))
    }

    /// The name of a file that is its value.
    pub fn file(&self, heap: Global) -> Result<String, Failure> {
        let name = self
            .word(0)
            .filter(|name| !name.is_empty())
            .try_ok_or_else(|| self.unreadable(heap))?;
        Ok(String::from_str(heap, name)?)
    }
}

/// A word of the command line, with the words that belong to it.
pub enum Given<'a> {
    Help,
    Option(Setting<'a>),
    /// A word like an option that the command does not have.
    Unknown(&'a str),
    /// A word that is no option.
    Name(&'a str),
}

/// The words after a command.
#[derive(Drop)]
pub struct Words<'a> {
    pub verb: Verb,
    pub rest: &'a [String],
}

impl<'a> Words<'a> {
    /// Whether a word is written as options are; - is standard input to a command with a file.
    fn is_option(&self, word: &str) -> bool {
        word.starts_with('-') && (word != "-" || self.verb == Verb::Fold)
    }

    /// What a word is that is no option of the command.
    fn without_value(&self, word: &'a str) -> Given<'a> {
        match word {
            "-h" | "--help" => Given::Help,
            _ if self.is_option(word) => Given::Unknown(word),
            _ => Given::Name(word),
        }
    }
}

impl<'a> Iterator for Words<'a> {
    type Item = Given<'a>;

    ghost remaining = { λ s. at_most (length s.rest.now) };

    fn next(&mut self) -> Option<Given<'a>> {
        let (first, rest) = self.rest.split_first()?;
        let name = first.as_str();
        let Some(kind) = Kind::named(name, self.verb) else {
            self.rest = rest;
            return Some(self.without_value(name));
        };
        let (values, rest) = rest.split_at(kind.values().min(rest.len()));
        self.rest = rest;
        Some(Given::Option(Setting { kind, name, values }))
    }
}
