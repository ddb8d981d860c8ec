//! What can go wrong, and what the program then says.
use crate::verb::Verb;
use pages::faults::Fault;
use runs::run::Stop;
use std::alloc::AllocError;
use std::io;
use thiserror::Error;

/// What a message about a missing command ends with.
const COMMANDS: &str = "commands are: fold, check, pages, make, calls (booklet --help tells more)";

#[derive(Debug, Drop, Error)]
pub enum Failure {
    #[error("no command given; {commands}", commands = COMMANDS)]
    NoCommand,
    #[error("no command {0:?}; {commands}", commands = COMMANDS)]
    UnknownCommand(String),
    #[error("{0}: no option {1:?} (booklet {0} --help lists them)")]
    UnknownOption(Verb, String),
    #[error("{0}: too few words; wanted are: {1}")]
    TooFewWords(Verb, &'static str),
    #[error("{0}: {1:?} is one word too many (booklet {0} --help tells more)")]
    TooManyWords(Verb, String),
    #[error("{option}: the value {value:?} cannot be read; wanted {wanted}")]
    BadValue {
        option: String,
        value: String,
        wanted: &'static str,
    },
    #[error("more than 8 layers; neighbouring --select words are one layer")]
    TooManyLayers,
    #[error("{0}: the last layer has to be --signature SCHEME SHEETS")]
    NoSignature(Verb),
    #[error("calls: line {0}, {1:?}, is no call (booklet calls --help lists them)")]
    BadCall(usize, String),
    #[error("fold: no scheme {0:?}; schemes are 1 (W), 2 (NW), 3 (WNW), 4 (WW), 5 (NWNW)")]
    NoScheme(String),
    #[error("fold: no signature of {0:?} sheets; allowed are 1 to 16")]
    NoSheets(String),
    #[error("cannot read {0}: {1}")]
    Unread(String, io::Error),
    #[error("cannot write {0}: {1}")]
    Unwritten(String, io::Error),
    #[error("{0} is not text")]
    NoText(String),
    #[error("refused {0}")]
    Refused(#[from] Fault),
    #[error(transparent)]
    Io(#[from] io::Error),
    #[error("out of memory")]
    OutOfMemory(#[from(alloc)] AllocError),
}

impl From<Stop> for Failure {
    fn from(stop: Stop) -> Failure {
        match stop {
            Stop::Refused(fault) => Failure::Refused(fault),
            Stop::NoMemory(error) => Failure::OutOfMemory(error),
        }
    }
}
