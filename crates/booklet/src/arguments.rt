//! The words of the command line.
use crate::calls::Carry;
use crate::chart::Chart;
use crate::failure::Failure;
use crate::help;
use crate::input::{Format, Input};
use crate::make::Make;
use crate::options::Options;
use crate::output::Target;
use crate::piles::Pile;
use crate::verb::Verb;
use fold::{Signature, Word};
use pages::limits::MAX_PAGES;
use pile::orders::Order;
use signature::imposition::Scheme;
use std::alloc::Global;

#[derive(Drop)]
pub enum Command {
    /// A text about the program itself.
    Help(&'static str),
    Fold { chart: Chart, signature: Signature },
    Check(Input),
    Pages(Pile),
    Make { pile: Pile, make: Make },
    Calls { pile: Pile, carry: Carry },
}

/// The signature that a scheme and a number of sheets name.
fn signature(heap: Global, scheme: &str, sheets: &str) -> Result<Signature, Failure> {
    let word = scheme
        .parse::<u32>()
        .ok()
        .and_then(Word::scheme)
        .try_ok_or_else(|| Ok(Failure::NoScheme(String::from_str(heap, scheme)?)))?;
    sheets
        .parse::<u32>()
        .ok()
        .and_then(|sheets| Signature::new(word, sheets))
        .try_ok_or_else(|| Ok(Failure::NoSheets(String::from_str(heap, sheets)?)))
}

/// The command of the words after `fold`.
fn fold(heap: Global, chart: Chart, names: &[String]) -> Result<Command, Failure> {
    let [scheme, sheets] = names else {
        return Err(Failure::TooFewWords(
            Verb::Fold,
            "a scheme (1 to 5) and a number of sheets (1 to 16)",
        ));
    };
    let signature = signature(heap, scheme.as_str(), sheets.as_str())?;
    Ok(Command::Fold { chart, signature })
}

/// The file that a command reads.
fn input(verb: Verb, format: Format, mut names: Vec<String>) -> Result<Input, Failure> {
    let name = names.pop().ok_or(Failure::TooFewWords(verb, "a file, or - for standard input"))?;
    Ok(Input { format, name })
}

/// The file with its layers.
fn layered(
    verb: Verb,
    format: Format,
    names: Vec<String>,
    orders: Vec<Order>,
) -> Result<Pile, Failure> {
    let input = input(verb, format, names)?;
    Ok(Pile { input, orders })
}

/// The file with its layers but the last, and the order of that one, which has to be the Signature layer.
fn imposed(
    verb: Verb,
    format: Format,
    names: Vec<String>,
    orders: Vec<Order>,
) -> Result<(Pile, Scheme), Failure> {
    let mut pile = layered(verb, format, names, orders)?;
    match pile.orders.pop() {
        Some(Order::Impose(scheme)) => Ok((pile, scheme)),
        _ => Err(Failure::NoSignature(verb)),
    }
}

/// The command with its options.
fn with_options(heap: Global, verb: Verb, options: Options) -> Result<Command, Failure> {
    let Options {
        names,
        chart,
        format,
        orders,
        output,
        plan,
        calls,
        plan_room,
    } = options;
    match verb {
        Verb::Fold => fold(heap, chart, names.as_slice()),
        Verb::Check => Ok(Command::Check(input(verb, format, names)?)),
        Verb::Pages => Ok(Command::Pages(layered(verb, format, names, orders)?)),
        Verb::Make => {
            let (pile, order) = imposed(verb, format, names, orders)?;
            let book = output.unwrap_or(Target::StandardOutput);
            let make = Make { order, book, plan };
            Ok(Command::Make { pile, make })
        }
        Verb::Calls => {
            let (pile, order) = imposed(verb, format, names, orders)?;
            let file = calls.ok_or(Failure::TooFewWords(
                verb,
                "--calls and a file with a call on each line",
            ))?;
            let carry = Carry {
                file,
                order,
                records: plan_room.unwrap_or(MAX_PAGES as usize),
                texts: output,
                plan,
            };
            Ok(Command::Calls { pile, carry })
        }
    }
}

/// The command that the words of the command line name, the program's own name first.
pub fn read(heap: Global, words: &[String]) -> Result<Command, Failure> {
    let [_, word, rest @ ..] = words else {
        return Err(Failure::NoCommand);
    };
    let verb = match word.as_str() {
        "-h" | "--help" | "help" => return Ok(Command::Help(help::PROGRAM)),
        "-V" | "--version" => return Ok(Command::Help(help::VERSION)),
        other => other.parse::<Verb>().try_map_err(|_| Ok(Failure::UnknownCommand(String::from_str(
            heap, other,
        )?)))?,
    };
    match Options::read(heap, verb, rest)? {
        Some(options) => with_options(heap, verb, options),
        None => Ok(Command::Help(help::of(verb))),
    }
}
