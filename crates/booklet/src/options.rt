//! The options of a command, as its words set them.
use crate::chart::Chart;
use crate::failure::Failure;
use crate::input::Format;
use crate::output::Target;
use crate::values::{Fraction, Pages};
use crate::verb::Verb;
use crate::words::{Given, Kind, Setting, Words};
use pile::orders::Order;
use signature::imposition::Scheme;
use std::alloc::Global;

#[derive(Drop)]
pub struct Options {
    /// The words that are no options.
    pub names: Vec<String>,
    pub chart: Chart,
    pub format: Format,
    pub orders: Vec<Order>,
    pub output: Option<Target>,
    pub plan: Option<Target>,
    /// The name of the file with the calls.
    pub calls: Option<String>,
    pub plan_room: Option<usize>,
}

impl Options {
    fn new(heap: Global) -> Options {
        Options {
            names: Vec::new(heap),
            chart: Chart::Sheets,
            format: Format::Dsc,
            orders: Vec::new(heap),
            output: None,
            plan: None,
            calls: None,
            plan_room: None,
        }
    }

    /// What the words after a command set; None where they ask for help.
    pub fn read(heap: Global, verb: Verb, words: &[String]) -> Result<Option<Options>, Failure> {
        let mut options = Options::new(heap);
        for given in (Words { verb, rest: words }) {
            match given {
                Given::Help => return Ok(None),
                Given::Option(setting) => options.set(heap, setting)?,
                Given::Unknown(word) => {
                    return Err(Failure::UnknownOption(verb, String::from_str(heap, word)?));
                }
                Given::Name(word) => options.name(verb, String::from_str(heap, word)?)?,
            }
        }
        Ok(Some(options))
    }

    /// Takes a word that is no option.
    fn name(&mut self, verb: Verb, word: String) -> Result<(), Failure> {
        if self.names.len() >= verb.most_names() {
            return Err(Failure::TooManyWords(verb, word));
        }
        self.names.push(word)?;
        Ok(())
    }

    /// Takes an option.
    fn set(&mut self, heap: Global, setting: Setting<'_>) -> Result<(), Failure> {
        match setting.kind {
            Kind::Listing => self.format = Format::Listing,
            Kind::PlanLines => self.chart = Chart::Lines,
            Kind::Select => self.select(heap, setting)?,
            Kind::Pad => self.orders.push(Order::Pad(setting.value(heap, 0)?))?,
            Kind::Turn => self.orders.push(Order::Turn(setting.value(heap, 0)?))?,
            Kind::Reduce => {
                let Fraction(ratio) = setting.value(heap, 0)?;
                self.orders.push(Order::Reduce(ratio))?;
            }
            Kind::Signature => self.orders.push(Order::Impose(Scheme {
                number: setting.value(heap, 0)?,
                sheets: setting.value(heap, 1)?,
            }))?,
            Kind::Output => self.output = Some(Target::named(setting.file(heap)?)),
            Kind::Plan => self.plan = Some(Target::named(setting.file(heap)?)),
            Kind::Calls => self.calls = Some(setting.file(heap)?),
            Kind::PlanRoom => self.plan_room = Some(setting.value(heap, 0)?),
        }
        Ok(())
    }

    /// Takes the ranges of `--select`, commas between them.
    fn select(&mut self, heap: Global, setting: Setting<'_>) -> Result<(), Failure> {
        let ranges = setting.word(0).try_ok_or_else(|| setting.unreadable(heap))?;
        for part in ranges.split(',') {
            let Pages(range) = part
                .parse::<Pages>()
                .try_map_err(|_| setting.unreadable(heap))?;
            self.orders.push(Order::Select(range))?;
        }
        Ok(())
    }
}
