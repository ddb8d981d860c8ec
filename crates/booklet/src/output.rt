//! Where results go: a file, which is written beside its place and then moved there, or standard output.
use crate::failure::Failure;
use plan::record::Record;
use runs::calls::Answer;
use runs::log::Entry;
use std::io::{BufWriter, Write};
use std::{fs, io};

/// What can be written to a target.
pub trait Content {
    fn write<W: Write>(&self, out: &mut W) -> io::Result<()>;
}

/// The texts of the book that a log has, joined.
#[derive(Drop)]
pub struct Texts<'a>(pub &'a [Entry]);

impl<'a> Content for Texts<'a> {
    fn write<W: Write>(&self, out: &mut W) -> io::Result<()> {
        for entry in self.0.iter().filter(|entry| is_text(&entry.answer)) {
            out.write_all(entry.text.as_slice())?;
        }
        Ok(())
    }
}

/// Whether an entry of a log wrote a text of the book: an opening, a side or an ending.
fn is_text(answer: &Answer) -> bool {
    matches!(
        answer,
        Answer::Printed(_) | Answer::Opened(_) | Answer::Ended(_)
    )
}

/// The lines of a plan.
#[derive(Drop)]
pub struct Lines<'a>(pub &'a [Record]);

impl<'a> Content for Lines<'a> {
    fn write<W: Write>(&self, out: &mut W) -> io::Result<()> {
        for record in self.0 {
            writeln!(out, "{record}")?;
        }
        Ok(())
    }
}

#[derive(Drop)]
pub enum Target {
    StandardOutput,
    File(String),
}

impl Target {
    /// The target that a word of the command line names.
    pub fn named(word: String) -> Target {
        if word.as_str() == "-" {
            return Target::StandardOutput;
        }
        Target::File(word)
    }

    /// Writes the content; a file is moved to its place once all is written.
    pub fn write<C: Content>(&self, rt: &HostRuntime, content: &C) -> Result<(), Failure> {
        match self {
            Target::StandardOutput => {
                let out = BufWriter::new(rt.alloc(), rt.stdout())?;
                unwritten(rt, "standard output", put(out, content))
            }
            Target::File(name) => {
                let name = name.as_str();
                let beside = format!(in rt.alloc(); "{name}.part")?;
                unwritten(rt, name, create(rt, beside.as_str(), content))?;
                unwritten(rt, name, fs::rename(rt, beside.as_str(), name))
            }
        }
    }
}

/// Writes all of the content.
pub fn put<W: Write + Drop, C: Content>(mut out: BufWriter<W>, content: &C) -> io::Result<()> {
    content.write(&mut out)?;
    out.flush()
}

fn create<C: Content>(rt: &HostRuntime, name: &str, content: &C) -> io::Result<()> {
    put(BufWriter::new(rt.alloc(), fs::create(rt, name)?)?, content)
}

/// A write that failed, with the name of what could not be written.
fn unwritten(rt: &HostRuntime, name: &str, written: io::Result<()>) -> Result<(), Failure> {
    written.try_map_err(|error| Ok(Failure::Unwritten(String::from_str(rt.alloc(), name)?, error)))
}
