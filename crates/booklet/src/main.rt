//! The program: arguments, files, messages and output. What matters is in the libraries.
#![tactic(auto)]

mod answers;
mod arguments;
mod call_lines;
mod calls;
mod chart;
mod check;
mod failure;
mod files;
mod help;
mod input;
mod make;
mod options;
mod output;
mod piles;
mod show;
mod values;
mod verb;
mod words;

use arguments::Command;
use check::Check;
use failure::Failure;
use show::Show;
use std::env;
use std::process::ExitCode;

fn carry_out(rt: &HostRuntime, command: Command) -> Result<(), Failure> {
    match command {
        Command::Help(text) => rt.print(text)?,
        Command::Fold { chart, signature } => chart.print(rt, &signature)?,
        Command::Check(input) => input.read(rt, &Check)?,
        Command::Pages(pile) => pile.perform(rt, &Show)?,
        Command::Make { pile, make } => pile.perform(rt, &make)?,
        Command::Calls { pile, carry } => carry.perform(rt, &pile)?,
    }
    Ok(())
}

fn run(rt: &HostRuntime) -> Result<(), Failure> {
    let heap = rt.alloc();
    let words: Vec<String> = env::args(rt)?.collect(heap)?;
    carry_out(rt, arguments::read(heap, words.as_slice())?)
}

/// Every failure is one line on standard error and status 1.
fn main(rt: HostRuntime) -> ExitCode {
    let Err(failure) = run(&rt) else {
        return ExitCode::SUCCESS;
    };
    // where standard error cannot be written either, the status alone tells
    let _told = eprintln!(rt; "booklet: {failure}").is_ok();
    ExitCode::FAILURE
}
