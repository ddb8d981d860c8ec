//! Calls as they are written in a file, one on each line.
use crate::failure::Failure;
use runs::calls::Call;
use std::alloc::Global;
use std::str::{FromStr, SplitWhitespace};

/// The next word of a line, as a number.
fn number<T: FromStr>(words: &mut SplitWhitespace<'_>) -> Option<T>
where
    T::Err: Drop,
{
    words.next()?.parse::<T>().ok()
}

/// The call of a line, its name and its numbers.
fn one_call(line: &str) -> Option<Call> {
    let mut words = line.split_whitespace();
    let name = words.next()?;
    let call = numbered(name, &mut words)?;
    words.next().is_none().then_some(call)
}

/// The call of a name, with the numbers after it.
fn numbered(name: &str, words: &mut SplitWhitespace<'_>) -> Option<Call> {
    Some(match name {
        "print" => Call::Print {
            room: number(words)?,
        },
        "pull-back" => Call::PullBack {
            side: number(words)?,
        },
        "opening" => Call::Opening {
            room: number(words)?,
        },
        "ending" => Call::Ending {
            room: number(words)?,
        },
        "how-far" => Call::HowFar,
        "cell" => Call::Cell {
            side: number(words)?,
            row: number(words)?,
            column: number(words)?,
        },
        "size" => Call::Size,
        "leaves" => Call::Leaves,
        "pages" => Call::Pages,
        "depth" => Call::Depth,
        "laid" => Call::Laid {
            page: number(words)?,
        },
        "place" => Call::Place {
            page: number(words)?,
            slot: number(words)?,
        },
        "length" => Call::Length {
            leaf: number(words)?,
        },
        "pour" => Call::Pour {
            leaf: number(words)?,
            at: number(words)?,
            room: number(words)?,
        },
        _ => return None,
    })
}

/// The calls of a text, one on each line; empty lines are passed over.
pub fn read_calls(heap: Global, text: &str) -> Result<Vec<Call>, Failure> {
    let mut calls = Vec::new(heap);
    for (above, line) in text.lines().enumerate() {
        if line.trim().is_empty() {
            continue;
        }
        let call = one_call(line).try_ok_or_else(|| {
            Ok(Failure::BadCall(above + 1, String::from_str(heap, line)?))
        })?;
        calls.push(call)?;
    }
    Ok(calls)
}
