//! Prints the plans of all five schemes at 1, 2, 3 and 16 sheets; the file `stdout` holds them as worked out by others.
#![tactic(auto)]

use charts::print_plan;
use fold::{Signature, Word};
use std::io;

fn main(rt: HostRuntime) -> io::Result<()> {
    for scheme in 1..=5 {
        for sheets in [1, 2, 3, 16] {
            if let Some(word) = Word::scheme(scheme)
                && let Some(signature) = Signature::new(word, sheets)
            {
                println!(rt; "scheme {scheme} sheets {sheets}")?;
                print_plan(&rt, &signature)?;
            }
        }
    }
    Ok(())
}
