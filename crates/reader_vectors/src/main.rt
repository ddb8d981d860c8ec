//! Scans and loads each file named on the command line, and prints what it holds or why it is refused; the file `stdout`
//! has what others worked out. The words `--dsc` and `--listing` say how the files after them are read.
#![tactic(auto)]

use dsc::Dsc;
use listing::Listing;
use pages::faults::Fault;
use pages::limits::INDEX_NUMBERS;
use pages::sources::Source;
use std::{env, fs, io};

/// How a file is read.
#[derive(Clone, Copy)]
enum Format {
    Dsc,
    Listing,
}

fn print_fault(rt: &HostRuntime, name: &str, fault: Fault) -> io::Result<()> {
    let Fault {
        kind,
        layer,
        page,
        offset,
    } = fault;
    let number = u8::from(kind);
    println!(rt; "{name} refused {number} {layer} {page} {offset}")
}

/// The index, unless it is too long to look at.
fn print_index(rt: &HostRuntime, index: &[u32], leaves: u32) -> io::Result<()> {
    if leaves > 64 {
        return Ok(());
    }
    print!(rt; "  index")?;
    for n in index.iter().take(2 * leaves as usize + 2) {
        print!(rt; " {n}")?;
    }
    println!(rt; "")
}

fn print_size<S: Source>(rt: &HostRuntime, source: &S) -> io::Result<()> {
    let size = source.size();
    println!(rt; "  size {size}")
}

fn print_label(rt: &HostRuntime, label: &[u8]) -> io::Result<()> {
    print!(rt; "  label ")?;
    for b in label {
        let c = *b as char;
        print!(rt; "{c}")?;
    }
    println!(rt; "")
}

fn print_labels(rt: &HostRuntime, reader: &Dsc<'_>) -> io::Result<()> {
    for leaf in 1..=reader.leaves() {
        match reader.label(leaf) {
            Ok(label) => print_label(rt, label)?,
            Err(fault) => print_fault(rt, "label", fault)?,
        }
    }
    Ok(())
}

/// What loading a file answered and its index, and then what more its reader tells.
fn print_loaded<F: FnOnce() -> io::Result<()>>(
    rt: &HostRuntime,
    name: &str,
    index: &[u32],
    loaded: Result<u32, Fault>,
    print_more: F,
) -> io::Result<()>
    requires { F.IsAlwaysCallable print_more }
{
    match loaded {
        Ok(leaves) => {
            println!(rt; "{name} ok {leaves}")?;
            print_index(rt, index, leaves)?;
            print_more()
        }
        Err(fault) => print_fault(rt, name, fault),
    }
}

fn print_reader(
    rt: &HostRuntime,
    name: &str,
    file: &[u8],
    index: &[u32],
    format: Format,
) -> io::Result<()> {
    match format {
        Format::Dsc => {
            let mut reader = Dsc::empty();
            let loaded = reader.load(file, index);
            print_loaded(rt, name, index, loaded, || {
                print_size(rt, &reader)?;
                print_labels(rt, &reader)
            })
        }
        Format::Listing => {
            let mut reader = Listing::empty();
            let loaded = reader.load(file, index);
            print_loaded(rt, name, index, loaded, || Ok(()))
        }
    }
}

fn try_file(rt: &HostRuntime, name: &str, format: Format) -> io::Result<()> {
    let file = fs::read(rt, name)?;
    let mut index = vec![in rt.alloc(); 0u32; INDEX_NUMBERS]?;
    let scanned = match format {
        Format::Dsc => dsc::scan(&file, &mut index),
        Format::Listing => listing::scan(&file, &mut index),
    };
    match scanned {
        Ok(_) => print_reader(rt, name, &file, &index, format),
        Err(fault) => print_fault(rt, name, fault),
    }
}

fn main(rt: HostRuntime) -> io::Result<()> {
    let mut format = Format::Dsc;
    for word in env::args(&rt)?.skip(1) {
        match word.as_str() {
            "--dsc" => format = Format::Dsc,
            "--listing" => format = Format::Listing,
            name => try_file(&rt, name, format)?,
        }
    }
    Ok(())
}
