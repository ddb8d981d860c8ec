//! `booklet check`: what a file holds, or where and why it is refused.
use crate::failure::Failure;
use crate::input::{Reader, Reading};
use pages::spans::Span;
use std::io;
use std::io::Write;

/// `leaf I offset O length L`, and the label where there is one.
fn print_leaf<R: Reader>(rt: &HostRuntime, reader: &R, index: &[u32], leaf: u32) -> io::Result<()> {
    let Some(Span { offset, length }) = Span::at(index, leaf as usize) else {
        return Ok(());
    };
    print!(rt; "leaf {leaf} offset {offset} length {length}")?;
    if let Some(label) = reader.label_of(leaf) {
        print!(rt; " label ")?;
        rt.stdout().write_all(label)?;
    }
    println!(rt; "")
}

/// Prints the size of the pages and the leaves.
#[derive(Drop)]
pub struct Check;

impl Reading for Check {
    fn perform<R: Reader>(
        &self,
        rt: &HostRuntime,
        reader: R,
        index: &[u32],
    ) -> Result<(), Failure> {
        let (size, leaves) = (reader.size(), reader.leaves());
        println!(rt; "size {size}")?;
        println!(rt; "leaves {leaves}")?;
        for leaf in 0..=leaves {
            print_leaf(rt, &reader, index, leaf)?;
        }
        Ok(())
    }
}
