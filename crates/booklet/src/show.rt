//! `booklet pages`: what a source shows, as lines.
use crate::failure::Failure;
use crate::piles::Task;
use layers::placements::Placements;
use pages::maps::Placement;
use pages::sources::Source;
use std::io;

/// How many placements a page shows; none where there is no such page.
pub fn shown<S: Source>(source: &S, page: u32) -> u32 {
    source.laid(page).unwrap_or(0)
}

fn print_page<S: Source>(rt: &HostRuntime, source: &S, page: u32) -> io::Result<()> {
    // The count is asked first, which under many layers costs less than a placement.
    let count = shown(source, page) as usize;
    if count == 0 {
        return println!(rt; "page {page} blank");
    }
    for (before, Placement { leaf, map }) in Placements::of(source, page).take(count).enumerate() {
        let slot = before + 1;
        println!(rt; "page {page} slot {slot} leaf {leaf} map {map}")?;
    }
    Ok(())
}

/// Prints the size, the number of pages, the depth, and every placement of every page.
#[derive(Drop)]
pub struct Show;

impl Task for Show {
    fn perform<S: Source + Drop>(&self, rt: &HostRuntime, source: S) -> Result<(), Failure> {
        let (size, pages, depth) = (source.size(), source.pages(), source.depth());
        println!(rt; "size {size}")?;
        println!(rt; "pages {pages}")?;
        println!(rt; "depth {depth}")?;
        for page in 1..=pages {
            print_page(rt, &source, page)?;
        }
        Ok(())
    }
}
