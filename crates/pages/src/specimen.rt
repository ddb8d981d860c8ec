//! The smallest source that shows something.

ghost use Rattle.std.specs.Prelude.{◌≡◌, ◌<◌, ◌≤◌, ◌==◌, [], refl, length, MatchResult};
ghost use Rattle.std.proofs.Common.{lit≤};
ghost use Rattle.std.proofs.lemmas.Bool.{cond_both};
ghost use Rattle.pages.specs.Inks.{Ink};
ghost use Rattle.pages.specs.Limits.{max_ink};
ghost use Rattle.pages.specs.Meaning.{fault};
ghost use Rattle.pages.specs.declared.faults.Refusal.TheVariants.{NoSuch};
ghost use Rattle.pages.specs.Specimen.{frame, ink_of, specimen};

use crate::faults::{Fault, Refusal};
use crate::leaf_pages;
use crate::maps::{Placement, Size};
use crate::sources::{Source, write};

/// One letter page with a frame along its edges: one leaf, placed once as it is, and an empty preamble.
#[derive(Clone, Copy)]
pub struct Specimen;

// The ink of a leaf; the preamble's is empty.
fn ink(leaf: u32) -> Result<&'static [u8], Fault>
    ensures { MatchResult result (λ ink. (leaf ≤ 1) × (ink.now ≡ ink_of leaf)) (λ e. (1 < leaf) × (e ≡ fault NoSuch 1 leaf)) }
{
    match leaf {
        0 => Ok(&[]),
        1 => Ok(b"0 0 612 792 rectstroke\n"),
        _ => Err(Fault::new(Refusal::NoSuch, 1, leaf)),
    }
}

impl Source for Specimen {
    ghost meaning = { λ _. specimen };

    ghost lawful = { λ s.
        record {
          wide = (lit≤ tt, lit≤ tt);
          high = (lit≤ tt, lit≤ tt);
          leafy = lit≤ tt;
          paged = lit≤ tt;
          deep = (lit≤ tt, lit≤ tt);
          inked = λ leaf h. cond_both (leaf == 0) [] frame (λ i. length i ≤ max_ink) (λ _. lit≤ tt) (λ _. lit≤ tt);
          formed = λ leaf h. cond_both (leaf == 0) [] frame Ink (λ _. record { closed = refl; quiet = tt }) (λ _. record { closed = refl; quiet = (refl, tt) });
          laid = λ p l h. lit≤ tt;
          placed = λ p l h. refl;
        } };

    fn size(&self) -> Size {
        Size::LETTER
    }

    fn leaves(&self) -> u32 {
        1
    }

    fn pages(&self) -> u32 {
        1
    }

    fn depth(&self) -> u8 {
        1
    }

    fn laid(&self, page: u32) -> Result<u32, Fault> {
        leaf_pages::laid(1, page)
    }

    fn place(&self, page: u32, slot: u32) -> Result<Placement, Fault> {
        leaf_pages::place(1, page, slot)
    }

    fn length(&self, leaf: u32) -> Result<u32, Fault> {
        Ok(ink(leaf)?.len() as u32)
    }

    fn pour(&self, leaf: u32, buffer: &mut [u8], at: usize) -> Result<usize, Fault> {
        write(ink(leaf)?, buffer, at)
    }
}
