//! A job prints.

ghost use Rattle.fold.specs.Signatures.{letters_of};
ghost use Rattle.job.specs.Books.{book_in, per_under, records_under};
ghost use Rattle.plan.proofs.Plans.{length-records};
ghost use Rattle.runs.specs.Jobs.{edition};
ghost use Rattle.std.specs.Prelude.{◌≡◌, length, Some, None, refl};
ghost use Rattle.std.proofs.Common.{◌∙◌, ap};

use crate::printer::Printer;
use fold::Cell;
use job::Job;
use pages::faults::Fault;
use pages::maps::{Placement, Size};
use pages::sources::Source;
use plan::record::Record;

impl<S: Source> Printer for Job<S> {
    ghost edition = { λ j. edition (book_in S.meaning j.layer) };

    ghost printed = { λ j. j.printed };

    ghost stays = { λ a b. b.layer ≡ a.layer };

    ghost reflexive = { λ a. refl };

    ghost transitive = { λ a b c p q. q ∙ p };

    ghost constant = { λ a b p. ap (λ z. edition (book_in S.meaning z)) p };

    ghost even = { λ s p. elim s.layer.rule.signature as (λ o. length (records_under o p) ≡ per_under o) [ None ↦ refl | Some g ↦ length-records (letters_of g) g.sheets p ] };

    fn print(&mut self, buffer: &mut [u8], plan: &mut [Record]) -> Result<usize, Fault> {
        Job::print(self, buffer, plan)
    }

    fn pull_back(&mut self, side: u32) -> Result<(), Fault> {
        Job::pull_back(self, side)
    }

    fn opening(&self, buffer: &mut [u8]) -> Result<usize, Fault> {
        Job::opening(self, buffer)
    }

    fn ending(&self, buffer: &mut [u8]) -> Result<usize, Fault> {
        Job::ending(self, buffer)
    }

    fn how_far(&self) -> u32 {
        Job::how_far(self)
    }

    fn cell(&self, side: u32, row: u32, column: u32) -> Result<Cell, Fault> {
        Job::cell(self, side, row, column)
    }

    fn size(&self) -> Size {
        Job::size(self)
    }

    fn leaves(&self) -> u32 {
        Job::leaves(self)
    }

    fn pages(&self) -> u32 {
        Job::pages(self)
    }

    fn depth(&self) -> u8 {
        Job::depth(self)
    }

    fn laid(&self, page: u32) -> Result<u32, Fault> {
        Job::laid(self, page)
    }

    fn place(&self, page: u32, slot: u32) -> Result<Placement, Fault> {
        Job::place(self, page, slot)
    }

    fn length(&self, leaf: u32) -> Result<u32, Fault> {
        Job::length(self, leaf)
    }

    fn pour(&self, leaf: u32, buffer: &mut [u8], at: usize) -> Result<usize, Fault> {
        Job::pour(self, leaf, buffer, at)
    }
}
