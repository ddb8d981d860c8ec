ghost use Rattle.std.specs.Prelude.{◌≡◌};

use text::before;

/// The parts of bytes between separators; an empty last part is none.
#[derive(Drop)]
pub struct Parts<'a> {
    pub(crate) rest: &'a [u8],
    pub(crate) separator: u8,
}

impl<'a> Parts<'a> {
    pub(crate) fn new(bytes: &'a [u8], separator: u8) -> Parts<'a>
        ensures bytes { result.rest.now ≡ bytes.now }
        ensures separator { result.separator ≡ separator }
    {
        Parts {
            rest: bytes,
            separator,
        }
    }
}

impl<'a> Iterator for Parts<'a> {
    ghost use Rattle.std.specs.Iterator.{YieldsFirstRef, item_count};
    ghost use Rattle.listing.specs.Pages.{cut};

    type Item = &'a [u8];

    ghost next_gives = { YieldsFirstRef (λ s. cut s.separator s.rest.now) };

    ghost remaining = { item_count (λ s. cut s.separator s.rest.now) };

    fn next(&mut self) -> Option<&'a [u8]> {
        if self.rest.is_empty() {
            return None;
        }
        let end = before(self.rest, self.separator);
        let part = &self.rest[..end];
        self.rest = self.rest.get(end + 1..).unwrap_or(&[]);
        Some(part)
    }
}
