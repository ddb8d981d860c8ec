ghost use Rattle.listing.specs.Pages.{cut};
ghost use Rattle.std.specs.Prelude.{◌≡◌, ◌≤◌, false, length, is_some};
ghost use Rattle.std.proofs.Props.{props};
ghost use Rattle.listing.specs.Meaning.{listed};
ghost use Rattle.listing.specs.Places.{form_feed, refusal, top};
ghost use Rattle.pages.specs.Props.{AllCalm-prop};
ghost use Rattle.listing.specs.Scans.{Indexed};
ghost use Rattle.pages.specs.Limits.{max_ink};
ghost use Rattle.pages.specs.Meaning.{Lawful};

pub mod loading;
pub mod source;

/// A reader of a listing, which holds the file and its index for reading and copies neither.
#[derive(Drop)]
pub struct Listing<'a> {
    pub(crate) file: &'a [u8],
    pub(crate) index: &'a [u32],
    pub(crate) leaves: u32,
    ghost short: { length file.now ≤ max_ink },
    ghost clean: { is_some (refusal top 0 file.now) ≡ false },
    ghost counted: { leaves ≡ length (cut form_feed file.now) },
    ghost indexed: { Indexed file.now index.now },
    ghost lawful: { Lawful (listed file.now) } by { Prim.hlevel (props, AllCalm-prop) },
}
