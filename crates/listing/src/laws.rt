ghost use Rattle.listing.specs.Shapes.{ListingsAreTheirPages};

/// A listing is its pages with a form feed between each two, and a page its lines with a line feed between each two:
/// no byte is lost, and every bound is kept.
pub fn listings_are_their_pages()
    ensures { ListingsAreTheirPages }
{}
