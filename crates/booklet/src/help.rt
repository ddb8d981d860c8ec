//! The texts that the program prints about itself.
use crate::verb::Verb;

/// The text about a command.
pub fn of(verb: Verb) -> &'static str {
    match verb {
        Verb::Fold => FOLD,
        Verb::Check => CHECK,
        Verb::Pages => PAGES,
        Verb::Make => MAKE,
        Verb::Calls => CALLS,
    }
}

pub const VERSION: &str = "booklet 0.1.0\n";

pub const PROGRAM: &str = "booklet: sheets that fold into signatures

usage: booklet COMMAND ...

commands:
  fold [--plan] SCHEME SHEETS   print the sheets of one signature
  check [--listing] FILE        tell what a file holds, or where and why it is refused
  pages [--listing] FILE [LAYER..]
                                show what the pages are under some layers
  make [--listing] FILE [LAYER..] --signature SCHEME SHEETS [-o OUT] [--plan PLAN]
                                print the whole book, and its plan
  calls [--listing] FILE [LAYER..] --signature SCHEME SHEETS --calls CALLS
                                carry out a list of calls, to reprint from a jam on

options:
  -h, --help       print this text; booklet COMMAND --help tells more of a command
  -V, --version    print the version
";

const FOLD: &str = "booklet fold: the sheets of one signature

usage: booklet fold [--plan] SCHEME SHEETS

  SCHEME    1 to 5, how a stack of sheets is folded:
            1 W, 2 NW, 3 WNW, 4 WW, 5 NWNW
            (W folds the left half over the right, N the upper half over the lower)
  SHEETS    1 to 16, how many sheets lie in the stack
  --plan    print a line for each position, seven numbers:
            signature, sheet, side, row, column, page, mark (0 upright, 1 head down)

example: booklet fold 2 1
";

const CHECK: &str = "booklet check: what a file holds, or where and why it is refused

usage: booklet check [--listing] FILE

  FILE         a PostScript file with document structuring comments; - is standard input
  --listing    FILE is a line-printer listing: lines of text, pages parted by form feeds

It prints the size of the pages, the number of leaves, and for each leaf its place in the
file; leaf 0 is the preamble, and each page of a PostScript file has its label:
  size W H
  leaves N
  leaf I offset O length L [label TEXT]
A refused file gets one line on standard error, and status 1:
  booklet: refused NUMBER NAME layer L page P offset O

example: booklet check book.ps
";

const PAGES: &str = "booklet pages: what the pages of a file are under some layers

usage: booklet pages [--listing] FILE [LAYER..]

  FILE         a PostScript file with document structuring comments; - is standard input
  --listing    FILE is a line-printer listing

Layers are put on in the order written, at most 8; neighbouring --select words are orders of
one layer:
  --select A-B               pages A to B, upward or downward; 0-0 is a blank page; A alone is
                             one page, and commas part several
  --pad M                    blank pages at the end until M divides their number (1 to 512)
  --turn Q                   every page turned by Q quarter turns (0 to 3)
  --reduce N/D               every page scaled by N over D (1 to 1000, N at most D)
  --signature SCHEME SHEETS  pages laid on the sides of sheets (see booklet fold --help)

It prints the size, the number of pages and the depth, and for each placement its page, its
slot on the page, its leaf and its map (quarter turns, numerator, denominator, vector):
  size W H
  pages P
  depth D
  page I slot J leaf L map Q N D VX VY
  page I blank
A refusal gets one line on standard error, and status 1:
  booklet: refused NUMBER NAME layer L page P offset O

example: booklet pages book.ps --select 1-8 --pad 8 --signature 2 1
";

const MAKE: &str = "booklet make: the whole book, opening, every side and ending

usage: booklet make [--listing] FILE [LAYER..] --signature SCHEME SHEETS [-o OUT] [--plan PLAN]

  FILE         a PostScript file with document structuring comments; - is standard input
  --listing    FILE is a line-printer listing
  LAYER..      --select, --pad, --turn, --reduce, --signature (see booklet pages --help), put
               on in the order written
  --signature SCHEME SHEETS
               the last layer: the fold scheme (1 to 5) and the sheets of a signature (1 to 16);
               its sides are printed
  -o OUT       where the book goes; - or nothing is standard output
  --plan PLAN  where the plan goes, a line of seven numbers for each position: signature, sheet,
               side, row, column, page, mark (0 upright, 1 head down); - is standard output

A file is written beside its place, as OUT.part, and then moved there. What was made is told on
standard error: pages, blanks among them, signatures, sheets, sides. A refusal gets one line
there, and status 1:
  booklet: refused NUMBER NAME layer L page P offset O

example: booklet make claims.ps --pad 8 --signature 2 1 -o book.ps --plan book.plan
";

const CALLS: &str = "booklet calls: a list of calls to a print job, carried out one after the other

usage: booklet calls [--listing] FILE [LAYER..] --signature SCHEME SHEETS --calls CALLS
                     [--plan-room R] [-o OUT] [--plan PLAN]

  CALLS          a file with a call on each line; - is standard input
  --plan-room R  how many records the plan list has; without it there is room for every book
  -o OUT         where the texts of accepted opening, print and ending calls go, joined
  --plan PLAN    where the plan of the sides that stand printed goes

The other words are those of booklet make. Calls, and the answer of each, one line:
  print ROOM          print the next side, with ROOM bytes of buffer    printed LENGTH
  pull-back S         make side S the next to print                     pulled-back S
  opening ROOM        what stands before the sides                      opened LENGTH
  ending ROOM         what stands after the sides                       ended LENGTH
  how-far             how many sides stand printed                      count N
  cell S ROW COLUMN   the page and mark at a position of side S         cell PAGE MARK
  size                the size of a side                                size W H
  leaves, pages, depth, laid P, length LEAF                             a number
  place P SLOT        a placement on side P                             place LEAF Q N D VX VY
  pour LEAF AT ROOM   the ink of a leaf, from byte AT of the buffer     poured END
or, where a call is refused,
  refused NUMBER NAME layer L page P offset O

example: booklet calls claims.ps --signature 2 1 --calls again.calls -o again.ps
";
