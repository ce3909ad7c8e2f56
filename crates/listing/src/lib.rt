// A listing of code bytes, a line an instruction, into an output that the caller lends (document 02, E1).
//
// A reader walks the code and keeps its place in it. The functions over it are few and thin; the work is in `list_from`, which takes
// the slice and the place.
#![tactic(auto)]

ghost use Rattle.std.specs.Prelude.{◌≡◌};
ghost use Rattle.lines.specs.Listing.{answered, listed_from, listed};

use lines::{Listed, StartOutOfRange};
use printing::writing::Writer;

pub mod operands; // operands.rt: operands, by format
pub mod line; // line.rt: the text of a line
pub mod walking; // walking.rt: a step of the walk

// The code, and the place of the next line's first byte.
#[derive(Drop)]
pub struct Reader<'a> {
    pub code: &'a [u8],
    pub at: usize,
}

// From a place of the code on, as many lines as fit. The code's first byte lies at `start`. The place is stepped on by hand: each line
// says how far it reaches, and the place is part of the answer.
pub fn list_from(code: &[u8], at: usize, start: u32, out: &mut [u8]) -> Listed
    ensures { answered (Ok result) out.new ≡ listed_from code.now at start out.old }
{
    let mut w = Writer::new(out);
    let mut lines = 0;
    let mut next = at;
    while next < code.len() {
        let end = next + walking::size_of(&code[next..]);
        let address = walking::address_at(start, next);
        if !walking::add_line(&mut w, address, &code[next..end]) {
            break;
        }
        lines += 1;
        next = end;
    }
    Listed {
        lines,
        next,
        written: w.at,
    }
}

impl<'a> Reader<'a> {
    // A reader at the code's first byte.
    pub fn new(code: &'a [u8]) -> Reader<'a>
        ensures { (result.code ≡ code.entry) × (result.at ≡ 0) }
    {
        Reader { code, at: 0 }
    }

    // As many lines as fit, from the reader's place on; the place moves on.
    pub fn walk(&mut self, start: u32, out: &mut [u8]) -> Listed
        ensures { (answered (Ok result) out.new ≡ listed_from self.old.code.now self.old.at start out.old)
            × (self.new.code ≡ self.old.code) × (self.new.at ≡ result.next) }
    {
        let told = list_from(self.code, self.at, start, out);
        self.at = told.next;
        told
    }
}

// A reader's first walk.
pub fn list_all(code: &[u8], start: u32, out: &mut [u8]) -> Listed
    ensures { answered (Ok result) out.new ≡ listed_from code.now 0 start out.old }
{
    Reader::new(code).walk(start, out)
}

// The entry: as many lines of the code as fit the output. A start of 2^24 or more is refused, and nothing is written.
pub fn list(code: &[u8], start: u32, out: &mut [u8]) -> Result<Listed, StartOutOfRange>
    ensures { answered result out.new ≡ listed code.now start out.old }
{
    if start >= 1 << 24 {
        return Err(StartOutOfRange);
    }
    Ok(list_all(code, start, out))
}
