// A step of the walk: how far a line reaches, where it lies, and the line itself where it fits.
ghost use Rattle.std.specs.Prelude.{◌≡◌, ◌+◌, ◌≤◌, length};
ghost use Rattle.printing.specs.Writing.{spot_of};
ghost use Rattle.lines.specs.Line.{line, text_of};
ghost use Rattle.lines.specs.Listing.{raw_size, size_of, wrapped};
ghost use Rattle.listing.specs.Adding.{has_room, added};

use super::{line, operands};
use printing::writing::Writer;

fn raw_size(left: usize) -> usize
    ensures { result ≡ raw_size left }
{
    left.min(2)
}

// How many bytes the first line of some code stands for.
pub fn size_of(code: &[u8]) -> usize
    ensures { result ≡ size_of code.now }
{
    let left = code.len();
    let Some(action) = decode::action_of(operands::byte_at(code, 0)) else {
        return raw_size(left);
    };
    let size = decode::length_of(action);
    if size <= left { size } else { raw_size(left) }
}

// The address of the byte at a place, in code whose first byte lies at `start`.
pub fn address_at(start: u32, place: usize) -> u32
    ensures { result ≡ wrapped (start + place) }
{
    ((start as usize + place % 16777216) % 16777216) as u32
}

// Adds a line to what is written, and says whether there was room for the whole of it. Else nothing is written.
pub fn add_line(w: &mut Writer, address: u32, bytes: &[u8]) -> bool
    requires { (w.old.at ≤ length w.old.buf.now) × (length bytes.now ≤ 6) }
    ensures same_buffer { w.new.buf.ghost_name ≡ w.old.buf.ghost_name }
    ensures written { spot_of w.new ≡ added (spot_of w.old) (text_of (line address bytes.now)) }
    ensures told { result ≡ has_room (spot_of w.old) (text_of (line address bytes.now)) }
{
    // The longest line has 33 characters.
    let mut room = [0u8; 33];
    let mut text = Writer::new(&mut room);
    line::put_line(&mut text, address, bytes);
    if w.buf.len() - w.at < text.at {
        return false;
    }
    w.put_all(text.written());
    true
}
