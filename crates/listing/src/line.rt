// The text of a line: address, name and operands.
ghost use Rattle.std.specs.Prelude.{◌≡◌};
ghost use Rattle.code.specs.Table.{name_of};
ghost use Rattle.printing.specs.Writing.{Wrote};
ghost use Rattle.lines.specs.Line.{line, instruction_in, said_of, text_of};

use super::operands;
use code::Action;
use printing::writing::Writer;

// The name of an operation, up to the dots of its four places.
fn put_name(w: &mut Writer, op: u8)
    ensures { Wrote w.old w.new (name_of op) }
{
    let cell = decode::names::name_of(op);
    for b in &cell {
        if *b == b'.' {
            return;
        }
        w.put(*b);
    }
}

// The instruction that a stretch is, if it is one.
fn instruction_in(bytes: &[u8]) -> Option<Action>
    ensures { result ≡ instruction_in bytes.now }
{
    if bytes.is_empty() {
        return None;
    }
    let action = decode::action_of(bytes[0])?;
    if bytes.len() == decode::length_of(action) {
        Some(action)
    } else {
        None
    }
}

// Name and operands of an instruction, each behind a tab.
fn put_instruction(w: &mut Writer, action: Action, bytes: &[u8])
    ensures { Wrote w.old w.new (said_of (Some action) bytes.now) }
{
    w.put(b'\t');
    put_name(w, operands::byte_at(bytes, 0));
    w.put(b'\t');
    operands::put_operands(w, action, bytes);
}

// The same of a stretch that is no instruction: DC and the raw bytes.
fn put_raw(w: &mut Writer, bytes: &[u8])
    ensures { Wrote w.old w.new (said_of None bytes.now) }
{
    w.put_all(b"\tDC\t");
    operands::put_quoted(w, bytes);
}

fn put_said(w: &mut Writer, bytes: &[u8])
    ensures { Wrote w.old w.new (said_of (instruction_in bytes.now) bytes.now) }
{
    match instruction_in(bytes) {
        Some(action) => put_instruction(w, action, bytes),
        None => put_raw(w, bytes),
    }
}

// The line that stands for a stretch at an address.
pub fn put_line(w: &mut Writer, address: u32, bytes: &[u8])
    ensures { Wrote w.old w.new (text_of (line address bytes.now)) }
{
    w.put_digits(address as usize, 16, 6);
    put_said(w, bytes);
    w.put(b'\n');
}
