// One line of a sheet.
ghost use Rattle.std.specs.Prelude.{◌≡◌};
ghost use Rattle.reading.specs.Line.{line_of, read_page, read_bytes, read_reg, read_start, read_run};
ghost use Rattle.reading.specs.Within.{Says};

use crate::cut::{back, equal, front};
use crate::digits::{decimal, hex, hex_bytes};

// What a line says. Of a BYTES line the address, and the digits where they stand.
#[derive(Clone, Copy)]
pub enum Line<'a> {
    Page(u32, u16),
    Bytes(u32, &'a [u8]),
    Reg(u32, u32),
    Start(u32, u32, u32),
    Run(u32),
}

// The fields behind a line's name, by its kind.
#[tactic(auto, using(crate::proofs::Numbers::word_fits), unfolding(crate::specs::Line::read_entry))]
fn page_line(text: &[u8]) -> Option<Line<'_>>
    ensures { Says result (read_page text.now) }
{
    let n = decimal(front(text, b'\t'), 511)?;
    let w = hex(back(text, b'\t'), 4, 65535)?;
    Some(Line::Page(n, w as u16))
}

#[tactic(auto, unfolding(crate::specs::Line::read_bytes, crate::specs::Digits::is_bytes))]
fn bytes_line(text: &[u8]) -> Option<Line<'_>>
    ensures { Says result (read_bytes text.now) }
{
    let a = decimal(front(text, b'\t'), 65535)?;
    let digits = back(text, b'\t');
    if hex_bytes(digits) && a as usize + digits.len() / 2 <= 65536 {
        Some(Line::Bytes(a, digits))
    } else {
        None
    }
}

#[tactic(auto, unfolding(crate::specs::Line::read_entry))]
fn reg_line(text: &[u8]) -> Option<Line<'_>>
    ensures { Says result (read_reg text.now) }
{
    let n = decimal(front(text, b'\t'), 15)?;
    let v = hex(back(text, b'\t'), 8, 4294967295)?;
    Some(Line::Reg(n, v))
}

#[tactic(auto, unfolding(crate::specs::Line::read_start))]
fn start_line(text: &[u8]) -> Option<Line<'_>>
    ensures { Says result (read_start text.now) }
{
    let pc = hex(front(text, b'\t'), 6, 16777215)?;
    let rest = back(text, b'\t');
    let code = decimal(front(rest, b'\t'), 3)?;
    let mask = decimal(back(rest, b'\t'), 15)?;
    Some(Line::Start(pc, code, mask))
}

#[tactic(auto, unfolding(crate::specs::Line::read_run))]
fn run_line(text: &[u8]) -> Option<Line<'_>>
    ensures { Says result (read_run text.now) }
{
    let budget = decimal(text, 65535)?;
    Some(Line::Run(budget))
}

// A whole line.
#[tactic(auto, unfolding(crate::specs::Line::line_of))]
pub fn read_line(text: &[u8]) -> Option<Line<'_>>
    ensures { Says result (line_of text.now) }
{
    let name = front(text, b'\t');
    let rest = back(text, b'\t');
    // A `match` on the name was tried: the proof of its last arm, into which nineteen ways lead, did not close.
    if equal(name, b"PAGE") {
        page_line(rest)
    } else if equal(name, b"BYTES") {
        bytes_line(rest)
    } else if equal(name, b"REG") {
        reg_line(rest)
    } else if equal(name, b"START") {
        start_line(rest)
    } else if equal(name, b"RUN") {
        run_line(rest)
    } else {
        None
    }
}
