// The lister: a header line and bytes from standard input, a listing to standard output.
//
// `CODE`, tab, an address of six hexadecimal digits, LF, and at most 2,097,152 code bytes: their listing from that address on.
// `PAGE`, tab, a page's number from 0 to 511, LF, and a bench sheet: the listing of that page of the machine that the sheet sets; or
// the line BAD, as the bench has it, or the line REFUSED, number and place.
//
// Where the input is not of that form or cannot be read, and where a listing cannot be written, standard error has a line that says so.
#![tactic(auto)]

ghost use Rattle.std.specs.Prelude.{◌≤◌, length, IfOk};

use page_listing::PageRefusal;
use printing::writing::Writer;
use reading::{BadLine, cut, digits};
use streams::Trouble;

// The first line, without its LF. A room that it fills is too small.
fn take_header<'a>(rt: &HostRuntime, room: &'a mut [u8]) -> Result<&'a [u8], Trouble>
    ensures { IfOk result (λ header. length header.now ≤ length room.old) }
{
    for n in 0..room.len() {
        let [b] = streams::next_bytes::<1>(rt)?;
        if b == b'\n' {
            return Ok(&room[..n]);
        }
        room[n] = b;
    }
    Err(Trouble::Malformed)
}

// The whole listing, an output at a time, each from where the one before it ended.
fn list_code(rt: &HostRuntime, code: &[u8], start: u32) -> Result<(), Trouble> {
    let mut out = [0; 65536];
    let mut at = 0;
    // No `for`: what an output holds says where the next begins.
    while at < code.len() {
        let told = listing::list_from(code, at, start, &mut out);
        streams::write(rt, out.get(..told.written).ok_or(Trouble::Unwritten)?)?;
        // The output has room for every line (lines/proofs/Longest), so this is never so; a loop has to be seen to end.
        if told.next <= at {
            return Err(Trouble::Unwritten);
        }
        at = told.next;
    }
    Ok(())
}

fn take_code(rt: &HostRuntime, start: u32) -> Result<(), Trouble> {
    // One byte more than the machine has addresses is enough to know that there are too many.
    let mut room = [0; 2097153];
    let code = streams::take(rt, &mut room)?;
    if code.len() > 2097152 {
        return Err(Trouble::Malformed);
    }
    list_code(rt, code, start)
}

fn write_refused(rt: &HostRuntime, refusal: PageRefusal) -> Result<(), Trouble> {
    let mut room = [0; 32];
    let mut out = Writer::new(&mut room);
    out.named(b"REFUSED", refusal.number() as usize);
    out.put_hex(refusal.place() as usize, 6);
    out.put(b'\n');
    streams::write(rt, out.written())
}

// A page of a machine. The output has room for every page (page_listing/proofs/WholePage).
fn list_page(rt: &HostRuntime, mem: &[u8], map: &[u16], page: u32) -> Result<(), Trouble> {
    let mut out = [0; 135168];
    match page_listing::list_page(mem, map, page, &mut out) {
        Ok(told) => streams::write(rt, out.get(..told.written).ok_or(Trouble::Unwritten)?),
        Err(refusal) => write_refused(rt, refusal),
    }
}

fn list_page_of(rt: &HostRuntime, sheet: &[u8], page: u32) -> Result<(), Trouble> {
    let mut mem = [0; 65536];
    let mut map = [0; 512];
    let mut regs = [0; 16];
    match reading::read_sheet(sheet, &mut mem, &mut map, &mut regs) {
        Err(BadLine { line }) => streams::write(rt, printing::bad(line).as_slice()),
        Ok(_) => list_page(rt, &mem, &map, page),
    }
}

fn take_sheet(rt: &HostRuntime, page: u32) -> Result<(), Trouble> {
    // One byte more than a sheet may have is enough to know that it is too long.
    let mut room = [0; 65537];
    list_page_of(rt, streams::take(rt, &mut room)?, page)
}

// By the header's first field.
fn listing_for(rt: &HostRuntime, header: &[u8]) -> Result<(), Trouble> {
    let rest = cut::back(header, b'\t');
    match cut::front(header, b'\t') {
        b"CODE" => {
            let start = digits::hex(rest, 6, 16777215).ok_or(Trouble::Malformed)?;
            take_code(rt, start)
        }
        b"PAGE" => {
            let page = digits::decimal(rest, 511).ok_or(Trouble::Malformed)?;
            take_sheet(rt, page)
        }
        _ => Err(Trouble::Malformed),
    }
}

fn answer(rt: &HostRuntime) -> Result<(), Trouble> {
    // The longest header has eleven bytes, and LF.
    let mut room = [0; 12];
    listing_for(rt, take_header(rt, &mut room)?)
}

fn main(rt: HostRuntime) {
    streams::tell(&rt, b"lister", b"request", 1, answer(&rt));
}
