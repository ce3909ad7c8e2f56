// Fields of bytes in storage: looked up before anything is stored, noted, read, written, moved and compared. As far as a look-up reaches, by
// real address.
#![tactic(auto)]

pub mod blocks; // blocks.rt: stretches of memory moved and compared
pub mod each; // each.rt: a move and a compare byte by byte, the plain way
pub mod flat; // flat.rt: operands by real address
pub mod spans; // spans.rt: a move and a compare over a page's edge, stretch by stretch

ghost use Rattle.std.specs.Prelude.{◌≡◌, ◌+◌, ◌%◌, ◌<◌, ◌≤◌, not, [], ◌∷◌, length, ◌==◌, MatchResult};
ghost use Rattle.machine.specs.Fields.{bytes_of};
ghost use Rattle.pages.specs.Framed.{framed_of};
ghost use Rattle.pages.specs.Look.{look_of};
ghost use Rattle.fields.specs.Direct.{in_page, look_fields, look_one, note_field, read_field, Clear, Stops};

use code::Width;
use pages::{Access, Cause, Refusal, Spot};

// So many bytes from an address on, and what they are wanted for.
#[derive(Clone, Copy)]
pub struct Field {
    pub access: Access,
    pub at: u32,
    pub len: u32,
}

// A field in at most two stretches of memory: its first bytes, so many as `len` says, from `at` on, and the rest from `on` on.
#[derive(Clone, Copy)]
pub struct Span {
    pub at: usize,
    pub len: u32,
    pub on: usize,
}

// Every byte of a field is looked up, going on by what each look-up reached, until one is refused.
fn look_field(map: &[u16], size: usize, field: Field) -> Result<(), Refusal>
    ensures { MatchResult result (λ _. Clear map.now size field.access field.at field.len) (λ e. Stops map.now size field.access field.at field.len e) }
{
    let mut at = field.at;
    let mut left = field.len;
    // No `for`: a look-up says how far the next one lies.
    while 0 < left {
        let found = lookup::look_up(map, size, field.access, at)?;
        let step = lookup::fewer_of(left, found.reach as usize);
        at = lookup::past_of(at, step);
        left -= step;
    }
    Ok(())
}

// Both fields, first field, then second: the first refusal, or the first byte's look-up.
pub fn look_each(map: &[u16], size: usize, first: Field, second: Field) -> Result<Spot, Refusal>
    ensures { result ≡ look_fields map.now size (first ∷ second ∷ []) (look_of map.now size first.access first.at) }
{
    look_field(map, size, first)?;
    look_field(map, size, second)?;
    lookup::look_up(map, size, first.access, first.at)
}

// One field: its first look-up decides wherever it reaches.
pub fn look_one(
    map: &[u16],
    size: usize,
    access: Access,
    at: u32,
    len: u32,
) -> Result<Spot, Refusal>
    ensures { result ≡ look_one map.now size access at len }
{
    let found = lookup::look_up(map, size, access, at)?;
    if len <= found.reach {
        return Ok(found);
    }
    look_field(map, size, Field { access, at, len })?;
    Ok(found)
}

// An operand on its boundary: it lies in one page, so that where the look-up does not reach its end, memory ends within it.
pub fn look_operand(
    map: &[u16],
    size: usize,
    access: Access,
    at: u32,
    len: u32,
) -> Result<Spot, Refusal>
    requires { at % 2048 + len ≤ 2048 }
    ensures { result ≡ look_one map.now size access at len }
{
    let found = lookup::look_up(map, size, access, at)?;
    if found.reach < len {
        return Err(Refusal {
            cause: Cause::Addressing,
            place: at + found.reach,
        });
    }
    Ok(found)
}

// How many addresses from this one on have its page; past the last address the next one is 0.
fn in_page(at: u32) -> u32
    ensures { result ≡ in_page at }
{
    if at < 16777216 { 4096 - at % 4096 } else { 1 }
}

// G set on the page of each byte, page by page.
pub fn note_field(map: &mut [u16], at: u32, len: u32)
    ensures { map.new ≡ note_field map.old at len }
{
    let mut to = at;
    let mut left = len;
    // No `for`: page by page, and the pages' ends lie where the address says.
    while 0 < left {
        lookup::mark(map, Access::Load, to);
        let step = lookup::fewer_of(left, in_page(to) as usize);
        to = lookup::past_of(to, step);
        left -= step;
    }
}

// Whether an operand lies off its boundary.
pub fn is_off(at: u32, width: Width) -> bool
    ensures { result ≡ not (at % bytes_of width == 0) }
{
    match width {
        Width::Word => at % 4 != 0,
        Width::Half => at % 2 != 0,
        Width::Byte => false,
    }
}

pub fn bytes_of(width: Width) -> u32
    ensures { (result ≡ bytes_of width) × (0 < result) }
{
    match width {
        Width::Word => 4,
        Width::Half => 2,
        Width::Byte => 1,
    }
}

// The two bytes each by itself: they have different pages, or one is refused.
fn half_each(mem: &[u8], map: &[u16], at: u32) -> u16
    ensures { result ≡ read_field (framed_of mem.now map.now) at 2 0 }
{
    let high = lookup::read_byte(mem, map, at);
    let low = lookup::read_byte(mem, map, lookup::past_of(at, 1));
    u16::from(high) * 256 + u16::from(low)
}

// A halfword; where the look-up refuses, a byte is 0.
pub fn read_half(mem: &[u8], map: &[u16], at: u32) -> u16
    ensures { result ≡ read_field (framed_of mem.now map.now) at 2 0 }
{
    match lookup::look_up(map, mem.len(), Access::Load, at) {
        Ok(found) if 2 <= found.reach => flat::half_of(mem, found.at),
        _ => half_each(mem, map, at),
    }
}
