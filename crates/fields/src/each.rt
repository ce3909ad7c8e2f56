// The plain way of a move and of a compare: each byte of both fields is looked up, then marked, then moved or compared, one at a time and by
// its address. It is the meaning in code; the quick way (spans.rt) is held to it.
ghost use Rattle.std.specs.Prelude.{◌≡◌, ◌<◌, length};
ghost use Rattle.pages.specs.declared.Access.TheVariants.{Load, Store};
ghost use Rattle.pages.specs.Framed.{framed_of};
ghost use Rattle.fields.specs.Direct.{look_one, note_field, move_field, compare_field};
ghost use Rattle.fields.specs.Both.{look_both, moved_by, order_of, noted_by};

use pages::{Access, Refusal, Spot};

// The first refusal, or the first byte's look-up.
fn look_bytes(map: &[u16], size: usize, access: Access, at: u32, len: u32) -> Result<Spot, Refusal>
    ensures { result ≡ look_one map.now size access at len }
{
    let mut a = at;
    for _ in 0..len {
        lookup::look_up(map, size, access, a)?;
        a = lookup::past_of(a, 1);
    }
    lookup::look_up(map, size, access, at)
}

// G set on the page of each byte.
fn note_bytes(map: &mut [u16], at: u32, len: u32)
    ensures { map.new ≡ note_field map.old at len }
{
    let mut a = at;
    for _ in 0..len {
        lookup::mark(map, Access::Load, a);
        a = lookup::past_of(a, 1);
    }
}

// Left to right.
fn move_bytes(mem: &mut [u8], map: &mut [u16], to: u32, from: u32, len: u32)
    ensures { framed_of mem.new map.new ≡ move_field (framed_of mem.old map.old) to from len }
{
    let mut a = to;
    let mut b = from;
    for _ in 0..len {
        let v = lookup::read_byte(mem, map, b);
        lookup::write_byte(mem, map, a, v);
        a = lookup::past_of(a, 1);
        b = lookup::past_of(b, 1);
    }
}

// The code of the first two bytes that differ, or 0.
fn compare_bytes(mem: &[u8], map: &[u16], first: u32, second: u32, len: u32) -> u32
    ensures { result ≡ compare_field (framed_of mem.now map.now) first second len }
{
    let mut a = first;
    let mut b = second;
    for _ in 0..len {
        let x = lookup::read_byte(mem, map, a);
        let y = lookup::read_byte(mem, map, b);
        if x < y {
            return 1;
        }
        if y < x {
            return 2;
        }
        a = lookup::past_of(a, 1);
        b = lookup::past_of(b, 1);
    }
    0
}

// A move: what the look-ups say, and where nothing is refused, both fields marked and the first one written.
pub fn move_field(
    mem: &mut [u8],
    map: &mut [u16],
    to: u32,
    from: u32,
    n: u32,
) -> Result<Spot, Refusal>
    requires { 0 < n }
    ensures { (result ≡ look_both map.old (length mem.old) Store to from n) × (framed_of mem.new map.new ≡ moved_by result mem.old map.old to from n) }
{
    let there = look_bytes(map, mem.len(), Access::Store, to, n)?;
    look_bytes(map, mem.len(), Access::Load, from, n)?;
    note_bytes(map, to, n);
    note_bytes(map, from, n);
    move_bytes(mem, map, to, from, n);
    Ok(there)
}

// A compare, the same: the condition code, or the refusal. (Its own function, which is lent memory to read.)
pub fn compare_field(
    mem: &[u8],
    map: &mut [u16],
    first: u32,
    second: u32,
    n: u32,
) -> Result<u32, Refusal>
    requires { 0 < n }
    ensures { (result ≡ order_of (look_both map.old (length mem.now) Load first second n) mem.now map.old first second n) × (map.new ≡ noted_by (look_both map.old (length mem.now) Load first second n) map.old first second n) }
{
    look_bytes(map, mem.len(), Access::Load, first, n)?;
    look_bytes(map, mem.len(), Access::Load, second, n)?;
    note_bytes(map, first, n);
    note_bytes(map, second, n);
    Ok(compare_bytes(mem, map, first, second, n))
}
