// An instruction's halfwords, and the marks of the pages that they are fetched from; then its action.
ghost use Rattle.std.specs.Prelude.{◌≡◌};
ghost use Rattle.pages.specs.Framed.{framed_of};
ghost use Rattle.actions.specs.Answered.{told, doing};
ghost use Rattle.actions.specs.Whole.{whole};
ghost use Rattle.fields.specs.Direct.{look_one};
ghost use Rattle.pages.specs.declared.Access.TheVariants.{Fetch};
ghost use Rattle.engine.specs.Entry.{halves_of, half_marks, halved, halving, fetched, fetching};

use crate::Text;
use actions::{Now, Stop};
use code::Action;
use pages::{Access, Refusal, Spot};

// How many halfwords are fetched, by the first: one only of an operation that is not known.
fn halves_of(h1: u16) -> u32
    ensures { result ≡ halves_of h1 }
{
    let Some(x) = decode::action_of((h1 / 256) as u8) else {
        return 1;
    };
    (decode::length_of(x) / 2) as u32
}

// The two bytes of a halfword are looked up for fetching, at once where the first look-up reaches both, and the page of each is marked as it
// is found: the first refusal, or the first byte's look-up.
fn look_half(map: &mut [u16], size: usize, at: u32) -> Result<Spot, Refusal>
    ensures { (result ≡ look_one map.old size Fetch at 2) × (map.new ≡ half_marks map.old size at) }
{
    let first = lookup::look_up(map, size, Access::Fetch, at)?;
    lookup::mark(map, Access::Fetch, at);
    if 2 <= first.reach {
        return Ok(first);
    }
    let behind = lookup::past_of(at, 1);
    lookup::look_up(map, size, Access::Fetch, behind)?;
    lookup::mark(map, Access::Fetch, behind);
    Ok(first)
}

// The halfword at an address: looked up, and its marks set, where the operation has it. One that it lacks is read and not looked at.
fn half_at(mem: &[u8], map: &mut [u16], at: u32, wanted: bool) -> Result<u16, Refusal>
    ensures { halved result (framed_of mem.now map.new) ≡ halving wanted at (framed_of mem.now map.old) }
{
    if wanted {
        let found = look_half(map, mem.len(), at)?;
        if 2 <= found.reach {
            return Ok(fields::flat::half_of(mem, found.at));
        }
    }
    Ok(fields::read_half(mem, map, at))
}

// The halfwords from the counter on, each looked up by itself, in document 01's order: the first refusal is handed on at once, and the pages
// of those before it have their marks.
fn text_each(mem: &[u8], map: &mut [u16], pc: u32) -> Result<Text, Stop>
    ensures { fetched result (framed_of mem.now map.new) ≡ fetching pc (framed_of mem.now map.old) }
{
    let h1 = half_at(mem, map, pc, true)?;
    let n = halves_of(h1);
    let h2 = half_at(mem, map, lookup::past_of(pc, 2), 1 < n)?;
    let h3 = half_at(mem, map, lookup::past_of(pc, 4), 2 < n)?;
    Ok(Text { h1, h2, h3 })
}

// The halfwords from the counter on, and their marks: by one look-up where it reaches six bytes. Those that the operation lacks are read
// with the rest.
pub fn text(mem: &[u8], map: &mut [u16], pc: u32) -> Result<Text, Stop>
    ensures { fetched result (framed_of mem.now map.new) ≡ fetching pc (framed_of mem.now map.old) }
{
    let found = lookup::look_up(map, mem.len(), Access::Fetch, pc)?;
    if 6 <= found.reach {
        let h1 = fields::flat::half_of(mem, found.at);
        let h2 = fields::flat::half_of(mem, found.at + 2);
        let h3 = fields::flat::half_of(mem, found.at + 4);
        lookup::mark(map, Access::Fetch, pc);
        return Ok(Text { h1, h2, h3 });
    }
    text_each(mem, map, pc)
}

// The action of an instruction whose halfwords are in hand: a match on the format, whose executors are lent unlike lists.
pub fn finish(
    regs: &mut [u32],
    mem: &mut [u8],
    map: &mut [u16],
    c: Now,
    t: Text,
) -> Result<Now, Stop>
    ensures { told result regs.new c (framed_of mem.new map.new) ≡ doing (whole t.h1 t.h2 t.h3) regs.old c (framed_of mem.old map.old) }
{
    let Text { h1, h2, h3 } = t;
    let Some(x) = decode::action_of((h1 / 256) as u8) else {
        return Err(Stop::Unknown(c.pc));
    };
    match x {
        Action::Rr(y) => actions::rr::execute(regs, c, y, h1),
        Action::Rx(y) => rx_si::rx::execute(regs, mem, map, c, y, decode::split_rx(h1, h2)),
        Action::Rs(y) => rs_ss::rs::execute(regs, mem, map, c, y, decode::split_rs(h1, h2)),
        Action::Si(y) => rx_si::si::execute(regs, mem, map, c, y, decode::split_si(h1, h2)),
        Action::Ss(y) => rs_ss::ss::execute(regs, mem, map, c, y, decode::split_ss(h1, h2, h3)),
    }
}
