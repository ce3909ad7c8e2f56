// What a sheet cannot show: calls of the engine's entries, of the look-up, and of a move or compare by the plain way, with lists of
// any length and numbers of any size. Reads cases from standard input (case.rt has their form) and writes each outcome, whole, to
// standard output (told.rt). The input may end between two cases. Where it ends within one, is not of that form or cannot be read,
// and where an outcome cannot be written, standard error has a line that says so, and the program ends.
#![tactic(auto)]

mod case;
mod told;

use actions::{Now, Stop};
use case::{Head, Kind, Scalars};
use code::SsAction;
use machine::Reply;
use pages::{Access, Spot};
use streams::Trouble;

// What a look-up's byte is wanted for, by the number in the case. (No `TryFrom`: trait and type are both of other crates.)
fn access_of(number: u32) -> Result<Access, Trouble> {
    match number {
        0 => Ok(Access::Fetch),
        1 => Ok(Access::Load),
        2 => Ok(Access::Store),
        _ => Err(Trouble::Malformed),
    }
}

// A look-up: it changes nothing, and its answer is told whole.
fn look(rt: &HostRuntime, map: &[u16], size: usize, s: Scalars) -> Result<(), Trouble> {
    let access = access_of(s.code)?;
    match lookup::look_up(map, size, access, s.pc) {
        Ok(Spot { at, reach }) => told::write_look(rt, 0, at, reach),
        Err(refusal) => {
            let number = Stop::from(refusal).number();
            told::write_look(rt, number, refusal.place as usize, 0)
        }
    }
}

// The move or compare at the counter, byte by byte. Its code pages are taken to have their marks.
fn plain(mem: &mut [u8], map: &mut [u16], regs: &[u32], s: Scalars) -> Result<Reply, Trouble> {
    let h1 = fields::read_half(mem, map, s.pc);
    let h2 = fields::read_half(mem, map, lookup::past_of(s.pc, 2));
    let h3 = fields::read_half(mem, map, lookup::past_of(s.pc, 4));
    let action = match h1 / 256 {
        0xD2 => SsAction::MoveField,
        0xD5 => SsAction::CompareField,
        _ => return Err(Trouble::Malformed),
    };
    let Scalars { pc, code, mask, .. } = s;
    let c = Now { pc, code, mask };
    let split = decode::split_ss(h1, h2, h3);
    let out = rs_ss::plain::execute(regs, mem, map, c, action, split);
    Ok(engine::door::step_reply(c, out))
}

// A case whose lists stand: its pieces, and the call.
fn finish(
    rt: &HostRuntime,
    mem: &mut [u8],
    map: &mut [u16],
    regs: &mut [u32],
    kind: Kind,
    s: Scalars,
) -> Result<(), Trouble> {
    case::take_memory(rt, mem, s.pieces)?;
    let reply = match kind {
        Kind::Step => engine::step(mem, map, regs, s.pc, s.code, s.mask),
        Kind::Run => engine::run(mem, map, regs, s.pc, s.code, s.mask, s.budget),
        Kind::LookUp => return look(rt, map, mem.len(), s),
        Kind::Plain => plain(mem, map, regs, s)?,
    };
    told::write(rt, reply, regs, map, mem)
}

// A case after its head. What it does not name is zero.
fn answer(rt: &HostRuntime, head: Head) -> Result<(), Trouble> {
    let mut mem = [0; 270336];
    let mut map = [0; 600];
    let mut regs = [0; 32];
    let mem = &mut mem[..head.mem];
    let map = &mut map[..head.map];
    let regs = &mut regs[..head.regs];
    // All that stands before the pieces comes in one read.
    let mut room = [0; 1346];
    let bytes = &mut room[..2 * head.map + 4 * head.regs + 18];
    streams::fill_within(rt, bytes)?;
    let rest = case::list_of(map, bytes)?;
    let rest = case::list_of(regs, rest)?;
    let scalars = case::scalars_of(rest)?;
    finish(rt, mem, map, regs, head.kind, scalars)
}

// The next case and its outcome; whether there was one.
fn answer_next(rt: &HostRuntime) -> Result<bool, Trouble> {
    let Some(bytes) = streams::first_bytes(rt)? else {
        return Ok(false);
    };
    answer(rt, Head::try_from(bytes)?)?;
    Ok(true)
}

fn main(rt: HostRuntime) {
    streams::each(&rt, b"probe", b"case", answer_next);
}
