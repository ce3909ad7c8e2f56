// The engine for programs in other languages to link: a single step, a run, a sheet's answer, and a listing of code. Only numbers and
// slices cross.
#![tactic(auto)]

ghost use Rattle.std.specs.Prelude.{◌≡◌, eqb, length};
ghost use Rattle.words.specs.Pick.{pick};
ghost use Rattle.outer.specs.Crossing.{version, crossed, six, lent, read_off, step_crossed, StepMeets, run_crossed, RunMeets, sheet_crossed, SheetMeets, crossed_list, list_crossed};
ghost use Rattle.reading.specs.Setting.{Setting};
ghost use Rattle.reading.specs.Sheet.{good, reading_of};

use machine::Reply;

// The version of these functions, as one number: major × 65,536 + minor × 256 + patch.
#[unsafe(no_mangle)]
pub extern "C" fn spectra46_version() -> u32
    ensures { result ≡ version }
{
    1536
}

// The six numbers of a reply, into six places.
fn put_reply(reply: &mut [u32], r: Reply)
    ensures { reply.new ≡ pick (eqb (length reply.old) 6) (six r) reply.old }
{
    if reply.len() == 6 {
        reply[0] = r.number;
        reply[1] = r.place;
        reply[2] = r.count;
        reply[3] = r.pc;
        reply[4] = r.code;
        reply[5] = r.mask;
    }
}

// One step. `reply` has counter, code and mask in its last three places, and on return all six numbers. `whole` is the whole answer,
// `demands` what demands 1 and 3 say of it.
#[unsafe(no_mangle)]
pub extern "C" fn spectra46_step(
    mem: &mut [u8],
    map: &mut [u16],
    regs: &mut [u32],
    reply: &mut [u32],
) -> u32
    ensures whole { crossed result mem.new map.new regs.new reply.new ≡ step_crossed mem.old map.old regs.old reply.old }
    ensures demands { length reply.old ≡ 6 → StepMeets (lent mem.old map.old regs.old reply.old) (read_off mem.new map.new regs.new reply.new) }
{
    if reply.len() != 6 {
        return 6;
    }
    let r = engine::step(mem, map, regs, reply[3], reply[4], reply[5]);
    put_reply(reply, r);
    r.number
}

// At most `budget` steps; `reply` as for a step.
#[unsafe(no_mangle)]
pub extern "C" fn spectra46_run(
    mem: &mut [u8],
    map: &mut [u16],
    regs: &mut [u32],
    reply: &mut [u32],
    budget: u32,
) -> u32
    ensures whole { crossed result mem.new map.new regs.new reply.new ≡ run_crossed budget mem.old map.old regs.old reply.old }
    ensures demands { length reply.old ≡ 6 → RunMeets budget (lent mem.old map.old regs.old reply.old) (read_off mem.new map.new regs.new reply.new) }
{
    if reply.len() != 6 {
        return 6;
    }
    let r = engine::run(mem, map, regs, reply[3], reply[4], reply[5], budget);
    put_reply(reply, r);
    r.number
}

// A sheet's answer into a room of 8,192 bytes, and its length; 0 where the room has another size.
#[unsafe(no_mangle)]
pub extern "C" fn spectra46_sheet(sheet: &[u8], room: &mut [u8]) -> usize
    ensures whole { record { bytes = room.new; len = result } ≡ sheet_crossed sheet.now room.old }
    ensures demands { length room.old ≡ 8192 → (h : Setting) → reading_of sheet.now ≡ good h → SheetMeets h (record { bytes = room.new; len = result }) }
{
    if room.len() != 8192 {
        return 0;
    }
    let text = sheet::answer(sheet);
    room.copy_from_slice(&text.bytes);
    text.len
}

// As many lines of the code's listing as fit the output. `told` has on return how many they are, the code byte to go on from, and how
// many bytes of the output they take.
#[unsafe(no_mangle)]
pub extern "C" fn spectra46_list(code: &[u8], start: u32, out: &mut [u8], told: &mut [usize]) -> u32
    ensures { crossed_list result out.new told.new ≡ list_crossed code.now start out.old told.old }
{
    if told.len() != 3 {
        return 6;
    }
    match listing::list(code, start, out) {
        Ok(r) => {
            told[0] = r.lines;
            told[1] = r.next;
            told[2] = r.written;
            0
        }
        Err(_) => {
            told.fill(0);
            6
        }
    }
}
