// What C and Rust programs link: the functions of `outer` under their own names, each with the same promises. A crate is a library or an
// archive to link, not both; the archive of this one is libouter.a.
#![tactic(auto)]

ghost use Rattle.std.specs.Prelude.{◌≡◌, length};
ghost use Rattle.outer.specs.Crossing.{version, crossed, lent, read_off, step_crossed, StepMeets, run_crossed, RunMeets, sheet_crossed, SheetMeets, crossed_list, list_crossed};
ghost use Rattle.reading.specs.Setting.{Setting};
ghost use Rattle.reading.specs.Sheet.{good, reading_of};

// The version of these functions, as one number: major × 65,536 + minor × 256 + patch.
#[unsafe(no_mangle)]
pub extern "C" fn spectra46_version() -> u32
    ensures { result ≡ version }
{
    outer::spectra46_version()
}

// One step. `reply` has counter, code and mask in its last three places, and on return all six numbers. `whole` is the whole answer,
// `demands` what demands 1 and 3 say of it.
#[unsafe(no_mangle)]
pub extern "C" fn spectra46_step(
    mem: &mut [u8],
    map: &mut [u16],
    regs: &mut [u32],
    reply: &mut [u32],
) -> u32
    ensures whole { crossed result mem.new map.new regs.new reply.new ≡ step_crossed mem.old map.old regs.old reply.old }
    ensures demands { length reply.old ≡ 6 → StepMeets (lent mem.old map.old regs.old reply.old) (read_off mem.new map.new regs.new reply.new) }
{
    outer::spectra46_step(mem, map, regs, reply)
}

// At most `budget` steps; `reply` as for a step.
#[unsafe(no_mangle)]
pub extern "C" fn spectra46_run(
    mem: &mut [u8],
    map: &mut [u16],
    regs: &mut [u32],
    reply: &mut [u32],
    budget: u32,
) -> u32
    ensures whole { crossed result mem.new map.new regs.new reply.new ≡ run_crossed budget mem.old map.old regs.old reply.old }
    ensures demands { length reply.old ≡ 6 → RunMeets budget (lent mem.old map.old regs.old reply.old) (read_off mem.new map.new regs.new reply.new) }
{
    outer::spectra46_run(mem, map, regs, reply, budget)
}

// A sheet's answer into a room of 8,192 bytes, and its length; 0 where the room has another size.
#[unsafe(no_mangle)]
pub extern "C" fn spectra46_sheet(sheet: &[u8], room: &mut [u8]) -> usize
    ensures whole { record { bytes = room.new; len = result } ≡ sheet_crossed sheet.now room.old }
    ensures demands { length room.old ≡ 8192 → (h : Setting) → reading_of sheet.now ≡ good h → SheetMeets h (record { bytes = room.new; len = result }) }
{
    outer::spectra46_sheet(sheet, room)
}

// As many lines of the code's listing as fit the output. `told` has on return how many they are, the code byte to go on from, and how
// many bytes of the output they take.
#[unsafe(no_mangle)]
pub extern "C" fn spectra46_list(code: &[u8], start: u32, out: &mut [u8], told: &mut [usize]) -> u32
    ensures { crossed_list result out.new told.new ≡ list_crossed code.now start out.old told.old }
{
    outer::spectra46_list(code, start, out, told)
}
