// An outcome as text: a name and numbers in decimal on each line, parted by tabs.
//
//     ANSWER number place count
//     STATE counter code mask
//     REGS all of them
//     MAP all page words
//     MEMORY its checksum
//
// and of a look-up one line:
//
//     LOOK number, real address or place, reach
//
// An outcome has room.
ghost use Rattle.std.specs.Prelude.{◌-◌, ◌^◌, ◌<◌, ◌≤◌};

use machine::Reply;
use printing::digits::without;
use printing::writing::Writer;
use streams::Trouble;

fn put_line<T: Copy + Into<u64>>(out: &mut Writer<'_>, name: &[u8], numbers: &[T]) {
    out.put_all(name);
    for v in numbers {
        let wide: u64 = (*v).into();
        out.put_decimal(wide as usize);
    }
    out.put(b'\n');
}

// The bytes as digits to the base 251 after a leading 1, cut to 56 bits before each digit. The base is odd, so no byte can change
// alone unseen.
fn checksum(mem: &[u8]) -> u64 {
    mem.iter()
        .fold(1, |sum, b| sum % (1 << 56) * 251 + u64::from(*b))
}

// How many digits a number has in decimal, with no leading zero: at most twenty.
fn width(v: usize) -> usize
    ensures one { 0 < result }
    ensures enough { v < 10 ^ result }
    ensures needed { 1 < result → 10 ^ (result - 1) ≤ v }
{
    for behind in (1..20).rev() {
        if without(v, 10, behind) > 0 {
            return behind + 1;
        }
    }
    1
}

fn put_memory(out: &mut Writer<'_>, mem: &[u8]) {
    let sum = checksum(mem) as usize;
    out.put_all(b"MEMORY\t");
    out.put_digits(sum, 10, width(sum));
    out.put(b'\n');
}

pub fn write_look(rt: &HostRuntime, number: u32, place: usize, reach: u32) -> Result<(), Trouble> {
    let mut room = [0; 64];
    let mut out = Writer::new(&mut room);
    put_line(
        &mut out,
        b"LOOK",
        &[u64::from(number), place as u64, u64::from(reach)],
    );
    streams::write(rt, out.written())
}

pub fn write(
    rt: &HostRuntime,
    r: Reply,
    regs: &[u32],
    map: &[u16],
    mem: &[u8],
) -> Result<(), Trouble> {
    let mut room = [0; 8192];
    let mut out = Writer::new(&mut room);
    put_line(&mut out, b"ANSWER", &[r.number, r.place, r.count]);
    put_line(&mut out, b"STATE", &[r.pc, r.code, r.mask]);
    put_line(&mut out, b"REGS", regs);
    put_line(&mut out, b"MAP", map);
    put_memory(&mut out, mem);
    streams::write(rt, out.written())
}
