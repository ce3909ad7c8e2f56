// Fields by real address, as they lie in memory. Who calls has looked the field up, and the look-up reached its end: it lies whole in memory.
ghost use Rattle.std.specs.Prelude.{◌≡◌, ◌+◌, ◌<◌, ◌≤◌, length, slice_index, slice_set};
ghost use Rattle.machine.specs.Fields.{bytes_of};
ghost use Rattle.fields.specs.Direct.{flat, flat_put};

use code::Width;

pub fn byte_of(mem: &[u8], r: usize) -> u8
    requires { r < length mem.now }
    ensures { result ≡ slice_index mem.now r }
{
    mem[r]
}

pub fn half_of(mem: &[u8], r: usize) -> u16
    requires { r + 2 ≤ length mem.now }
    ensures { result ≡ flat mem.now r 2 0 }
{
    let v = u32::from(mem[r]) * 256 + u32::from(mem[r + 1]);
    v as u16
}

// Products and sums, and no shifts: the compiler makes one load of them.
pub fn word_of(mem: &[u8], r: usize) -> u32
    requires { r + 4 ≤ length mem.now }
    ensures { result ≡ flat mem.now r 4 0 }
{
    u32::from(mem[r]) * 16777216
        + u32::from(mem[r + 1]) * 65536
        + u32::from(mem[r + 2]) * 256
        + u32::from(mem[r + 3])
}

pub fn put_byte(mem: &mut [u8], r: usize, v: u8)
    requires { r < length mem.old }
    ensures { mem.new ≡ slice_set mem.old r v }
{
    mem[r] = v;
}

fn put_half(mem: &mut [u8], r: usize, v: u16)
    requires { r + 2 ≤ length mem.old }
    ensures { mem.new ≡ flat_put mem.old r 2 v }
{
    put_byte(mem, r, (v / 256) as u8);
    put_byte(mem, r + 1, (v % 256) as u8);
}

pub fn put_word(mem: &mut [u8], r: usize, v: u32)
    requires { r + 4 ≤ length mem.old }
    ensures { mem.new ≡ flat_put mem.old r 4 v }
{
    put_byte(mem, r, (v / 16777216 % 256) as u8);
    put_byte(mem, r + 1, (v / 65536 % 256) as u8);
    put_byte(mem, r + 2, (v / 256 % 256) as u8);
    put_byte(mem, r + 3, (v % 256) as u8);
}

// The low bytes of v, as many as the width has.
pub fn put_field(mem: &mut [u8], r: usize, width: Width, v: u32)
    requires { r + bytes_of width ≤ length mem.old }
    ensures { mem.new ≡ flat_put mem.old r (bytes_of width) v }
{
    match width {
        Width::Word => put_word(mem, r, v),
        Width::Half => put_half(mem, r, (v % 65536) as u16),
        Width::Byte => put_byte(mem, r, (v % 256) as u8),
    }
}
