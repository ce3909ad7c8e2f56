// A case, all numbers big-endian:
//
//     kind, 1 byte: 0 a step, 1 a run, 2 a look-up, 3 a step that is a move or a compare, byte by byte
//     length of memory, 4 bytes, at most 270,336
//     number of page words, 2 bytes, at most 600
//     number of registers, 1 byte, at most 32
//     page words, 2 bytes each; registers, 4 bytes each
//     counter, code, mask, budget, 4 bytes each; of a look-up the address, and 0, 1 or 2 for a fetch, a load or a store
//     number of pieces of memory, 2 bytes
//     pieces, each within memory: address, 4 bytes; length, 1 byte; the bytes
//
// What no piece names is zero. Between the kind with the lengths, 8 bytes, and the pieces stand at most 1,346 bytes.
ghost use Rattle.std.specs.Prelude.{◌≤◌};

use streams::Trouble;

// What a case asks for.
#[derive(Clone, Copy, Debug, PartialEq, Eq)]
pub enum Kind {
    Step,
    Run,
    LookUp,
    Plain, // a step that is a move or a compare, byte by byte
}

impl TryFrom<u8> for Kind {
    type Error = Trouble;

    fn try_from(number: u8) -> Result<Kind, Trouble> {
        match number {
            0 => Ok(Kind::Step),
            1 => Ok(Kind::Run),
            2 => Ok(Kind::LookUp),
            3 => Ok(Kind::Plain),
            _ => Err(Trouble::Malformed),
        }
    }
}

// What a case begins with: its kind, and how long its lists are.
#[derive(Drop)]
pub struct Head {
    pub kind: Kind,
    pub mem: usize,
    pub map: usize,
    pub regs: usize,
    ghost mem_fits: { mem ≤ 270336 },
    ghost map_fits: { map ≤ 600 },
    ghost regs_fit: { regs ≤ 32 },
}

impl TryFrom<[u8; 8]> for Head {
    type Error = Trouble;

    fn try_from(bytes: [u8; 8]) -> Result<Head, Trouble> {
        let [kind, m1, m2, m3, m4, w1, w2, regs] = bytes;
        let kind = Kind::try_from(kind)?;
        let mem = u32::from_be_bytes([m1, m2, m3, m4]) as usize;
        let map = usize::from(u16::from_be_bytes([w1, w2]));
        let regs = usize::from(regs);
        if mem > 270336 || map > 600 || regs > 32 {
            return Err(Trouble::Malformed);
        }
        Ok(Head {
            kind,
            mem,
            map,
            regs,
        })
    }
}

// The scalars, with the number of pieces.
#[derive(Clone, Copy)]
pub struct Scalars {
    pub pc: u32,
    pub code: u32,
    pub mask: u32,
    pub budget: u32,
    pub pieces: u16,
}

// A number that N bytes make.
pub trait Number<const N: usize>: Drop {
    fn of(bytes: [u8; N]) -> Self;
}

impl Number<2> for u16 {
    fn of(bytes: [u8; 2]) -> u16 {
        u16::from_be_bytes(bytes)
    }
}

impl Number<4> for u32 {
    fn of(bytes: [u8; 4]) -> u32 {
        u32::from_be_bytes(bytes)
    }
}

// The first number, and the bytes behind it.
fn first_of<const N: usize, T: Number<N>>(bytes: &[u8]) -> Result<(T, &[u8]), Trouble>
    requires { N ≤ 4 }
{
    let (first, behind) = bytes.split_first_chunk::<N>().ok_or(Trouble::Cut)?;
    Ok((T::of(*first), behind))
}

// A list of numbers from the first bytes; the bytes behind it.
pub fn list_of<'a, const N: usize, T: Number<N>>(
    list: &mut [T],
    bytes: &'a [u8],
) -> Result<&'a [u8], Trouble>
    requires { N ≤ 4 }
{
    let mut rest = bytes;
    for item in list {
        let (number, behind) = first_of(rest)?;
        *item = number;
        rest = behind;
    }
    Ok(rest)
}

// The scalars, eighteen bytes.
pub fn scalars_of(bytes: &[u8]) -> Result<Scalars, Trouble> {
    let (pc, rest) = first_of(bytes)?;
    let (code, rest) = first_of(rest)?;
    let (mask, rest) = first_of(rest)?;
    let (budget, rest) = first_of(rest)?;
    let (pieces, _) = first_of(rest)?;
    Ok(Scalars {
        pc,
        code,
        mask,
        budget,
        pieces,
    })
}

// A piece's head comes in one read.
fn take_piece(rt: &HostRuntime, mem: &mut [u8]) -> Result<(), Trouble> {
    let [a1, a2, a3, a4, len] = streams::next_bytes::<5>(rt)?;
    let from = u32::from_be_bytes([a1, a2, a3, a4]) as usize;
    let piece = mem
        .get_mut(from..from + usize::from(len))
        .ok_or(Trouble::Malformed)?;
    streams::fill_within(rt, piece)
}

// Memory comes as zeros.
pub fn take_memory(rt: &HostRuntime, mem: &mut [u8], pieces: u16) -> Result<(), Trouble> {
    for _ in 0..pieces {
        take_piece(rt, mem)?;
    }
    Ok(())
}
