// Standard input and output for the programs: how far a read came, whether a write went through, and one line on standard error
// where something went wrong. The programs always end with status 0, so that line is how their caller knows.
#![tactic(auto)]

ghost use Rattle.std.specs.Prelude.{◌≡◌, ◌≤◌, length, IfOk, IfErr, IfSome};

use std::io::Read;

// What went wrong with reading an entry or writing its answer.
#[derive(Clone, Copy, Debug, PartialEq, Eq)]
pub enum Trouble {
    Cut, // the input ended within the entry
    Malformed, // the entry is not of the form
    Unread, // a read failed
    Unwritten, // a write failed
}

// A read failed, when so many bytes had come.
#[derive(Clone, Copy, Debug, PartialEq, Eq)]
pub struct Failed {
    pub count: usize,
}

impl From<Failed> for Trouble {
    fn from(_: Failed) -> Trouble {
        Trouble::Unread
    }
}

// Reads until the room is full or the input ends; how many bytes that were.
fn read(rt: &HostRuntime, room: &mut [u8]) -> Result<usize, Failed>
    ensures ok { IfOk result (λ n. n ≤ length room.new) }
    ensures failed { IfErr result (λ f. f.count ≤ length room.new) }
{
    let mut done = 0;
    // No `for`: what a read takes says where the next begins.
    while done < room.len() {
        let Ok(n) = rt.stdin().read(&mut room[done..]) else {
            return Err(Failed { count: done });
        };
        // No byte comes at the input's end.
        if n == 0 {
            break;
        }
        done += n;
    }
    Ok(done)
}

// The input's next bytes: as many as there is room for, fewer where the input ends before. Where a read fails, those that had come before
// it stand in the room.
pub fn take<'a>(rt: &HostRuntime, room: &'a mut [u8]) -> Result<&'a [u8], Failed>
    ensures ok { IfOk result (λ bytes. length bytes.now ≤ length room.old) }
    ensures failed { IfErr result (λ f. f.count ≤ length room.old) }
{
    let n = read(rt, room)?;
    Ok(&room[..n])
}

// Fills the room with an entry's first bytes; whether there were any, for the input may end before them.
pub fn fill(rt: &HostRuntime, room: &mut [u8]) -> Result<bool, Trouble> {
    let n = read(rt, room)?;
    if n == room.len() {
        return Ok(true);
    }
    if n == 0 { Ok(false) } else { Err(Trouble::Cut) }
}

// An entry's first bytes; none where the input ends before them.
pub fn first_bytes<const N: usize>(rt: &HostRuntime) -> Result<Option<[u8; N]>, Trouble>
    ensures { IfOk result (λ found. IfSome found (λ bytes. length bytes ≡ N)) }
{
    let mut bytes = [0; N];
    if fill(rt, &mut bytes)? {
        Ok(Some(bytes))
    } else {
        Ok(None)
    }
}

// An entry's further bytes.
pub fn next_bytes<const N: usize>(rt: &HostRuntime) -> Result<[u8; N], Trouble>
    ensures { IfOk result (λ bytes. length bytes ≡ N) }
{
    let mut bytes = [0; N];
    fill_within(rt, &mut bytes)?;
    Ok(bytes)
}

// Fills the room with an entry's further bytes.
pub fn fill_within(rt: &HostRuntime, room: &mut [u8]) -> Result<(), Trouble> {
    if fill(rt, room)? {
        Ok(())
    } else {
        Err(Trouble::Cut)
    }
}

pub fn write(rt: &HostRuntime, bytes: &[u8]) -> Result<(), Trouble> {
    rt.write_all(bytes).map_err(|_| Trouble::Unwritten)
}

// What standard error does not take is lost.
fn say(rt: &HostRuntime, text: &[u8]) {
    let _ = rt.stderr().write_all(text);
}

// What went wrong with which of the entries, and the line's end.
fn say_where(rt: &HostRuntime, what: &[u8], entry: &[u8], n: u64) {
    say(rt, what);
    say(rt, entry);
    say(rt, b" ");
    let _ = rt.eprint(n);
    say(rt, b"\n");
}

// One line on standard error, where something went wrong: what, and with which of the entries, counted from 1. (No `eprintln!`: a program's
// and an entry's name are any bytes.)
pub fn tell(rt: &HostRuntime, program: &[u8], entry: &[u8], n: u64, went: Result<(), Trouble>) {
    let Err(trouble) = went else {
        return;
    };
    say(rt, program);
    match trouble {
        Trouble::Cut => say_where(rt, b": the input ends within ", entry, n),
        Trouble::Malformed => say_where(rt, b": the input is not of the form at ", entry, n),
        Trouble::Unread => say(rt, b": standard input cannot be read\n"),
        Trouble::Unwritten => say(rt, b": the answer could not be written\n"),
    }
}

// Entry after entry, each by a call of `answer`, which says whether there was one. The first trouble ends this, and is told.
pub fn each<F: Fn(&HostRuntime) -> Result<bool, Trouble>>(
    rt: &HostRuntime,
    program: &[u8],
    entry: &[u8],
    answer: F,
)
    requires { F.IsAlwaysCallable answer }
{
    // Nothing says that the input ends, so the entries are counted up to a number that no run reaches.
    for n in 1..u64::MAX {
        match answer(rt) {
            Ok(true) => {}
            Ok(false) => return,
            Err(trouble) => return tell(rt, program, entry, n, Err(trouble)),
        }
    }
}
