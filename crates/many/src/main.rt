// Many sheets in one input, each after its length in decimal and LF; the answers go out in the same form. The input may end
// between two sheets. Where it ends within one, is not of that form or cannot be read, and where an answer cannot be written,
// standard error has a line that says so, and the program ends.
#![tactic(auto)]

ghost use Rattle.std.specs.Prelude.{◌<◌, IfOk};

use streams::Trouble;

// The value of a digit.
fn digit(b: u8) -> Result<usize, Trouble>
    ensures { IfOk result (λ d. d < 10) }
{
    match b {
        b'0'..=b'9' => Ok(usize::from(b - b'0')),
        _ => Err(Trouble::Malformed),
    }
}

// The length in front of a sheet: at most twelve digits, which no remainder cuts, and LF. None where the input ends before it.
fn take_length(rt: &HostRuntime) -> Result<Option<usize>, Trouble> {
    let Some(first) = streams::first_bytes::<1>(rt)? else {
        return Ok(None);
    };
    let mut value = digit(first[0])?;
    for _ in 1..13 {
        let [b] = streams::next_bytes::<1>(rt)?;
        if b == b'\n' {
            return Ok(Some(value));
        }
        value = value % 100_000_000_000 * 10 + digit(b)?;
    }
    Err(Trouble::Malformed)
}

// Reads past n more bytes.
fn skip(rt: &HostRuntime, n: usize) -> Result<(), Trouble> {
    let mut chunk = [0; 4096];
    for _ in 0..n / 4096 {
        streams::fill_within(rt, &mut chunk)?;
    }
    streams::fill_within(rt, &mut chunk[..n % 4096])
}

fn write_text(rt: &HostRuntime, text: &[u8]) -> Result<(), Trouble> {
    // The length, its line's end and the text go out by themselves, so that an output that is full keeps as much of them as fits.
    rt.print(text.len()).map_err(|_| Trouble::Unwritten)?;
    streams::write(rt, b"\n")?;
    streams::write(rt, text)
}

// A sheet that fills its room, and as many bytes more as there was no room for.
fn answer(rt: &HostRuntime, sheet: &mut [u8], more: usize) -> Result<(), Trouble> {
    streams::fill_within(rt, sheet)?;
    skip(rt, more)?;
    write_text(rt, sheet::answer(sheet).as_slice())
}

// A sheet of n bytes and its answer.
fn answer_of(rt: &HostRuntime, n: usize) -> Result<(), Trouble> {
    // One byte more than a sheet may have is enough to know that it is too long.
    let mut room = [0; 65537];
    let kept = n.min(65537);
    answer(rt, &mut room[..kept], n - kept)
}

// The next sheet and its answer; whether there was one.
fn answer_next(rt: &HostRuntime) -> Result<bool, Trouble> {
    let Some(n) = take_length(rt)? else {
        return Ok(false);
    };
    answer_of(rt, n)?;
    Ok(true)
}

fn main(rt: HostRuntime) {
    streams::each(&rt, b"many", b"sheet", answer_next);
}
