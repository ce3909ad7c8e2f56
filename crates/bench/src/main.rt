// The bench: one sheet from standard input, its answer to standard output. Where the one cannot be read or the other not written,
// standard error has a line that says so.
#![tactic(auto)]

use streams::Trouble;

fn answer(rt: &HostRuntime) -> Result<(), Trouble> {
    // One byte more than a sheet may have is enough to know that it is too long.
    let mut room = [0; 65537];
    let text = sheet::answer(streams::take(rt, &mut room)?);
    streams::write(rt, text.as_slice())
}

fn main(rt: HostRuntime) {
    streams::tell(&rt, b"bench", b"sheet", 1, answer(&rt));
}
