// The answer's text (document 01, "The bench sheet"), in a buffer by value.
#![tactic(auto)]

ghost use Rattle.std.specs.Prelude.{◌≡◌, ◌≤◌, length, take};
ghost use Rattle.printing.specs.Lines.{bad_line};
ghost use Rattle.printing.specs.Answer.{answer_text, text_of};

pub mod writing; // writing.rt: bytes into a buffer
pub mod digits; // digits.rt: numbers as digits
pub mod lines; // lines.rt: the lines

use writing::Writer;

// The text, then zeros. The array has its length beside it: there is no heap, and `spectra46_sheet` hands out all of its bytes.
#[derive(Drop)]
pub struct Text {
    pub bytes: [u8; 8192],
    pub len: usize,
}

impl Text {
    // The text alone.
    pub fn as_slice(&self) -> &[u8]
        ensures { result.now ≡ take self.now.len self.now.bytes }
    {
        &self.bytes[..self.len.min(8192)]
    }
}

// The single line of a sheet that is not well formed.
pub fn bad(line: u32) -> Text
    ensures { result ≡ text_of (bad_line line) }
{
    let mut bytes = [0u8; 8192];
    let mut w = Writer::new(&mut bytes);
    w.bad_line(line as usize);
    let len = w.at;
    Text { bytes, len }
}

// The answer of a run: the registers at the end, and the page words at the start and at the end. With no more of them than the
// machine has, the text fits its buffer. The six numbers are those of machine's Reply, and come one by one: this crate stands on words
// alone.
pub fn answer(
    number: u32,
    place: u32,
    count: u32,
    pc: u32,
    code: u32,
    mask: u32,
    regs: &[u32],
    before: &[u16],
    after: &[u16],
) -> Text
    requires { (length regs.now ≤ 16) × (length before.now ≤ 512) }
    ensures { result ≡ text_of (answer_text number place count pc code mask regs.now before.now after.now) }
{
    let mut bytes = [0u8; 8192];
    let mut w = Writer::new(&mut bytes);
    w.stop_line(number as usize, place as usize, count as usize);
    w.put_regs(regs);
    w.start_line(pc as usize, code as usize, mask as usize);
    w.put_pages(before, after);
    let len = w.at;
    Text { bytes, len }
}
