// The bench sheet, from its bytes to the machine's setting.
#![tactic(auto)]

pub mod cut; // cut.rt: a text cut at a mark; two texts compared
pub mod digits; // digits.rt: numbers
mod line;
mod sheet;
mod store;

ghost use Rattle.std.specs.Prelude.{◌≡◌};
ghost use Rattle.reading.specs.Sheet.{read_onto};
ghost use Rattle.reading.specs.Answered.{as_reading};

use sheet::Onto;

// What START and RUN say.
#[derive(Clone, Copy, Debug, Default, PartialEq, Eq)]
pub struct Start {
    pub pc: u32,
    pub code: u32,
    pub mask: u32,
    pub budget: u32,
}

// The number of a bad sheet's first bad line: 0 where the sheet is too long.
#[derive(Clone, Copy, Debug, PartialEq, Eq)]
pub struct BadLine {
    pub line: u32,
}

// A sheet read onto memory, page words and registers, which the caller lends zeroed.
pub fn read_sheet(
    sheet: &[u8],
    mem: &mut [u8],
    map: &mut [u16],
    regs: &mut [u32],
) -> Result<Start, BadLine>
    ensures { as_reading result mem.new map.new regs.new ≡ read_onto mem.old map.old regs.old sheet.now }
{
    if sheet.len() > 65536 {
        return Err(BadLine { line: 0 });
    }
    let mut onto = Onto {
        mem,
        map,
        regs,
        pages: [false; 512],
        named: [false; 16],
    };
    onto.read_lines(sheet)
}
