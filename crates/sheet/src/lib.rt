// The bench sheet: read, run, printed.
#![tactic(auto)]

ghost use Rattle.std.specs.Prelude.{◌≡◌};
ghost use Rattle.printing.specs.Answer.{text_of};
ghost use Rattle.sheet.specs.Sheet.{answer_of};

use printing::Text;
use reading::BadLine;

// The answer's bytes for any sheet's bytes.
pub fn answer(sheet: &[u8]) -> Text
    ensures { result ≡ text_of (answer_of sheet.now) }
{
    let mut mem = [0u8; 65536];
    let mut map = [0u16; 512];
    let mut regs = [0u32; 16];
    let read = reading::read_sheet(sheet, &mut mem, &mut map, &mut regs);
    match read {
        Err(BadLine { line }) => printing::bad(line),
        Ok(start) => {
            let before = map;
            let reply = engine::run(
                &mut mem,
                &mut map,
                &mut regs,
                start.pc,
                start.code,
                start.mask,
                start.budget,
            );
            printing::answer(
                reply.number,
                reply.place,
                reply.count,
                reply.pc,
                reply.code,
                reply.mask,
                &regs,
                &before,
                &map,
            )
        }
    }
}
