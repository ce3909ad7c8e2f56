// What the lines of a sheet do, one after another.
ghost use Rattle.std.specs.Prelude.{◌≡◌, ◌≤◌, length};
ghost use Rattle.reading.specs.Cut.{count};
ghost use Rattle.reading.specs.Line.{line_of};
ghost use Rattle.reading.specs.Within.{as_line, HexBehind, SameLent, start_of, state_of, stepped, as_stepped, as_left, read_lines};

use crate::cut::front;
use crate::line::{Line, read_line};
use crate::store::{give, put, put_bytes};
use crate::{BadLine, Start};

// Which kind of line was the last: at first, and after a PAGE line, a sheet is at its pages.
#[derive(Clone, Copy, PartialEq, Eq, PartialOrd, Ord)]
pub enum Stage {
    Pages,
    Bytes,
    Regs,
    Started,
    Complete,
}

// How far a sheet has got, and what START and RUN have said.
#[derive(Clone, Copy)]
pub struct Progress {
    pub stage: Stage,
    pub said: Start,
}

// What a sheet is read onto, which the caller lends, and whether a line gave each page and each register.
#[derive(Drop)]
pub struct Onto<'a> {
    pub mem: &'a mut [u8],
    pub map: &'a mut [u16],
    pub regs: &'a mut [u32],
    pub pages: [bool; 512],
    pub named: [bool; 16],
}

impl Onto<'_> {
    // What a line leads to, if it may stand here.
    #[tactic(auto, unfolding(crate::specs::Sheet::set_by))]
    fn take_line(&mut self, line: Line, p: Progress) -> Option<Progress>
        requires { HexBehind (Some line) }
        ensures same { SameLent self.old self.new }
        ensures steps { as_stepped result self.new ≡ stepped (state_of p self.old) (as_line (Some line.entry)) }
    {
        match line {
            Line::Page(n, w) if p.stage == Stage::Pages => {
                give(&mut self.pages, n)?;
                put(self.map, n as usize, w);
                Some(p)
            }
            Line::Bytes(a, digits) if p.stage <= Stage::Bytes => {
                put_bytes(self.mem, a, digits);
                Some(Progress {
                    stage: Stage::Bytes,
                    ..p
                })
            }
            Line::Reg(n, v) if p.stage <= Stage::Regs => {
                give(&mut self.named, n)?;
                put(self.regs, n as usize, v);
                Some(Progress {
                    stage: Stage::Regs,
                    ..p
                })
            }
            Line::Start(pc, code, mask) if p.stage <= Stage::Regs => Some(Progress {
                stage: Stage::Started,
                said: Start {
                    pc,
                    code,
                    mask,
                    ..p.said
                },
            }),
            Line::Run(budget) if p.stage == Stage::Started => Some(Progress {
                stage: Stage::Complete,
                said: Start { budget, ..p.said },
            }),
            _ => None,
        }
    }

    // What the line of a text leads to.
    fn take_text(&mut self, text: &[u8], p: Progress) -> Option<Progress>
        ensures same { SameLent self.old self.new }
        ensures steps { as_stepped result self.new ≡ stepped (state_of p self.old) (line_of text.now) }
    {
        let line = read_line(text)?;
        self.take_line(line, p)
    }

    // The lines of a sheet, each with its line end.
    pub fn read_lines(&mut self, sheet: &[u8]) -> Result<Start, BadLine>
        requires { length sheet.now ≤ 65536 }
        ensures same { SameLent self.old self.new }
        ensures reads { as_left result self.new ≡ read_lines (count 10 sheet.now) 1 sheet.now (state_of start_of self.old) }
    {
        let mut p = Progress {
            stage: Stage::Pages,
            said: Start::default(),
        };
        let mut line = 1;
        let mut rest = sheet;
        // Not over `split_inclusive`: each piece would have to be asked for its line end all the same.
        while !rest.is_empty() {
            let text = front(rest, b'\n');
            if text.len() == rest.len() {
                return Err(BadLine { line });
            }
            p = self.take_text(text, p).ok_or(BadLine { line })?;
            // Not `back`, which would look for the line end again.
            rest = &rest[text.len() + 1..];
            line += 1;
        }
        if p.stage == Stage::Complete {
            Ok(p.said)
        } else {
            Err(BadLine { line })
        }
    }
}
