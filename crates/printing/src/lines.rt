// The lines of the answer.
ghost use Rattle.std.specs.Prelude.{◌≡◌, ◌++◌};
ghost use Rattle.printing.specs.Digits.{hex_of, decimal_of};
ghost use Rattle.printing.specs.Lines.{LF, field, stop_line, reg_line, start_line, page_line, bad_line};
ghost use Rattle.printing.specs.Answer.{reg_part, page_part, regs_from, pages_from};
ghost use Rattle.printing.specs.Writing.{Wrote};

use super::writing::Writer;

impl Writer<'_> {
    // A name and its first field.
    pub fn named(&mut self, name: &[u8], v: usize)
        ensures { Wrote self.old self.new (name.now ++ field (decimal_of v)) }
    {
        self.put_all(name);
        self.put_decimal(v);
    }

    // A last field, and LF.
    pub fn last_decimal(&mut self, v: usize)
        ensures { Wrote self.old self.new (field (decimal_of v) ++ LF) }
    {
        self.put_decimal(v);
        self.put(b'\n');
    }

    pub fn last_hex(&mut self, v: usize, k: usize)
        ensures { Wrote self.old self.new (field (hex_of k v) ++ LF) }
    {
        self.put_hex(v, k);
        self.put(b'\n');
    }

    pub fn stop_line(&mut self, number: usize, place: usize, count: usize)
        ensures { Wrote self.old self.new (stop_line number place count) }
    {
        self.named(b"STOP", number);
        self.put_hex(place, 6);
        self.last_decimal(count);
    }

    pub fn start_line(&mut self, pc: usize, code: usize, mask: usize)
        ensures { Wrote self.old self.new (start_line pc code mask) }
    {
        self.put_all(b"START");
        self.put_hex(pc, 6);
        self.put_decimal(code);
        self.last_decimal(mask);
    }

    pub fn reg_line(&mut self, n: usize, v: usize)
        ensures { Wrote self.old self.new (reg_line n v) }
    {
        self.named(b"REG", n);
        self.last_hex(v, 8);
    }

    pub fn page_line(&mut self, n: usize, w: usize)
        ensures { Wrote self.old self.new (page_line n w) }
    {
        self.named(b"PAGE", n);
        self.last_hex(w, 4);
    }

    pub fn bad_line(&mut self, n: usize)
        ensures { Wrote self.old self.new (bad_line n) }
    {
        self.put_all(b"BAD");
        self.last_decimal(n);
    }

    // A register that is zero has no line.
    pub fn reg_part(&mut self, n: usize, v: u32)
        ensures { Wrote self.old self.new (reg_part n v) }
    {
        if v != 0 {
            self.reg_line(n, v as usize);
        }
    }

    // A page word that stayed has no line.
    pub fn page_part(&mut self, n: usize, before: u16, after: u16)
        ensures { Wrote self.old self.new (page_part n before after) }
    {
        if before != after {
            self.page_line(n, usize::from(after));
        }
    }

    pub fn put_regs(&mut self, regs: &[u32])
        ensures { Wrote self.old self.new (regs_from 0 regs.now) }
    {
        for (n, v) in regs.iter().enumerate() {
            self.reg_part(n, *v);
        }
    }

    pub fn put_pages(&mut self, before: &[u16], after: &[u16])
        ensures { Wrote self.old self.new (pages_from 0 before.now after.now) }
    {
        for (n, (b, a)) in before.iter().zip(after).enumerate() {
            self.page_part(n, *b, *a);
        }
    }
}
