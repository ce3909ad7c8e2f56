// Numbers as digits.
ghost use Rattle.std.specs.Prelude.{◌≡◌, ◌/◌, ◌%◌, ◌^◌, ◌≤◌, ◌<◌};
ghost use Rattle.printing.specs.Digits.{digit, digits_of, hex_of, decimal_of};
ghost use Rattle.printing.specs.Lines.{field};
ghost use Rattle.printing.specs.Writing.{Wrote};

use super::writing::Writer;

// v without its last k digits.
pub fn without(v: usize, base: usize, k: usize) -> usize
    requires { 0 < base }
    ensures { result ≡ v / base ^ k }
{
    let mut rest = v;
    for _ in 0..k {
        rest /= base;
    }
    rest
}

// The character of v's digit that k digits follow.
pub fn digit_at(v: usize, base: usize, k: usize) -> u8
    requires { (0 < base) × (base ≤ 16) }
    ensures { result ≡ digit (v / base ^ k % base) }
{
    let d = without(v, base, k) % base;
    if d < 10 {
        b'0' + d as u8
    } else {
        b'A' + (d - 10) as u8
    }
}

// How many digits v has in decimal, with no leading zero. From below, by comparing, with no division for a digit: most numbers that are
// printed have few digits. `decimal_of` knows ten, so what stands above them is left out.
pub fn width(v: usize) -> usize
    ensures { digits_of 10 result v ≡ decimal_of v }
{
    let low = v % 10_000_000_000;
    let mut bound = 10;
    for digits in 1..10 {
        if low < bound {
            return digits;
        }
        bound *= 10;
    }
    10
}

impl Writer<'_> {
    // The low k digits of v.
    pub fn put_digits(&mut self, v: usize, base: usize, k: usize)
        requires { (0 < base) × (base ≤ 16) }
        ensures { Wrote self.old self.new (digits_of base k v) }
    {
        for behind in (0..k).rev() {
            self.put(digit_at(v, base, behind));
        }
    }

    // v in decimal.
    pub fn put_number(&mut self, v: usize)
        ensures { Wrote self.old self.new (decimal_of v) }
    {
        self.put_digits(v, 10, width(v));
    }

    // A tab and v in decimal.
    pub fn put_decimal(&mut self, v: usize)
        ensures { Wrote self.old self.new (field (decimal_of v)) }
    {
        self.put(b'\t');
        self.put_number(v);
    }

    // A tab and the low k hex digits of v.
    pub fn put_hex(&mut self, v: usize, k: usize)
        ensures { Wrote self.old self.new (field (hex_of k v)) }
    {
        self.put(b'\t');
        self.put_digits(v, 16, k);
    }
}
