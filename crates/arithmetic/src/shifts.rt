// Signed shifts, once for every width: `top` is the weight of the sign bit. A number below zero is -1 less the complement of the bits
// below its sign.
ghost use Rattle.std.specs.Prelude.{◌≡◌, ◌+◌, ◌%◌, ◌≤◌, ◌<◌, pos};
ghost use Rattle.words.specs.Pick.{pick};
ghost use Rattle.words.specs.Whole.{word_top, double_top};
ghost use Rattle.words.specs.Codes.{sign_code};
ghost use Rattle.words.specs.SignedShifts.{shifted_of};

use words::{Direction, Res};

// The code of a number that is not below zero.
fn zero_or_above(v: u64) -> u32
    ensures { result ≡ sign_code (pos v) }
{
    if v == 0 { 0 } else { 2 }
}

// 3 where the true value does not fit, else the code of its sign.
fn code_of(over: bool, sign: u32) -> u32
    ensures { result ≡ pick over 3 sign }
{
    if over { 3 } else { sign }
}

// A power of two times a fits where a is at most (top - 1) / 2^n, or where its complement is below top / 2^n.
fn left(top: u64, a: u64, n: u32) -> Res<u64>
    requires { (top ≤ 9223372036854775808) × (18446744073709551616 % top ≡ 0) × (a < top + top) }
    ensures { result ≡ shifted_of Direction.Left top a n }
{
    let amount = n % 64;
    let bits = (a << amount) % top;
    if a < top {
        let over = (top - 1) >> amount < a;
        Res {
            value: bits,
            code: code_of(over, zero_or_above(a)),
            over,
        }
    } else {
        let over = top >> amount <= top - 1 - (a - top);
        Res {
            value: top + bits,
            code: code_of(over, 1),
            over,
        }
    }
}

fn right(top: u64, a: u64, n: u32) -> Res<u64>
    requires { (top ≤ 9223372036854775808) × (a < top + top) }
    ensures { result ≡ shifted_of Direction.Right top a n }
{
    let amount = n % 64;
    if a < top {
        let value = a >> amount;
        Res {
            value,
            code: zero_or_above(value),
            over: false,
        }
    } else {
        let complement = (top - 1 - (a - top)) >> amount;
        Res {
            value: top + (top - 1 - complement),
            code: 1,
            over: false,
        }
    }
}

fn shift(to: Direction, top: u64, a: u64, n: u32) -> Res<u64>
    requires { (top ≤ 9223372036854775808) × (18446744073709551616 % top ≡ 0) × (a < top + top) }
    ensures { result ≡ shifted_of to top a n }
{
    match to {
        Direction::Left => left(top, a, n),
        Direction::Right => right(top, a, n),
    }
}

// A word shifted is a word, and the result keeps it as one.
pub fn word(to: Direction, a: u32, n: u32) -> Res<u32>
    ensures { result ≡ shifted_of to word_top a n }
{
    let Res { value, code, over } = shift(to, 0x8000_0000, u64::from(a), n);
    Res {
        value: value as u32,
        code,
        over,
    }
}

pub fn double(to: Direction, a: u64, n: u32) -> Res<u64>
    ensures { result ≡ shifted_of to double_top a n }
{
    shift(to, 0x8000_0000_0000_0000, a, n)
}
