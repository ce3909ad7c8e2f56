// Results that are bits as they stand: sums with a carry, and words with a code of their own.
ghost use Rattle.std.specs.Prelude.{◌≡◌, ◌+◌, ◌-◌};
ghost use Rattle.words.specs.Codes.{zero_code};
ghost use Rattle.words.specs.Combine as def;

use crate::bits;
use words::{Logic, Res};

// A word with a code; nothing overflowed.
pub fn result_of(value: u32, code: u32) -> Res<u32>
    ensures { result ≡ def.result_of value code }
{
    Res {
        value,
        code,
        over: false,
    }
}

// A sum's low 32 bits, and a code that tells of zero and of the carry.
pub fn carry(sum: u64) -> Res<u32>
    ensures { result ≡ def.carried sum }
{
    let value = (sum % 0x1_0000_0000) as u32;
    let zero = crate::zero_code(value);
    if sum < 0x1_0000_0000 {
        result_of(value, zero)
    } else {
        result_of(value, 2 + zero)
    }
}

pub fn add(a: u32, b: u32) -> Res<u32>
    ensures { result ≡ def.carried (a + b) }
{
    carry(u64::from(a) + u64::from(b))
}

// The complement of b, and one, are added.
pub fn subtract(a: u32, b: u32) -> Res<u32>
    ensures { result ≡ def.carried (a + (4294967295 - b) + 1) }
{
    carry(u64::from(a) + u64::from(!b) + 1)
}

pub fn bits(op: Logic, a: u32, b: u32) -> Res<u32>
    ensures { result ≡ def.result_of (def.logic_of op a b) (zero_code (def.logic_of op a b)) }
{
    let value = bits::logic(op, a, b);
    result_of(value, crate::zero_code(value))
}
