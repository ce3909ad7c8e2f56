// Signed results without negative numbers. A word is lifted by 2^31, so that its least value is 0, and a result by 2^32; a lifted
// number t stands for the whole number `sub_ℕ t 4294967296`.
ghost use Rattle.std.specs.Prelude.{◌≡◌, ◌+◌, ◌%◌, ◌≤◌, nat_abs, neg_ℤ, ◌+ℤ◌, ◌-ℤ◌};
ghost use Rattle.std.proofs.Math.IntN.{sub_ℕ};
ghost use Rattle.words.specs.Whole.{word_top, signed, magnitude};
ghost use Rattle.words.specs.Codes.{compare_signed};
ghost use Rattle.words.specs.Combine.{signed_result};

use crate::logical;
use words::Res;

// The signed value plus 2^31.
pub fn lift(a: u32) -> u32
    ensures { signed word_top a ≡ sub_ℕ result 2147483648 }
{
    if a < 0x8000_0000 {
        a + 0x8000_0000
    } else {
        a - 0x8000_0000
    }
}

// t in units of 2^31: 1 is below zero, 2 is zero or above, anything else does not fit.
pub fn result(t: u64) -> Res<u32>
    ensures { result ≡ signed_result (sub_ℕ t 4294967296) }
{
    let value = (t % 0x1_0000_0000) as u32;
    match t / 0x8000_0000 {
        1 => logical::result_of(value, 1),
        2 if value == 0 => logical::result_of(value, 0),
        2 => logical::result_of(value, 2),
        _ => Res {
            value,
            code: 3,
            over: true,
        },
    }
}

// The signed value without its sign.
pub fn magnitude_of(a: u32) -> u32
    ensures { (result ≡ nat_abs (signed word_top a)) × (result ≤ 2147483648) }
{
    a.cast_signed().unsigned_abs()
}

pub fn test(b: u32) -> Res<u32>
    ensures { result ≡ signed_result (signed word_top b) }
{
    result(u64::from(lift(b)) + 0x8000_0000)
}

pub fn complement(b: u32) -> Res<u32>
    ensures { result ≡ signed_result (neg_ℤ (signed word_top b)) }
{
    result(0x1_8000_0000 - u64::from(lift(b)))
}

pub fn positive(b: u32) -> Res<u32>
    ensures { result ≡ signed_result (magnitude (signed word_top b)) }
{
    result(0x1_0000_0000 + u64::from(magnitude_of(b)))
}

pub fn negative(b: u32) -> Res<u32>
    ensures { result ≡ signed_result (neg_ℤ (magnitude (signed word_top b))) }
{
    result(0x1_0000_0000 - u64::from(magnitude_of(b)))
}

pub fn add(a: u32, b: u32) -> Res<u32>
    ensures { result ≡ signed_result (signed word_top a +ℤ signed word_top b) }
{
    result(u64::from(lift(a)) + u64::from(lift(b)))
}

pub fn subtract(a: u32, b: u32) -> Res<u32>
    ensures { result ≡ signed_result (signed word_top a -ℤ signed word_top b) }
{
    result(0x1_0000_0000 + u64::from(lift(a)) - u64::from(lift(b)))
}

pub fn compare(a: u32, b: u32) -> u32
    ensures { result ≡ compare_signed (signed word_top a) (signed word_top b) }
{
    crate::compare_bits(lift(a), lift(b))
}
