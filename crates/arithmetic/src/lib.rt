// The machine's arithmetic, against the whole numbers that words stand for.
#![tactic(auto)]

ghost use Rattle.std.specs.Prelude.{◌≡◌};
ghost use Rattle.std.specs.Int.Signed.{lt_z};
ghost use Rattle.words.specs.Whole.{word_top, signed, spread};
ghost use Rattle.words.specs.Codes.{compare_bits, mask_code, zero_code};
ghost use Rattle.words.specs.Combine.{combine_of, shifted_left, shifted_right};

use std::cmp::Ordering;
use words::{Alu, Res};

pub mod signed; // signed.rt: signed results, by numbers that are lifted above zero
pub mod bits; // bits.rt: bit by bit, once for every width
pub mod logical; // logical.rt: sums with a carry
pub mod wide; // wide.rt: multiply and divide
pub mod shifts; // shifts.rt: signed shifts, over the width

pub fn combine(op: Alu, a: u32, b: u32, code: u32) -> Res<u32>
    ensures { result ≡ combine_of op a b code }
{
    match op {
        Alu::Load => logical::result_of(b, code),
        Alu::Test => signed::test(b),
        Alu::Complement => signed::complement(b),
        Alu::Positive => signed::positive(b),
        Alu::Negative => signed::negative(b),
        Alu::Add => signed::add(a, b),
        Alu::Subtract => signed::subtract(a, b),
        Alu::Compare => logical::result_of(a, signed::compare(a, b)),
        Alu::AddLogical => logical::add(a, b),
        Alu::SubtractLogical => logical::subtract(a, b),
        Alu::CompareLogical => logical::result_of(a, compare_bits(a, b)),
        Alu::Bits(l) => logical::bits(l, a, b),
        Alu::LowProduct => logical::result_of(wide::low_product(a, b), code),
    }
}

pub fn zero_code(v: u32) -> u32
    ensures { result ≡ zero_code v }
{
    if v == 0 { 0 } else { 1 }
}

pub fn compare_bits(a: u32, b: u32) -> u32
    ensures { result ≡ compare_bits a b }
{
    match a.cmp(&b) {
        Ordering::Less => 1,
        Ordering::Equal => 0,
        Ordering::Greater => 2,
    }
}

pub fn mask_code(b: u8, mask: u8) -> u32
    ensures { result ≡ mask_code b mask }
{
    let chosen = b & mask;
    if chosen == 0 {
        0
    } else if chosen == mask {
        3
    } else {
        1
    }
}

// The sign bit weighs -32768 in a halfword, and the 17 copies of it in the word weigh the same.
pub fn widen(h: u16) -> u32
    ensures { result ≡ spread h }
{
    if h < 0x8000 {
        u32::from(h)
    } else {
        u32::from(h) + 0xFFFF_0000
    }
}

pub fn shift_left(a: u32, n: u32) -> u32
    ensures { result ≡ shifted_left a n }
{
    let amount = n % 64;
    if amount < 32 {
        ((u64::from(a) << amount) % 0x1_0000_0000) as u32
    } else {
        0
    }
}

pub fn shift_right(a: u32, n: u32) -> u32
    ensures { result ≡ shifted_right a n }
{
    let places = n % 64;
    if places < 32 { a >> places } else { 0 }
}

// Whether a is above b, both signed.
pub fn high(a: u32, b: u32) -> bool
    ensures { result ≡ lt_z (signed word_top b) (signed word_top a) }
{
    b.cast_signed() < a.cast_signed()
}
