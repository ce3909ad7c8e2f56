// Multiply and divide, by sizes: numbers without their signs.
ghost use Rattle.std.specs.Prelude.{◌≡◌, ◌%◌, ◌≤◌, pos, neg_ℤ, nat_abs, ◌*ℤ◌};
ghost use Rattle.words.specs.Pick.{pick};
ghost use Rattle.words.specs.Whole.{word_top, double_top, signed, kept, overflows};
ghost use Rattle.words.specs.Wide.{product_of, pair_of};

use crate::signed;
use words::{DivideError, PairOp};

// A double word's size.
fn size_of(w: u64) -> u64
    ensures { (result ≡ nat_abs (signed double_top w)) × (result ≤ 9223372036854775808) }
{
    w.cast_signed().unsigned_abs()
}

// The double word of a size and a sign.
fn with_sign(size: u64, minus: bool) -> u64
    ensures { result ≡ kept double_top (pick minus (neg_ℤ (pos size)) (pos size)) }
{
    if minus { size.wrapping_neg() } else { size }
}

// The word of a size and a sign: the double word's right half.
fn word_with_sign(size: u64, minus: bool) -> u32
    ensures { result ≡ kept word_top (pick minus (neg_ℤ (pos size)) (pos size)) }
{
    (with_sign(size, minus) % 0x1_0000_0000) as u32
}

// Whether no word has this size and sign.
fn is_too_large(size: u64, minus: bool) -> bool
    ensures { result ≡ overflows word_top (pick minus (neg_ℤ (pos size)) (pos size)) }
{
    if minus {
        0x8000_0000 < size
    } else {
        0x7FFF_FFFF < size
    }
}

pub fn multiply(a: u32, b: u32) -> u64
    ensures { result ≡ product_of a b }
{
    let size = u64::from(signed::magnitude_of(a)) * u64::from(signed::magnitude_of(b));
    with_sign(size, (0x8000_0000 <= a) != (0x8000_0000 <= b))
}

// The low 32 bits of a product.
pub fn low_product(a: u32, b: u32) -> u32
    ensures { result ≡ kept word_top (signed word_top a *ℤ signed word_top b) }
{
    (multiply(a, b) % 0x1_0000_0000) as u32
}

fn divide(w: u64, b: u32) -> Result<u64, DivideError>
    ensures { result ≡ pair_of PairOp.Divide w b }
{
    if b == 0 {
        return Err(DivideError);
    }
    let size = size_of(w);
    let by = u64::from(signed::magnitude_of(b));
    let minus = 0x8000_0000_0000_0000 <= w;
    let unlike = minus != (0x8000_0000 <= b);
    let quotient = size / by;
    if is_too_large(quotient, unlike) {
        return Err(DivideError);
    }
    let left = word_with_sign(size % by, minus);
    let right = word_with_sign(quotient, unlike);
    Ok(u64::from(left) * 0x1_0000_0000 + u64::from(right))
}

// What is made of a pair's double word and a word.
pub fn pair(op: PairOp, w: u64, b: u32) -> Result<u64, DivideError>
    ensures { result ≡ pair_of op w b }
{
    match op {
        PairOp::Multiply => Ok(multiply((w % 0x1_0000_0000) as u32, b)),
        PairOp::Divide => divide(w, b),
    }
}
