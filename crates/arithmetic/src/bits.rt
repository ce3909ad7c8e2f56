// Bit by bit, once for every width.
ghost use Rattle.std.specs.Prelude.{◌≡◌, ℕ, bit_and, bit_or, bit_xor};
ghost use Rattle.words.specs.Combine.{logic_of};

use std::ops::{BitAnd, BitOr, BitXor};
use words::Logic;

// Bits as they stand, in bytes and words: the number that they are, and that the operators do by numbers what their names say.
pub trait Bits: BitAnd<Output = Self> + BitOr<Output = Self> + BitXor<Output = Self> + Sized {
    ghost number: { Self → ℕ };

    ghost may: { (a b : Self) → Self.BitAnd.can_bitand a b × Self.BitOr.can_bitor a b × Self.BitXor.can_bitxor a b };

    ghost and_law: { (a b r : Self) → Self.BitAnd.bitand_gives a b r → number r ≡ bit_and (number a) (number b) };

    ghost or_law: { (a b r : Self) → Self.BitOr.bitor_gives a b r → number r ≡ bit_or (number a) (number b) };

    ghost xor_law: { (a b r : Self) → Self.BitXor.bitxor_gives a b r → number r ≡ bit_xor (number a) (number b) };
}

impl Bits for u8 {
    ghost number = { λ n. n };

    ghost may = { λ _ _. (tt, tt, tt) };

    ghost and_law = { λ _ _ _ e. e };

    ghost or_law = { λ _ _ _ e. e };

    ghost xor_law = { λ _ _ _ e. e };
}

impl Bits for u32 {
    ghost number = { λ n. n };

    ghost may = { λ _ _. (tt, tt, tt) };

    ghost and_law = { λ _ _ _ e. e };

    ghost or_law = { λ _ _ _ e. e };

    ghost xor_law = { λ _ _ _ e. e };
}

pub fn logic<T: Bits>(op: Logic, a: T, b: T) -> T
    ensures { T.number result ≡ logic_of op (T.number a) (T.number b) }
{
    match op {
        Logic::And => a & b,
        Logic::Or => a | b,
        Logic::Xor => a ^ b,
    }
}
