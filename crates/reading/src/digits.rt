// Numbers from the bytes of their digits.
ghost use Rattle.std.specs.Prelude.{◌≡◌, ◌+◌, ◌*◌, ◌^◌, ◌≤◌, ◌<◌, leb, ltb};
ghost use Rattle.words.specs.Pick.{pick, both};
ghost use Rattle.reading.specs.Digits.{digit_of, value_of, is_decimal, is_hex, is_bytes, all_digits};

// What a digit counts, if the byte is one.
#[tactic(auto, unfolding(crate::specs::Digits::digit_of))]
pub fn digit(b: u8) -> Option<u32>
    ensures { result ≡ pick (ltb (digit_of b) 16) (Some (digit_of b)) None }
{
    match b {
        b'0'..=b'9' => Some(u32::from(b - b'0')),
        b'A'..=b'F' => Some(u32::from(b - b'A') + 10),
        _ => None,
    }
}

// A number with one more digit behind it, if it is one of the base and the number stays within `last`.
fn longer(n: u32, b: u8, base: u32, last: u32) -> Option<u32>
    requires { base ≤ 16 }
    ensures { result ≡ pick (both (ltb (digit_of b) base) (leb (n * base + digit_of b) last)) (Some (n * base + digit_of b)) None }
{
    let d = digit(b)?;
    let m = n.checked_mul(base)?.checked_add(d)?;
    if d < base && m <= last { Some(m) } else { None }
}

// A number of any length, up to `last`.
fn number(s: &[u8], base: u32, last: u32) -> Option<u32>
    requires { (0 < base) × (base ≤ 16) }
    ensures { result ≡ pick (both (all_digits base s.now) (leb (value_of base s.now) last)) (Some (value_of base s.now)) None }
{
    let mut n = 0;
    for &b in s {
        n = longer(n, b, base, last)?;
    }
    Some(n)
}

// A decimal number up to `last`.
#[tactic(auto, unfolding(crate::specs::Digits::is_decimal, crate::specs::Digits::no_leading_zero))]
pub fn decimal(s: &[u8], last: u32) -> Option<u32>
    ensures { result ≡ pick (is_decimal last s.now) (Some (value_of 10 s.now)) None }
{
    match s {
        [] | [b'0', _, ..] => None,
        _ => number(s, 10, last),
    }
}

// A hexadecimal number of k digits, the largest of which is `last`.
#[tactic(auto, using(crate::proofs::Numbers::hex_is), unfolding(crate::specs::Digits::is_hex))]
pub fn hex(s: &[u8], k: usize, last: u32) -> Option<u32>
    requires { last + 1 ≡ 16 ^ k }
    ensures { result ≡ pick (is_hex k s.now) (Some (value_of 16 s.now)) None }
{
    if s.len() == k {
        number(s, 16, last)
    } else {
        None
    }
}

// Whether the text is 1 to 32 bytes in hexadecimal.
#[tactic(auto, unfolding(crate::specs::Digits::is_bytes))]
pub fn hex_bytes(s: &[u8]) -> bool
    ensures { result ≡ is_bytes s.now }
{
    match s.len() {
        2..=64 if s.len() % 2 == 0 => s.iter().all(|&b| digit(b).is_some()),
        _ => false,
    }
}
