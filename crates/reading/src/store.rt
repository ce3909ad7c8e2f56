// Stores: past the end of a list they do nothing.
ghost use Rattle.std.specs.Prelude.{◌≡◌, true, false, ◌+◌, ◌*◌, ◌<◌, get_or, set};
ghost use Rattle.std.proofs.lemmas.List.Edits.{sets};
ghost use Rattle.words.specs.Pick.{pick};
ghost use Rattle.reading.specs.Digits.{digit_of, all_digits, pairs_of};

// Gives a number, if it is new. (No `get_mut`: see `put`.)
pub fn give(given: &mut [bool], n: u32) -> Option<()>
    ensures { (result ≡ pick (get_or given.old n false) None (Some tt)) × (given.new ≡ pick (get_or given.old n false) given.old (set given.old n true)) }
{
    let i = n as usize;
    if i < given.len() {
        if given[i] {
            return None;
        }
        given[i] = true;
    }
    Some(())
}

// No `get_mut`: of a slice after it nothing is known but its length.
pub fn put<T: Copy>(list: &mut [T], i: usize, x: T)
    ensures { list.new ≡ set list.old i x }
{
    if i < list.len() {
        list[i] = x;
    }
}

// What a digit counts. Not `digit`, which also asks whether it is one: random digits mislead the processor at each of its branches, and a
// sheet of BYTES lines took twice the time.
#[tactic(auto, unfolding(crate::specs::Digits::digit_of))]
fn known_digit(b: u8) -> u8
    requires { digit_of b < 16 }
    ensures { result ≡ digit_of b }
{
    if b <= b'9' { b - b'0' } else { b - b'A' + 10 }
}

// The byte that two hexadecimal digits stand for.
fn pair(a: u8, b: u8) -> u8
    requires { (digit_of a < 16) × (digit_of b < 16) }
    ensures { result ≡ digit_of a * 16 + digit_of b }
{
    known_digit(a) * 16 + known_digit(b)
}

// The bytes of a text of digits, stored from an address on.
pub fn put_bytes(mem: &mut [u8], a: u32, digits: &[u8])
    requires { all_digits 16 digits.now ≡ true }
    ensures { mem.new ≡ sets mem.old a (pairs_of digits.now) }
{
    // No `zip` with the places of memory: of what `iter_mut` lends only the length is known afterwards.
    let mut at = a as usize;
    let mut rest = digits;
    while let [x, y, behind @ ..] = rest {
        put(mem, at, pair(*x, *y));
        at += 1;
        rest = behind;
    }
}
