// Stretches of memory by real address: moved left to right, and compared. What goes many bytes at a time is the compiler's work, on loops
// of a form that it knows (docs/PERFORMANCE.md shows what it makes of them).
ghost use Rattle.std.specs.Prelude.{◌≡◌, ◌+◌, ◌<◌, ◌≤◌, true, false, length};
ghost use Rattle.words.specs.Codes.{compare_bits};
ghost use Rattle.fields.specs.Direct.{flat_move, flat_fill, flat_compare};
ghost use Rattle.fields.specs.Apart.{apart};

use crate::flat;

// One byte into all of a stretch.
fn fill(mem: &mut [u8], to: usize, v: u8, len: u32)
    requires { to + len ≤ length mem.old }
    ensures { mem.new ≡ flat_fill mem.old to v len }
{
    for i in 0..len as usize {
        mem[to + i] = v;
    }
}

// Byte by byte in meaning; where the stretches lie 32 or more apart, or the second one to the right, the compiler moves 32 at a time.
fn move_on(mem: &mut [u8], to: usize, from: usize, len: u32)
    requires { (to + len ≤ length mem.old) × (from + len ≤ length mem.old) }
    ensures { mem.new ≡ flat_move mem.old to from len }
{
    // Two places, stepped on: of `mem[to + i] = mem[from + i]` the compiler writes out no turns in the library's quick loop, and such a move
    // took about 1.4 times as long (docs/LOOK-BACK.md).
    let mut a = to;
    let mut b = from;
    for _ in 0..len {
        mem[a] = mem[b];
        a += 1;
        b += 1;
    }
}

// A move that does not run into itself: to the left or nowhere, or past all that it reads.
pub fn are_apart(to: usize, from: usize, len: usize) -> bool
    requires { from + len < 18446744073709551616 }
    ensures { result ≡ apart to from len }
{
    if to <= from {
        return true;
    }
    from + len <= to
}

// N to 2N bytes by their two ends, N bytes each and both read before any is stored, so that they may lap over each other.
fn ends<const N: usize>(mem: &mut [u8], to: usize, from: usize, n: usize)
    requires { (N ≤ n) × (n ≤ N + N) × (apart to from n ≡ true) × (to + n ≤ length mem.old) × (from + n ≤ length mem.old) }
    ensures { mem.new ≡ flat_move mem.old to from n }
{
    let k = n - N;
    let mut left = [0; N];
    let mut right = [0; N];
    left.copy_from_slice(&mem[from..from + N]);
    right.copy_from_slice(&mem[from + k..from + n]);
    mem[to..to + N].copy_from_slice(&left);
    mem[to + k..to + n].copy_from_slice(&right);
}

// A move of few bytes that does not run into itself, by its two ends and with no loop.
pub fn move_short(mem: &mut [u8], to: usize, from: usize, n: usize)
    requires { (0 < n) × (n ≤ 32) × (apart to from n ≡ true) × (to + n ≤ length mem.old) × (from + n ≤ length mem.old) }
    ensures { mem.new ≡ flat_move mem.old to from n }
{
    if n < 3 {
        ends::<1>(mem, to, from, n);
        return;
    }
    if n < 5 {
        ends::<2>(mem, to, from, n);
        return;
    }
    if n < 9 {
        ends::<4>(mem, to, from, n);
        return;
    }
    if n < 17 {
        ends::<8>(mem, to, from, n);
        return;
    }
    ends::<16>(mem, to, from, n);
}

// Left to right, byte by byte. One byte to the right, each byte stored is the one read next, so that the first fills all the rest.
pub fn move_flat(mem: &mut [u8], to: usize, from: usize, len: u32)
    requires { (0 < len) × (to + len ≤ length mem.old) × (from + len ≤ length mem.old) }
    ensures { mem.new ≡ flat_move mem.old to from len }
{
    if to == from + 1 {
        let v = mem[from];
        fill(mem, to, v, len);
        return;
    }
    move_on(mem, to, from, len);
}

// How far two bytes lie apart, round the end of their range: 0 only of a byte and itself.
fn apart(x: u8, y: u8) -> u8
    ensures { (result ≡ 0 → x ≡ y) × (x ≡ y → result ≡ 0) }
{
    std::num::wrapping_sub_u8(x, y)
}

// Whether n bytes are alike, by the largest of their distances: no byte is left out, so that the compiler takes 16 at a time.
fn is_alike(mem: &[u8], first: usize, second: usize, n: usize) -> bool
    requires { (first + n ≤ length mem.now) × (second + n ≤ length mem.now) }
    ensures { (result ≡ true → flat_compare mem.now first second n ≡ 0) × (flat_compare mem.now first second n ≡ 0 → result ≡ true) }
{
    let mut most: u8 = 0;
    for i in 0..n {
        let d = apart(mem[first + i], mem[second + i]);
        if most < d {
            most = d;
        }
    }
    most == 0
}

// Whether eight bytes are alike, by two words.
fn is_eight(mem: &[u8], first: usize, second: usize) -> bool
    requires { (first + 8 ≤ length mem.now) × (second + 8 ≤ length mem.now) }
    ensures { (result ≡ true → flat_compare mem.now first second 8 ≡ 0) × (flat_compare mem.now first second 8 ≡ 0 → result ≡ true) }
{
    if flat::word_of(mem, first) != flat::word_of(mem, second) {
        return false;
    }
    flat::word_of(mem, first + 4) == flat::word_of(mem, second + 4)
}

// The code of the first two bytes that differ, or 0, byte by byte.
fn compare_on(mem: &[u8], first: usize, second: usize, len: u32) -> u32
    requires { (first + len ≤ length mem.now) × (second + len ≤ length mem.now) }
    ensures { result ≡ flat_compare mem.now first second len }
{
    for i in 0..len as usize {
        let x = mem[first + i];
        let y = mem[second + i];
        if x != y {
            return if x < y { 1 } else { 2 };
        }
    }
    0
}

// Past the stretches of N bytes that are alike, as `is_same` tells of each, to the first one that is not: where what is left begins in
// either field, and how long it is.
fn past_alike<const N: u32, F: Fn(usize, usize) -> bool>(
    mem: &[u8],
    first: usize,
    second: usize,
    len: u32,
    is_same: F,
) -> (usize, usize, u32)
    requires within { (0 < N) × (first + len ≤ length mem.now) × (second + len ≤ length mem.now) }
    requires asked { (a b : _) → a + N ≤ length mem.now → b + N ≤ length mem.now → F.pre is_same a b }
    requires told { (a b : _) → F.post is_same a b true → flat_compare mem.now a b N ≡ 0 }
    ensures same { flat_compare mem.now first second len ≡ flat_compare mem.now result.0 result.1 result.2 }
    ensures within { (result.0 + result.2 ≤ length mem.now) × (result.1 + result.2 ≤ length mem.now) }
{
    let mut a = first;
    let mut b = second;
    let mut left = len;
    while N <= left {
        if !is_same(a, b) {
            break;
        }
        a += N as usize;
        b += N as usize;
        left -= N;
    }
    (a, b, left)
}

// By stretches of 64 bytes as long as they are alike, then by eights; the first eight that is not, and what is left, byte by byte.
pub fn compare_flat(mem: &[u8], first: usize, second: usize, len: u32) -> u32
    requires { (first + len ≤ length mem.now) × (second + len ≤ length mem.now) }
    ensures { result ≡ flat_compare mem.now first second len }
{
    let (a, b, left) = past_alike::<64, _>(mem, first, second, len, |a, b| is_alike(mem, a, b, 64));
    let (a, b, left) = past_alike::<8, _>(mem, a, b, left, |a, b| is_eight(mem, a, b));
    compare_on(mem, a, b, left)
}

// 0 equal, 1 first low, 2 first high. (As in arithmetic, which this crate does not stand on.)
fn order_of(x: u32, y: u32) -> u32
    ensures { result ≡ compare_bits x y }
{
    if x < y {
        return 1;
    }
    if y < x {
        return 2;
    }
    0
}

// One to three bytes: the first, the middle one and the last.
fn ordered_ones(mem: &[u8], first: usize, second: usize, n: usize) -> u32
    requires { (0 < n) × (n ≤ 3) × (first + n ≤ length mem.now) × (second + n ≤ length mem.now) }
    ensures { result ≡ flat_compare mem.now first second n }
{
    if mem[first] != mem[second] {
        return order_of(mem[first] as u32, mem[second] as u32);
    }
    let k = n / 2;
    if mem[first + k] != mem[second + k] {
        return order_of(mem[first + k] as u32, mem[second + k] as u32);
    }
    order_of(mem[first + n - 1] as u32, mem[second + n - 1] as u32)
}

// A word and the word k bytes on, which may lap over it: where the first words are alike, so is all that the second ones share with them.
fn ordered_four(mem: &[u8], first: usize, second: usize, k: usize) -> u32
    requires { (k ≤ 4) × (first + (k + 4) ≤ length mem.now) × (second + (k + 4) ≤ length mem.now) }
    ensures { result ≡ flat_compare mem.now first second (k + 4) }
{
    let x = flat::word_of(mem, first);
    let y = flat::word_of(mem, second);
    if x != y {
        return order_of(x, y);
    }
    order_of(
        flat::word_of(mem, first + k),
        flat::word_of(mem, second + k),
    )
}

// A compare of few bytes, word by word from both ends and with no loop.
pub fn compare_short(mem: &[u8], first: usize, second: usize, n: usize) -> u32
    requires { (0 < n) × (n ≤ 16) × (first + n ≤ length mem.now) × (second + n ≤ length mem.now) }
    ensures { result ≡ flat_compare mem.now first second n }
{
    if n < 4 {
        return ordered_ones(mem, first, second, n);
    }
    if n < 9 {
        return ordered_four(mem, first, second, n - 4);
    }
    let k = ordered_four(mem, first, second, 4);
    if k != 0 {
        return k;
    }
    let j = n - 8;
    ordered_four(mem, first + j, second + j, 4)
}
