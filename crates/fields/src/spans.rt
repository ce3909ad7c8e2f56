// The quick way of a move and of a compare over the edge of a page: each field in at most two stretches, each asked for once. Cut where either
// of them ends, so that within a piece both lie together; the pieces in order, each by the rule for its own real addresses. Whatever does
// not lie so goes the plain way.
ghost use Rattle.std.specs.Prelude.{◌≡◌, ◌+◌, ◌^◌, ◌<◌, ◌≤◌, true, false, length, Ok, IfSome, IsSome};
ghost use Rattle.pages.specs.Tests.{is_store};
ghost use Rattle.pages.specs.declared.Access.TheVariants.{Load, Store};
ghost use Rattle.pages.specs.Look.{look_of};
ghost use Rattle.pages.specs.Framed.{framed_of};
ghost use Rattle.fields.specs.Spans.{spot_of, rest_of, Spans, Paged, Edged};
ghost use Rattle.fields.specs.Direct.{note_field, Clear};
ghost use Rattle.fields.specs.Both.{look_both, moved_by, order_of, noted_by};

use crate::{Span, blocks, each};
use pages::{Access, Refusal, Spot};

// Where a field of n bytes lies whose first byte was found: in one stretch, or in two; none where it does not lie so, which of a field of at
// most 2,048 bytes says that a byte of it is refused.
fn span_of(map: &[u16], size: usize, access: Access, a: u32, n: u32, first: Spot) -> Option<Span>
    requires { (0 < n) × (look_of map.now size access a ≡ Ok first) }
    ensures { IfSome result (λ s. (0 < s.len) × Spans map.now size access a n s) × (n ≤ 2048 → Clear map.now size access a n → IsSome result) }
{
    if n <= first.reach {
        return Some(Span {
            at: first.at,
            len: n,
            on: 0,
        });
    }
    let Ok(next) = lookup::look_up(map, size, access, lookup::past_of(a, first.reach)) else {
        return None;
    };
    if next.reach < n - first.reach {
        return None;
    }
    Some(Span {
        at: first.at,
        len: first.reach,
        on: next.at,
    })
}

// Where byte i of it lies.
fn spot_of(s: Span, i: u32) -> usize
    requires { spot_of s i < 2 ^ 64 }
    ensures { result ≡ spot_of s i }
{
    if i < s.len {
        return s.at + i as usize;
    }
    s.on + (i - s.len) as usize
}

// How many of its n bytes lie together from byte i on.
fn rest_of(s: Span, n: u32, i: u32) -> u32
    requires { i ≤ n }
    ensures { result ≡ rest_of s n i }
{
    if i < s.len {
        return s.len - i;
    }
    n - i
}

// G set on the one page of its bytes, or on both.
fn note_span(map: &mut [u16], a: u32, n: u32, len: u32)
    requires { Paged a n len }
    ensures { map.new ≡ note_field map.old a n }
{
    lookup::mark(map, Access::Load, a);
    if len < n {
        lookup::mark(map, Access::Load, lookup::past_of(a, len));
    }
}

// A move whose first bytes were found; like each::move_field.
pub fn move_over(
    mem: &mut [u8],
    map: &mut [u16],
    to: u32,
    from: u32,
    n: u32,
    there: Spot,
    here: Spot,
) -> Result<Spot, Refusal>
    requires { (0 < n) × (look_of map.old (length mem.old) Store to ≡ Ok there) × (look_of map.old (length mem.old) Load from ≡ Ok here) }
    ensures { (result ≡ look_both map.old (length mem.old) Store to from n) × (framed_of mem.new map.new ≡ moved_by result mem.old map.old to from n) }
{
    let Some(s) = span_of(map, mem.len(), Access::Store, to, n, there) else {
        return each::move_field(mem, map, to, from, n);
    };
    let Some(t) = span_of(map, mem.len(), Access::Load, from, n, here) else {
        return each::move_field(mem, map, to, from, n);
    };
    note_span(map, to, n, s.len);
    note_span(map, from, n, t.len);
    let mut i: u32 = 0;
    // No `for`: a piece is as long as both fields lie together.
    while i < n {
        let step = lookup::fewer_of(rest_of(s, n, i), rest_of(t, n, i) as usize);
        blocks::move_flat(mem, spot_of(s, i), spot_of(t, i), step);
        lookup::note_written(map, lookup::past_of(to, i));
        i += step;
    }
    Ok(there)
}

// A compare whose first bytes were found; like each::compare_field. (A function beside the move, here and in each: it is lent memory to read,
// and answers a code.)
pub fn compare_over(
    mem: &[u8],
    map: &mut [u16],
    first: u32,
    second: u32,
    n: u32,
    one: Spot,
    other: Spot,
) -> Result<u32, Refusal>
    requires { (0 < n) × (look_of map.old (length mem.now) Load first ≡ Ok one) × (look_of map.old (length mem.now) Load second ≡ Ok other) }
    ensures { (result ≡ order_of (look_both map.old (length mem.now) Load first second n) mem.now map.old first second n) × (map.new ≡ noted_by (look_both map.old (length mem.now) Load first second n) map.old first second n) }
{
    let Some(s) = span_of(map, mem.len(), Access::Load, first, n, one) else {
        return each::compare_field(mem, map, first, second, n);
    };
    let Some(t) = span_of(map, mem.len(), Access::Load, second, n, other) else {
        return each::compare_field(mem, map, first, second, n);
    };
    note_span(map, first, n, s.len);
    note_span(map, second, n, t.len);
    let mut i: u32 = 0;
    // No `for`: a piece is as long as both fields lie together.
    while i < n {
        let step = lookup::fewer_of(rest_of(s, n, i), rest_of(t, n, i) as usize);
        let code = blocks::compare_flat(mem, spot_of(s, i), spot_of(t, i), step);
        if code != 0 {
            return Ok(code);
        }
        i += step;
    }
    Ok(0)
}

// A move of which one field, `a`, goes on into a second page: the stored one, or the one that is read. Its first k bytes were found, and the
// other field lies whole. Where the second page has its marks and holds the rest, both pieces are moved in order; else nothing is done.
pub fn move_edge(
    mem: &mut [u8],
    map: &[u16],
    access: Access,
    a: u32,
    x: usize,
    y: usize,
    k: u32,
    n: u32,
) -> bool
    requires { (0 < k) × (k < n) × (length map.now ≡ 512) × (x + k ≤ length mem.old) × (y + k ≤ length mem.old) × (is_store access ≡ true → y + n ≤ length mem.old) × (is_store access ≡ false → x + n ≤ length mem.old) }
    ensures { (result ≡ true → Edged access map.now a x y k n mem.old mem.new) × (result ≡ false → mem.new ≡ mem.old) }
{
    let Some(next) = lookup::look_marked(map, mem.len(), access, lookup::past_of(a, k)) else {
        return false;
    };
    if next.reach < n - k {
        return false;
    }
    blocks::move_flat(mem, x, y, k);
    match access {
        Access::Store => blocks::move_flat(mem, next.at, y + k as usize, n - k),
        Access::Load | Access::Fetch => blocks::move_flat(mem, x + k as usize, next.at, n - k),
    }
    true
}
