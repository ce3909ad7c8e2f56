// The look-up of a byte, reading and storing through it, and the marks.
#![tactic(auto)]

ghost use Rattle.std.specs.Prelude.{◌≡◌, ◌<◌, ◌+◌, ◌-◌, ◌%◌, eqb, length};
ghost use Rattle.words.specs.Pick.{both};
ghost use Rattle.pages.specs.Word.{page_of, disp_of, word_of, base, size, bit_e};
ghost use Rattle.pages.specs.Tests.{is_store};
ghost use Rattle.pages.specs.Look.{Refused, fewer, look_of};
ghost use Rattle.pages.specs.Framed.{framed_of, written_at, read_byte, write_byte};
ghost use Rattle.lookup.specs.Barred.{barred, cause_of};
ghost use Rattle.lookup.specs.Marked.{marked, with_marks, marks_of, WholeLook, MarkedLook};

use pages::{Access, Cause, Refusal, Spot};

// The address so many bytes on.
pub fn past_of(a: u32, n: u32) -> u32
    ensures { result ≡ (a + n) % 16777216 }
{
    ((u64::from(a) + u64::from(n)) % 16777216) as u32
}

// The word of a page, by its whole number; 0 for a page that the map lacks.
fn word_at(map: &[u16], page: usize) -> u16
    ensures { result ≡ word_of map.now page }
{
    map.get(page).copied().unwrap_or(0)
}

// The word of the page of an address.
fn word_for(map: &[u16], a: u32) -> u16
    ensures { result ≡ word_of map.now (page_of a) }
{
    word_at(map, (a / 4096) as usize)
}

fn is_store(access: Access) -> bool
    ensures { result ≡ is_store access }
{
    match access {
        Access::Fetch | Access::Load => false,
        Access::Store => true,
    }
}

// Test 6: a store into a page that is not to be written.
fn denied(w: u16, access: Access) -> bool
    ensures { result ≡ both (eqb (bit_e w) 1) (is_store access) }
{
    w / 2048 % 2 == 1 && is_store(access)
}

// Tests 2, 3, 5 and 6, for which the page's word is enough.
fn is_barred(w: u16, access: Access) -> bool
    ensures { result ≡ barred w access }
{
    if w / 8192 % 2 == 0 {
        return true;
    }
    if 0 < w / 64 % 8 {
        return true;
    }
    if w / 4096 % 2 == 0 {
        return true;
    }
    denied(w, access)
}

// What a page that bars the access is refused with: U is tested first, and the other tests have one cause.
fn cause_of(w: u16) -> Cause
    ensures { result ≡ cause_of w }
{
    if w / 8192 % 2 == 0 {
        return Cause::PagingQueue;
    }
    Cause::PagingError
}

// Where a page's first byte lies.
fn base_of(w: u16) -> usize
    ensures { (result ≡ base w) × (result < 262144) }
{
    let f = usize::from(w % 64) * 4096;
    if w / 512 % 4 == 3 {
        return f + 2048;
    }
    f
}

// Where a page's first byte lies, and how many of its bytes there are from an address on; none past its end.
#[derive(Clone, Copy)]
struct Rest {
    base: usize,
    left: u32,
}

// One test for both, and the commoner kind of page first.
fn rest_of(w: u16, a: u32) -> Rest
    ensures { (result.base ≡ base w) × (result.left ≡ size w - disp_of a) × (result.base < 262144) }
{
    let d = a % 4096;
    if w / 1024 % 2 == 0 {
        return Rest {
            base: usize::from(w % 64) * 4096,
            left: 4096 - d,
        };
    }
    if 2048 <= d {
        return Rest {
            base: base_of(w),
            left: 0,
        };
    }
    Rest {
        base: base_of(w),
        left: 2048 - d,
    }
}

// The smaller of two numbers.
pub fn fewer_of(x: u32, y: usize) -> u32
    ensures { result ≡ fewer x y }
{
    if y < x as usize {
        return y as u32;
    }
    x
}

// The refusal of the byte at a.
fn refused(cause: Cause, a: u32) -> Result<Spot, Refusal>
    ensures { result ≡ Refused cause a }
{
    Err(Refusal { cause, place: a })
}

// A byte's look-up in a memory of n bytes: document 01's tests 1 to 7, and how far it reaches. Tests 3 to 6 have one cause, so that the
// fourth may come last of them.
pub fn look_up(map: &[u16], n: usize, access: Access, a: u32) -> Result<Spot, Refusal>
    ensures { result ≡ look_of map.now n access a }
{
    if 2097152 <= a {
        return refused(Cause::Addressing, a);
    }
    let w = word_for(map, a);
    if is_barred(w, access) {
        return refused(cause_of(w), a);
    }
    let rest = rest_of(w, a);
    if rest.left == 0 {
        return refused(Cause::PagingError, a);
    }
    let at = rest.base + (a % 4096) as usize;
    if n <= at {
        return refused(Cause::Addressing, a);
    }
    Ok(Spot {
        at,
        reach: fewer_of(rest.left, n - at),
    })
}

// Whether a page's word has the marks of an access already: G, and for a store W too.
fn is_marked(w: u16, access: Access) -> bool
    ensures { result ≡ marked w access }
{
    if w / 16384 % 2 == 0 {
        return false;
    }
    !is_store(access) || 32768 <= w
}

// The look-up of a byte in a page that lies in memory to its end, so that the reach is what is left of it. Of any other page it finds
// nothing, and says nothing by it.
pub fn look_whole(map: &[u16], n: usize, access: Access, a: u32) -> Option<Spot>
    requires { length map.now ≡ 512 }
    ensures { WholeLook result map.now n access a }
{
    if 2097152 <= a {
        return None;
    }
    let w = map[(a / 4096) as usize];
    if is_barred(w, access) {
        return None;
    }
    let rest = rest_of(w, a);
    if rest.left == 0 {
        return None;
    }
    let at = rest.base + (a % 4096) as usize;
    if n < at + rest.left as usize {
        return None;
    }
    Some(Spot {
        at,
        reach: rest.left,
    })
}

// The same of a page that has the marks of the access already, so that setting them would change nothing.
pub fn look_marked(map: &[u16], n: usize, access: Access, a: u32) -> Option<Spot>
    requires { length map.now ≡ 512 }
    ensures { MarkedLook result map.now n access a }
{
    if 2097152 <= a {
        return None;
    }
    if !is_marked(map[(a / 4096) as usize], access) {
        return None;
    }
    look_whole(map, n, access, a)
}

// A page's word with the marks of an access.
fn with_marks(w: u16, access: Access) -> u16
    ensures { result ≡ with_marks w access }
{
    if is_store(access) {
        return 49152 + w % 16384;
    }
    w / 32768 * 32768 + 16384 + w % 16384
}

// The marks of an access, set on the page of a: one test where they are there.
pub fn mark(map: &mut [u16], access: Access, a: u32)
    ensures { map.new ≡ marks_of access map.old a }
{
    let page = (a / 4096) as usize;
    if page < map.len() {
        let w = map[page];
        if !is_marked(w, access) {
            map[page] = with_marks(w, access);
        }
    }
}

// W alone, set on the page of a.
pub fn note_written(map: &mut [u16], a: u32)
    ensures { map.new ≡ written_at map.old a }
{
    let page = (a / 4096) as usize;
    if page < map.len() {
        let w = map[page];
        if w < 32768 {
            map[page] = w + 32768;
        }
    }
}

// The byte at a; 0 where the look-up refuses.
pub fn read_byte(mem: &[u8], map: &[u16], a: u32) -> u8
    ensures { result ≡ read_byte (framed_of mem.now map.now) a }
{
    match look_up(map, mem.len(), Access::Load, a) {
        Ok(spot) => mem[spot.at],
        Err(_) => 0,
    }
}

// A byte stored at a, and W noted; nothing where the look-up refuses.
pub fn write_byte(mem: &mut [u8], map: &mut [u16], a: u32, v: u8)
    ensures { framed_of mem.new map.new ≡ write_byte (framed_of mem.old map.old) a v }
{
    if let Ok(spot) = look_up(map, mem.len(), Access::Store, a) {
        mem[spot.at] = v;
        note_written(map, a);
    }
}
