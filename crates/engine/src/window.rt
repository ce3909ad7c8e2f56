// The window of a run: the code page that it fetches from, looked up once.
ghost use Rattle.std.specs.Prelude.{◌≡◌, eqb, length, IfSome};
ghost use Rattle.pages.specs.Word.{bit_g, word_of};
ghost use Rattle.engine.specs.Entry.{Ready, inside};

use pages::Access;
use quick::Window;

// Whether an instruction may begin at pc, with six bytes in the window.
pub fn is_inside(w: Window, pc: u32) -> bool
    ensures { result ≡ inside w pc }
{
    w.first <= pc && pc - w.first < w.len
}

// Whether a page has the mark G.
fn is_seen(map: &[u16], page: u32) -> bool
    ensures { result ≡ eqb (bit_g (word_of map.now page)) 1 }
{
    map.get(page as usize).copied().unwrap_or(0) / 16384 % 2 == 1
}

// The window for the page of pc, where it may have one: as far as the look-up of the page's first byte reaches, less the five bytes from
// which no six are left.
pub fn open(mem: &[u8], map: &[u16], pc: u32) -> Option<Window>
    ensures { IfSome result (λ w. Ready w map.now (length mem.now)) }
{
    let page = pc / 4096;
    let first = page * 4096;
    if !is_seen(map, page) {
        return None;
    }
    let Ok(found) = lookup::look_up(map, mem.len(), Access::Fetch, first) else {
        return None;
    };
    if found.reach < 6 {
        return None;
    }
    Some(Window {
        first,
        len: found.reach - 5,
        base: found.at,
    })
}
