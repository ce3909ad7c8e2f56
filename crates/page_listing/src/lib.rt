// The listing of a page of a machine: its bytes as the look-up finds them, listed at the page's own address.
#![tactic(auto)]

ghost use Rattle.std.specs.Prelude.{◌≡◌, ◌≤◌, ◌<◌, ◌+◌, length, take, drop, Ok};
ghost use Rattle.pages.specs.Tests.{number_of};
ghost use Rattle.lines.specs.Listing.{listed};
ghost use Rattle.page_listing.specs.declared.PageRefusal.TheVariants.{Byte};
ghost use Rattle.page_listing.specs.Page.{first_of, number_in, place_in, page_answered, of_page, page_listed};

use lines::Listed;
use pages::{Access, Cause, Refusal, Spot};

// Why nothing of a page was listed.
#[derive(Clone, Copy)]
pub enum PageRefusal {
    NoSuchPage, // the machine lacks it
    Byte(Refusal), // its first byte was refused
}

impl From<Refusal> for PageRefusal {
    ghost from_gives = { λ r e. e ≡ Byte r };

    fn from(refused: Refusal) -> PageRefusal {
        PageRefusal::Byte(refused)
    }
}

// The number of a cause.
fn number_of(cause: Cause) -> u32
    ensures { result ≡ number_of cause }
{
    match cause {
        Cause::Addressing => 1,
        Cause::PagingQueue => 3,
        Cause::PagingError => 4,
    }
}

impl PageRefusal {
    // The cause's number; or 6 for a page that the machine lacks.
    pub fn number(self) -> u32
        ensures { result ≡ number_in self }
    {
        match self {
            PageRefusal::NoSuchPage => 6,
            PageRefusal::Byte(refused) => number_of(refused.cause),
        }
    }

    // The address of the byte that was refused, else 0.
    pub fn place(self) -> u32
        ensures { result ≡ place_in self }
    {
        match self {
            PageRefusal::NoSuchPage => 0,
            PageRefusal::Byte(refused) => refused.place,
        }
    }
}

// The listing of a page that the look-up of its first byte reaches: its bytes lie together, and are listed where they lie.
fn list_found(mem: &[u8], page: u32, first: Spot, out: &mut [u8]) -> Listed
    requires { (page < 512) × (first.at + first.reach ≤ length mem.now) }
    ensures { page_answered (Ok result) out.new ≡ of_page (listed (take first.reach (drop first.at mem.now)) (first_of page) out.old) }
{
    listing::list_all(
        &mem[first.at..first.at + first.reach as usize],
        page * 4096,
        out,
    )
}

// The entry: as many lines of a page as fit the output. The page is found by its whole number.
pub fn list_page(mem: &[u8], map: &[u16], page: u32, out: &mut [u8]) -> Result<Listed, PageRefusal>
    ensures { page_answered result out.new ≡ page_listed mem.now map.now page out.old }
{
    if page >= 512 {
        return Err(PageRefusal::NoSuchPage);
    }
    let first = lookup::look_up(map, mem.len(), Access::Load, page * 4096)?;
    Ok(list_found(mem, page, first, out))
}
