// A text cut at a mark; two texts compared.
ghost use Rattle.std.specs.Prelude.{◌≡◌, ◌≤◌, length};
ghost use Rattle.words.specs.Ascii.{same};
ghost use Rattle.reading.specs.Cut.{span, before, after};

// How many bytes stand before the first mark.
pub fn find(s: &[u8], mark: u8) -> usize
    ensures { (result ≡ span mark s.now) × (result ≤ length s.now) }
{
    s.iter().position(|&b| b == mark).unwrap_or(s.len())
}

// What stands before the first mark, and what stands after it.
#[tactic(auto, unfolding(crate::specs::Cut::before))]
pub fn front(s: &[u8], mark: u8) -> &[u8]
    ensures { result.now ≡ before mark s.now }
{
    &s[..find(s, mark)]
}

#[tactic(auto, unfolding(crate::specs::Cut::after))]
pub fn back(s: &[u8], mark: u8) -> &[u8]
    ensures { result.now ≡ after mark s.now }
{
    s.get(find(s, mark) + 1..).unwrap_or(&[])
}

// Whether two texts have the same bytes.
#[tactic(auto, using(crate::proofs::SameText::same_as_eq))]
pub fn equal(a: &[u8], b: &[u8]) -> bool
    ensures { result ≡ same a.now b.now }
{
    a == b
}
