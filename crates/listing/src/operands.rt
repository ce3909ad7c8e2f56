// Operands, by format: a rule each. Fields are widened by `as`: with `usize::from` the search that joins the parts finds no proof.
ghost use Rattle.std.specs.Prelude.{◌≡◌, [], ◌∷◌, ◌++◌, ◌<◌, get_or};
ghost use Rattle.printing.specs.Digits.{hex_of, decimal_of};
ghost use Rattle.printing.specs.Writing.{Wrote};
ghost use Rattle.lines.specs.Line.{based, indexed, hex_bytes, quoted, rr_text, rx_text, rs_text, si_text, ss_text, half_at, operands_of};

use code::{Action, RrFields, RsFields, RxFields, SiFields, SsFields};
use printing::writing::Writer;

// A number, and the mark behind it.
fn put_marked(w: &mut Writer, v: usize, mark: u8)
    ensures { Wrote w.old w.new (decimal_of v ++ mark ∷ []) }
{
    w.put_number(v);
    w.put(mark);
}

// D(B)
fn put_based(w: &mut Writer, d: u16, b: u8)
    ensures { Wrote w.old w.new (based d b) }
{
    put_marked(w, d as usize, b'(');
    put_marked(w, b as usize, b')');
}

// D(X,B)
fn put_indexed(w: &mut Writer, d: u16, x: usize, b: u8)
    ensures { Wrote w.old w.new (indexed d x b) }
{
    put_marked(w, d as usize, b'(');
    put_marked(w, x, b',');
    put_marked(w, b as usize, b')');
}

// A byte in hex.
fn put_byte(w: &mut Writer, b: u8)
    ensures { Wrote w.old w.new (hex_of 2 b) }
{
    w.put_digits(usize::from(b), 16, 2);
}

// Bytes in hex, two digits each.
fn put_bytes(w: &mut Writer, bytes: &[u8])
    ensures { Wrote w.old w.new (hex_bytes bytes.now) }
{
    for b in bytes {
        put_byte(w, *b);
    }
}

// X'..'
pub fn put_quoted(w: &mut Writer, bytes: &[u8])
    ensures { Wrote w.old w.new (quoted bytes.now) }
{
    w.put_all(b"X'");
    put_bytes(w, bytes);
    w.put(b'\'');
}

fn put_rr(w: &mut Writer, f: RrFields)
    ensures { Wrote w.old w.new (rr_text f) }
{
    put_marked(w, f.r1 as usize, b',');
    w.put_number(f.r2 as usize);
}

fn put_rx(w: &mut Writer, f: RxFields)
    ensures { Wrote w.old w.new (rx_text f) }
{
    put_marked(w, f.r1 as usize, b',');
    put_indexed(w, f.d2, f.x2 as usize, f.b2);
}

fn put_rs(w: &mut Writer, f: RsFields)
    ensures { Wrote w.old w.new (rs_text f) }
{
    put_marked(w, f.r1 as usize, b',');
    put_marked(w, f.r3 as usize, b',');
    put_based(w, f.d2, f.b2);
}

fn put_si(w: &mut Writer, f: SiFields)
    ensures { Wrote w.old w.new (si_text f) }
{
    put_based(w, f.d1, f.b1);
    w.put(b',');
    put_quoted(w, &[f.i2]);
}

fn put_ss(w: &mut Writer, f: SsFields)
    ensures { Wrote w.old w.new (ss_text f) }
{
    put_indexed(w, f.d1, f.l as usize + 1, f.b1);
    w.put(b',');
    put_based(w, f.d2, f.b2);
}

// A byte of a stretch; past its end 0.
pub fn byte_at(bytes: &[u8], i: usize) -> u8
    ensures { result ≡ get_or bytes.now i 0 }
{
    bytes.get(i).copied().unwrap_or(0)
}

// The halfword at a place of a stretch.
fn half_at(bytes: &[u8], i: usize) -> u16
    requires { i < 6 }
    ensures { result ≡ half_at bytes.now i }
{
    u16::from(byte_at(bytes, i)) * 256 + u16::from(byte_at(bytes, i + 1))
}

// The operands of an instruction with this action.
pub fn put_operands(w: &mut Writer, action: Action, bytes: &[u8])
    ensures { Wrote w.old w.new (operands_of action bytes.now) }
{
    let h1 = half_at(bytes, 0);
    let h2 = half_at(bytes, 2);
    let h3 = half_at(bytes, 4);
    match action {
        Action::Rr(_) => put_rr(w, decode::split_rr(h1)),
        Action::Rx(_) => put_rx(w, decode::split_rx(h1, h2)),
        Action::Rs(_) => put_rs(w, decode::split_rs(h1, h2)),
        Action::Si(_) => put_si(w, decode::split_si(h1, h2)),
        Action::Ss(_) => put_ss(w, decode::split_ss(h1, h2, h3)),
    }
}
