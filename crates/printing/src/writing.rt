// Bytes into a buffer, from a place on: past the end nothing is written.
ghost use Rattle.std.specs.Prelude.{◌≡◌, [], ◌∷◌, take};
ghost use Rattle.printing.specs.Writing.{spot, spot_of, Wrote};

// A buffer that is lent, and the place of the next byte.
#[derive(Drop)]
pub struct Writer<'a> {
    pub buf: &'a mut [u8],
    pub at: usize,
}

impl<'a> Writer<'a> {
    // At the buffer's start.
    pub fn new(buf: &'a mut [u8]) -> Writer<'a>
        ensures same_buffer { result.buf.ghost_name ≡ buf.entry.ghost_name }
        ensures start { spot_of result ≡ spot buf.old 0 }
    {
        Writer { buf, at: 0 }
    }

    pub fn put(&mut self, b: u8)
        ensures { Wrote self.old self.new (b ∷ []) }
    {
        if self.at < self.buf.len() {
            self.buf[self.at] = b;
            self.at += 1;
        }
    }

    pub fn put_all(&mut self, text: &[u8])
        ensures { Wrote self.old self.new text.now }
    {
        for b in text {
            self.put(*b);
        }
    }

    // What stands before the place.
    pub fn written(&self) -> &[u8]
        ensures { result.now ≡ take self.now.at self.now.buf.now }
    {
        let end = self.at.min(self.buf.len());
        &self.buf[..end]
    }
}
