// What a lent row or buffer holds after a call that wrote to it, and the laws by which a loop writes a result entry by entry or tests one.
// Its code writes text into a lent buffer, part by part, where that there is room for a part is the caller's concern.
#![tactic(auto)]

ghost use Rattle.std.specs.Prelude.{[], ◌∷◌};
ghost use Rattle.rows.specs.Written.{Fits, Writes};

// A lent buffer, and the place in it where the next part goes.
#[derive(Drop)]
pub struct Writer<'a> {
    pub buffer: &'a mut [u8],
    pub at: usize,
}

impl<'a> Writer<'a> {
    // Writes a byte.
    #[inline]
    pub fn byte(&mut self, byte: u8)
        requires { Fits (byte ∷ []) self.old }
        ensures { Writes (byte ∷ []) self.old self.new }
    {
        self.buffer[self.at] = byte;
        self.at += 1;
    }

    // Writes bytes as they are.
    pub fn bytes(&mut self, bytes: &[u8])
        requires { Fits bytes.now self.old }
        ensures { Writes bytes.now self.old self.new }
    {
        // byte by byte: by `copy_from_slice` each constant that is written would stand in read-only memory, which is short
        let buffer = &mut *self.buffer;
        let mut next = self.at;
        for byte in bytes {
            buffer[next] = *byte;
            next += 1;
        }
        self.at = next;
    }
}
