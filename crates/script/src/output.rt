// Text written into lent memory.
ghost use Rattle.std.specs.Prelude.{[], ◌∷◌, decimal};
ghost use Rattle.std.specs.Fmt.{signed_decimal};
ghost use Rattle.script.specs.Output.{Appended};

// Memory that is lent, since nothing here allocates, and the place in it where the next byte goes. What the memory has no room for is
// not written.
// `fmt::Write` is no plainer here: by its contract a write may fail, and none of these can.
#[derive(Drop)]
pub struct Output<'a> {
    pub memory: &'a mut [u8],
    pub place: usize,
}

impl Output<'_> {
    pub(crate) fn put_byte(&mut self, byte: u8)
        ensures { Appended self.old (byte ∷ []) self.new }
    {
        if self.place < self.memory.len() {
            self.memory[self.place] = byte;
            self.place += 1;
        }
    }

    pub fn put_bytes(&mut self, text: &[u8])
        ensures { Appended self.old text.now self.new }
    {
        for byte in text {
            self.put_byte(*byte);
        }
    }

    // A number in decimal: what is before its last digit, and then that digit, which fits a byte: `try_from`
    // would need a branch that never runs.
    pub(crate) fn put_number(&mut self, n: u64)
        ensures { Appended self.old (decimal n) self.new }
    {
        if n >= 10 {
            self.put_number(n / 10);
        }
        self.put_byte(b'0' + (n % 10) as u8);
    }

    pub(crate) fn put_signed(&mut self, z: i32)
        ensures { Appended self.old (signed_decimal z) self.new }
    {
        if z < 0 {
            self.put_byte(b'-');
        }
        self.put_number(u64::from(z.unsigned_abs()));
    }
}
