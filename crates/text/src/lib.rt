// Text made in a lent room: each method writes from a place on and moves the place past what it wrote.
#![tactic(auto)]

ghost use Rattle.std.specs.Prelude.{[], ◌∷◌, ◌+◌, ◌≤◌, length, decimal};

// A lent room, and the place in it where the text goes on.
#[derive(Drop)]
pub struct Text<'a> {
    pub room: &'a mut [u8],
    pub at: usize,
}

impl<'a> Text<'a> {
    ghost use Rattle.text.specs.Wrote.{Fits, Wrote};

    // One byte.
    pub fn put_byte(&mut self, byte: u8)
        requires { Fits self.old (byte ∷ []) }
        ensures { Wrote self.old (byte ∷ []) self.new }
    {
        self.room[self.at] = byte;
        self.at += 1;
    }

    // Bytes one after the other.
    pub fn put_bytes(&mut self, bytes: &[u8])
        requires { Fits self.old bytes.now }
        ensures { Wrote self.old bytes.now self.new }
    {
        puts::put_bytes(self.room, self.at, bytes);
        self.at += bytes.len();
    }

    // A number in decimal, with the fewest digits. One digit, as most numbers of a listing have, is put without a buffer for it.
    #[tactic(auto, using(std::proofs::lemmas::Fmt::decimal_digit))]
    pub fn put_decimal(&mut self, n: u64)
        requires { Fits self.old (decimal n) }
        ensures { Wrote self.old (decimal n) self.new }
    {
        if n < 10 {
            self.put_byte(b'0' + n as u8);
            return;
        }
        let mut digits = itoa::Buffer::new();
        self.put_bytes(digits.format(n).as_bytes());
    }
}
