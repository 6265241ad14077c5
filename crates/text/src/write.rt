// Text put at the end of what a lent buffer holds. What stands after it is not touched.
ghost use Rattle.std.specs.Prelude.{[], ◌∷◌, ◌+◌, length};
ghost use Rattle.text.specs.Number.{digits_of, numbered};
ghost use Rattle.text.specs.Sheet.{HasRoom, Writes};

// A lent buffer, and where the text that it holds ends. How much room remains is asked by each function, and is no ghost field: what
// is put uses it up.
#[derive(Drop)]
pub struct Sheet<'a> {
    pub bytes: &'a mut [u8],
    pub end: usize,
}

impl Sheet<'_> {
    fn put_byte(&mut self, b: u8)
        requires { HasRoom self.old 1 }
        ensures { Writes self.old (b ∷ []) self.new }
    {
        self.bytes[self.end] = b;
        self.end += 1;
    }

    // The bytes of a text.
    pub fn put(&mut self, text: &[u8])
        requires { HasRoom self.old (length text.now) }
        ensures { Writes self.old text.now self.new }
    {
        let last = self.end + text.len();
        self.bytes[self.end..last].copy_from_slice(text);
        self.end = last;
    }

    // The last k digits of n at most, in decimal. By hand: `write!` may fail for all that its contract says, and these are always put.
    #[tactic(auto, using(crate::proofs::Puts::put_in_decimal), unfolding(crate::specs::Number::digits_of))]
    fn put_digits(&mut self, k: usize, n: u64)
        requires { HasRoom self.old k }
        ensures { Writes self.old (digits_of k n) self.new }
    {
        if k == 0 {
            return;
        }
        let glyph = b'0' + (n % 10) as u8;
        if n < 10 {
            return self.put_byte(glyph);
        }
        self.put_digits(k - 1, n / 10);
        self.put_byte(glyph);
    }

    // A whole line: the key, the number and the line's end.
    #[tactic(auto, using(crate::proofs::Numbers::length_digits))]
    pub fn put_line(&mut self, key: &[u8], n: u64)
        requires { HasRoom self.old (length key.now + 21) }
        ensures { Writes self.old (numbered key.now n) self.new }
    {
        self.put(key);
        self.put_digits(20, n);
        self.put_byte(b'\n');
    }
}
