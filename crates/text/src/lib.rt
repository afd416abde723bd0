#![tactic(auto)]
// Text written into a lent area: bytes, words and numbers, one after the other.
ghost use Rattle.std.specs.Prelude.{[], ◌∷◌, ◌++◌, ◌+◌, ◌≤◌, ◌<◌, length, ◌≡◌};
ghost use Rattle.text.specs.Text.{decimal, digits_most, number_most, field_most};
ghost use Rattle.text.specs.Page.{HasRoom, Wrote};

// An area, and how many of its first bytes are written: lent bytes, as there is no heap. What is written stays: each method adds to it.
#[derive(Drop)]
pub struct Page<'a> {
    pub area: &'a mut [u8],
    pub size: usize,
}

impl Page<'_> {
    pub fn byte(&mut self, byte: u8)
        requires { HasRoom self.old 1 }
        ensures { Wrote self.old (byte ∷ []) self.new }
    {
        self.area[self.size] = byte;
        self.size += 1;
    }

    pub fn word(&mut self, word: &[u8])
        requires { HasRoom self.old (length word.now) }
        ensures { Wrote self.old word.now self.new }
    {
        let end = self.size + word.len();
        self.area[self.size..end].copy_from_slice(word);
        self.size = end;
    }

    // A number of at most five digits, in decimal. Most numbers of a report have one digit, and those are written without a buffer.
    // That it has no more is a clause, here and in `desk`: a type of such numbers would be made for each call.
    #[tactic(auto, using(crate::specs::Std::std_decimal_is, crate::specs::Laws::decimal_most, crate::specs::Laws::decimal_one))]
    pub fn number(&mut self, n: usize)
        requires { (n < number_most) × HasRoom self.old digits_most }
        ensures text { Wrote self.old (decimal n) self.new }
        ensures most { self.new.size ≤ self.old.size + digits_most }
    {
        if n < 10 {
            self.byte(b'0' + n as u8);
        } else {
            self.word(itoa::Buffer::new().format(n).as_bytes());
        }
    }

    // A number and the byte that ends its field.
    pub fn field(&mut self, n: usize, end: u8)
        requires { (n < number_most) × HasRoom self.old field_most }
        ensures text { Wrote self.old (decimal n ++ (end ∷ [])) self.new }
        ensures most { self.new.size ≤ self.old.size + field_most }
    {
        self.number(n);
        self.byte(end);
    }
}
