// Text put on a page. A byte that finds no room is dropped.
ghost use Rattle.std.specs.Prelude.{[], ◌∷◌};
ghost use Rattle.survey_lines.specs.Text.{decimal, line};
ghost use Rattle.survey_lines.specs.Inside.Page.{Printed};

// A lent buffer, and how far it is filled.
#[derive(Drop)]
pub struct Page<'a> {
    pub out: &'a mut [u8],
    pub at: usize,
}

impl Page<'_> {
    // One byte.
    fn put(&mut self, byte: u8)
        ensures { Printed (byte ∷ []) self.old self.new }
    {
        if self.at < self.out.len() {
            self.out[self.at] = byte;
            self.at += 1;
        }
    }

    pub fn put_text(&mut self, text: &[u8])
        ensures { Printed text.now self.old self.new }
    {
        for byte in text {
            self.put(*byte);
        }
    }

    pub fn put_decimal(&mut self, n: usize)
        ensures { Printed (decimal n) self.old self.new }
    {
        let mut digits = [0u8; 20];
        let k = io::decimal(n as u64, &mut digits);
        self.put_text(&digits[..k]);
    }

    // A word, the numbers, each behind a space, and the line's end.
    pub fn put_line(&mut self, word: &[u8], numbers: &[usize])
        ensures { Printed (line word.now numbers.now) self.old self.new }
    {
        self.put_text(word);
        for n in numbers {
            self.put(b' ');
            self.put_decimal(*n);
        }
        self.put(b'\n');
    }
}
