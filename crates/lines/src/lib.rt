// Lines of words and numbers, written into a lent buffer.
#![tactic(auto)]

ghost use Rattle.std.specs.Prelude.{◌≡◌, ◌≤◌, [], ◌∷◌, length};
ghost use Rattle.lines.specs.Decimal.{glyph};
ghost use Rattle.lines.specs.Items.{number, numbers};
ghost use Rattle.lines.specs.Items.{word as a_word};
ghost use Rattle.lines.specs.Lines.{after, line};
ghost use Rattle.lines.specs.Put.{PutsBytes};
ghost use Rattle.lines.specs.Puts.{Room, Puts, DigitFits};

fn put_digit(buffer: &mut [u8], at: usize, digit: u64) -> usize
    requires { DigitFits digit at buffer.old }
    ensures { PutsBytes (glyph digit ∷ []) at buffer.old buffer.new result }
{
    buffer[at] = b'0' + digit as u8;
    at + 1
}

// Digits from an offset on; answers the offset after the last.
// By hand: a crate for them would be one more to believe. Of the bare buffer: through a text's `&mut self` a number takes a fifth longer.
#[tactic(auto, using(crate::proofs::Putting::puts_digit))]
fn put_digits(buffer: &mut [u8], at: usize, x: u64) -> usize
    requires { Room (number x ∷ []) at buffer.old }
    ensures { Puts (number x ∷ []) at buffer.old buffer.new result }
{
    if x < 10 {
        return put_digit(buffer, at, x);
    }
    let end = put_digits(buffer, at, x / 10);
    put_digit(buffer, end, x % 10)
}

// A lent buffer, and where the text in it ends.
// By hand: methods and no `write!`, which may fail by the contract of `fmt::Write`, and that does not say when.
#[derive(Drop)]
pub struct Text<'a> {
    buffer: &'a mut [u8],
    end: usize,
    ghost inside: { end ≤ length buffer.now },
}

impl<'a> Text<'a> {
    ghost use Rattle.lines.specs.Writes.{Fits, Writes};

    // The empty text, at the start of the buffer.
    pub fn new(buffer: &'a mut [u8]) -> Text<'a>
        ensures same_buffer { result.buffer.ghost_name ≡ buffer.entry.ghost_name }
        ensures same_bytes { result.buffer.now ≡ buffer.old }
        ensures empty { result.end ≡ 0 }
    {
        Text::at(buffer, 0)
    }

    // What stands in the buffer up to `end`, to be written on from there.
    pub fn at(buffer: &'a mut [u8], end: usize) -> Text<'a>
        requires { end ≤ length buffer.old }
        ensures same_buffer { result.buffer.ghost_name ≡ buffer.entry.ghost_name }
        ensures same_bytes { result.buffer.now ≡ buffer.old }
        ensures end { result.end ≡ end }
    {
        Text { buffer, end }
    }

    // Where the text ends.
    pub fn end(&self) -> usize
        ensures { result ≡ self.now.end }
    {
        self.end
    }

    pub fn word(&mut self, word: &[u8])
        requires { Fits (a_word word.now ∷ []) self.old }
        ensures { Writes (a_word word.now ∷ []) self.old self.new }
    {
        let end = self.end + word.len();
        self.buffer[self.end..end].copy_from_slice(word);
        self.end = end;
    }

    // A blank, and the number.
    pub fn number(&mut self, x: u64)
        requires { Fits (after (number x ∷ [])) self.old }
        ensures { Writes (after (number x ∷ [])) self.old self.new }
    {
        self.word(b" ");
        self.end = put_digits(self.buffer, self.end, x);
    }

    // The entries of a ring, each after a blank.
    pub fn ring(&mut self, ring: &[u32])
        requires { Fits (after (numbers ring.now)) self.old }
        ensures { Writes (after (numbers ring.now)) self.old self.new }
    {
        for x in ring {
            self.number(u64::from(*x));
        }
    }

    // The name and the number, each after a blank.
    pub fn named(&mut self, name: &[u8], x: u64)
        requires { Fits (after (a_word name.now ∷ number x ∷ [])) self.old }
        ensures { Writes (after (a_word name.now ∷ number x ∷ [])) self.old self.new }
    {
        self.word(b" ");
        self.word(name);
        self.number(x);
    }

    // A name, the entries of a ring, and the line's end.
    pub fn line(&mut self, name: &[u8], ring: &[u32])
        requires { Fits (line (a_word name.now) (numbers ring.now)) self.old }
        ensures { Writes (line (a_word name.now) (numbers ring.now)) self.old self.new }
    {
        self.word(name);
        self.ring(ring);
        self.word(b"\n");
    }
}
