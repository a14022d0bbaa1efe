// Writing a text on a page: words and numbers, one after another.
#![tactic(auto)]

ghost use Rattle.std.specs.Prelude.{◌+◌, ◌<◌, ◌≡◌, [], ◌∷◌};
ghost use Rattle.text.specs.Numbers.{print_number};
ghost use Rattle.print.specs.Items.{item, items, form, printed_line};
ghost use Rattle.print.specs.Inner.Written.{Room, Wrote};

// Writes a byte and hands back the index after it.
fn put_byte(buffer: &mut [u8], at: usize, byte: u8) -> usize
    requires { Room buffer.old at (byte ∷ []) }
    ensures { Wrote (byte ∷ []) buffer.old at buffer.new result }
{
    buffer[at] = byte;
    at + 1
}

// Writes a number in base ten and hands back the index after it. It calls itself, and so it takes the bytes and the index: a page that is
// handed to it lies in memory from the start, and makes writing units slower by a quarter.
fn put_number(buffer: &mut [u8], at: usize, v: u64) -> usize
    requires { Room buffer.old at (print_number v) }
    ensures { Wrote (print_number v) buffer.old at buffer.new result }
{
    if v < 10 {
        return put_byte(buffer, at, (48 + v) as u8);
    }
    let next = put_number(buffer, at, v / 10);
    put_byte(buffer, next, (48 + v % 10) as u8)
}

// A page that is written on: its bytes, and how many of them are written.
#[derive(Drop)]
pub struct Page<'a> {
    pub bytes: &'a mut [u8],
    pub at: usize,
}

// Each method ensures that the page keeps its reference, so that whoever lent the bytes knows what they are afterwards.
impl<'a> Page<'a> {
    // Writes a byte.
    fn byte(&mut self, byte: u8)
        requires { Room self.old.bytes.now self.old.at (byte ∷ []) }
        ensures wrote { Wrote (byte ∷ []) self.old.bytes.now self.old.at self.new.bytes.now self.new.at }
        ensures same_reference { self.new.bytes.ghost_name ≡ self.old.bytes.ghost_name }
    {
        self.at = put_byte(self.bytes, self.at, byte);
    }

    // Writes a word, given by its bytes.
    #[tactic(auto, using(model::proofs::Laws::Writing::part_written), unfolding(crate::specs::Inner::Written::written))]
    pub fn word(&mut self, word: &[u8])
        requires { Room self.old.bytes.now self.old.at word.now }
        ensures wrote { Wrote word.now self.old.bytes.now self.old.at self.new.bytes.now self.new.at }
        ensures same_reference { self.new.bytes.ghost_name ≡ self.old.bytes.ghost_name }
    {
        let next = self.at + word.len();
        self.bytes[self.at..next].copy_from_slice(word);
        self.at = next;
    }

    // Writes a number in base ten.
    pub fn number(&mut self, v: u64)
        requires { Room self.old.bytes.now self.old.at (print_number v) }
        ensures wrote { Wrote (print_number v) self.old.bytes.now self.old.at self.new.bytes.now self.new.at }
        ensures same_reference { self.new.bytes.ghost_name ≡ self.old.bytes.ghost_name }
    {
        self.at = put_number(self.bytes, self.at, v);
    }

    // Writes a space and a number.
    pub fn item(&mut self, v: u64)
        requires { Room self.old.bytes.now self.old.at (item v) }
        ensures wrote { Wrote (item v) self.old.bytes.now self.old.at self.new.bytes.now self.new.at }
        ensures same_reference { self.new.bytes.ghost_name ≡ self.old.bytes.ghost_name }
    {
        self.byte(b' ');
        self.number(v);
    }

    // Writes numbers, each after a space.
    fn items(&mut self, vs: &[u64])
        requires { Room self.old.bytes.now self.old.at (items vs.now) }
        ensures wrote { Wrote (items vs.now) self.old.bytes.now self.old.at self.new.bytes.now self.new.at }
        ensures same_reference { self.new.bytes.ghost_name ≡ self.old.bytes.ghost_name }
    {
        for v in vs {
            self.item(*v);
        }
    }

    // Writes a word and numbers, each after a space.
    pub fn form(&mut self, word: &[u8], vs: &[u64])
        requires { Room self.old.bytes.now self.old.at (form word.now vs.now) }
        ensures wrote { Wrote (form word.now vs.now) self.old.bytes.now self.old.at self.new.bytes.now self.new.at }
        ensures same_reference { self.new.bytes.ghost_name ≡ self.old.bytes.ghost_name }
    {
        self.word(word);
        self.items(vs);
    }

    // Writes a line of a word and numbers.
    pub fn line(&mut self, word: &[u8], vs: &[u64])
        requires { Room self.old.bytes.now self.old.at (printed_line word.now vs.now) }
        ensures wrote { Wrote (printed_line word.now vs.now) self.old.bytes.now self.old.at self.new.bytes.now self.new.at }
        ensures same_reference { self.new.bytes.ghost_name ≡ self.old.bytes.ghost_name }
    {
        self.form(word, vs);
        self.word(b")\n");
    }
}
