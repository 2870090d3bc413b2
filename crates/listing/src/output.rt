// An output with the place behind what is written in it: texts and numbers, one behind the other.
ghost use Rattle.std.specs.Prelude.{◌+◌, ◌-◌, ◌*◌, ◌/◌, ◌%◌, ◌^◌, ◌∷◌, [], ◌≤◌, ◌<◌, ◌≡◌, length, take};
ghost use Rattle.format.specs.Bits.{spread};
ghost use Rattle.format.specs.Numbers.{signed};
ghost use Rattle.listing.specs.Lines.{decimal, signed_decimal, bit_text};
ghost use Rattle.listing.specs.Puts.{Fits, Put};

// The least word of a negative number.
const NEGATIVE: u64 = 0x8000_0000_0000_0000;

#[derive(Drop)]
pub struct Output<'a> {
    lent: &'a mut [u8],
    at: usize,
}

impl<'a> Output<'a> {
    // Nothing is written yet.
    pub fn new(lent: &'a mut [u8]) -> Output<'a>
        ensures same { result.lent.ghost_name ≡ lent.entry.ghost_name }
        ensures lent { result.lent.now ≡ lent.old }
        ensures at { result.at ≡ 0 }
    {
        Output { lent, at: 0 }
    }

    // How much is written.
    pub fn length(&self) -> usize
        ensures { result ≡ self.now.at }
    {
        self.at
    }

    pub fn byte(&mut self, b: u8)
        requires { Fits (b ∷ []) self.old }
        ensures { Put (b ∷ []) self.old self.new }
    {
        self.lent[self.at] = b;
        self.at += 1;
    }

    pub fn text(&mut self, text: &[u8])
        requires { Fits text.now self.old }
        ensures { Put text.now self.old self.new }
    {
        let end = self.at + text.len();
        self.lent[self.at..end].copy_from_slice(text);
        self.at = end;
    }

    // So many bits of data words, the high bit of each word first.
    pub fn bits(&mut self, words: &[u64], count: usize)
        requires enough { count ≤ 64 * length words.now }
        requires room { Fits (bit_text (take count (spread 64 words.now))) self.old }
        ensures { Put (bit_text (take count (spread 64 words.now))) self.old self.new }
    {
        put_bits(words, &mut self.lent[self.at..self.at + count]);
        self.at += count;
    }

    pub fn decimal(&mut self, n: u64)
        requires { Fits (decimal n) self.old }
        ensures { Put (decimal n) self.old self.new }
    {
        let end = self.at + digits(n);
        let mut x = n;
        for i in (self.at..end).rev() {
            self.lent[i] = b'0' + (x % 10) as u8;
            x /= 10;
        }
        self.at = end;
    }

    // A number from -2^63 to 2^63 - 1, given modulo 2^64.
    pub fn signed(&mut self, v: u64)
        requires { Fits (signed_decimal (signed 8 v)) self.old }
        ensures { Put (signed_decimal (signed 8 v)) self.old self.new }
    {
        if v < NEGATIVE {
            self.decimal(v);
        } else {
            self.byte(b'-');
            self.decimal(v.wrapping_neg());
        }
    }
}

// Bit `j` of a word, the high bit being the first.
fn bit_of(word: u64, j: usize) -> u64
    requires { j < 64 }
    ensures { result ≡ word / 2 ^ (63 - j) % 2 }
{
    (word >> (63 - j)) % 2
}

// The first bits of data words, each as a character, in the whole of a text.
fn put_bits(words: &[u64], text: &mut [u8])
    requires { length text.old ≤ 64 * length words.now }
    ensures { text.new ≡ bit_text (take (length text.old) (spread 64 words.now)) }
{
    for i in 0..text.len() {
        text[i] = b'0' + bit_of(words[i / 64], i % 64) as u8;
    }
}

// How many digits a number has.
fn digits(n: u64) -> usize
    ensures { result ≡ length (decimal n) }
{
    n.max(1).ilog10() as usize + 1
}
